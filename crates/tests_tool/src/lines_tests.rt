//! Lines that were read already, judged one after another. What can follow what is tried on the built program (`tests/records`), whose records
//! have no views but those that are well spelled.

use model_asked::{Config, Event, WorldKind};
use std::alloc::Global;
use text_checker::{Line, Pairs, Reason, Reported, first_fault};

/// What a step answers that saw a view of these pairs.
fn seen(alloc: Global, pairs: &[(u64, u64)]) -> Option<Reported> {
    let mut view = Pairs::new(alloc);
    for (id, number) in pairs {
        view.push(*id, *number).ok()?;
    }
    Some(Reported::Saw(view))
}

/// A line of a step.
fn step(id: u64, reported: Reported) -> Line {
    Line {
        event: Event::Step(id),
        reported,
    }
}

/// A line of one who begins.
fn begin(id: u64) -> Line {
    Line {
        event: Event::Begin(id),
        reported: Reported::Ok,
    }
}

/// The first fault of lines; none where they are too many, and where there is no memory.
fn fault_of(alloc: Global, lines: &[Line]) -> Option<Option<(usize, Reason)>> {
    if 1_000_000 < lines.len() {
        return None;
    }
    let config = Config::new(WorldKind::Tree, 3, 3, 3).ok()?;
    first_fault(alloc, config, lines).ok()
}

/// The same of lines in which 10 and 20 propose 1, and then 10 sees a view of these pairs.
fn fault_of_view(alloc: Global, pairs: &[(u64, u64)]) -> Option<Option<(usize, Reason)>> {
    let last = seen(alloc, pairs)?;
    let lines = [
        begin(10),
        begin(20),
        step(20, Reported::Proposed(1)),
        step(10, Reported::Proposed(1)),
        step(10, last),
    ];
    fault_of(alloc, &lines)
}

/// Views of others than were seen since the last proposal, or not by rising identity.
const NO_VIEWS: [&[(u64, u64)]; 5] = [
    &[(10, 1)],
    &[(10, 1), (20, 2)],
    &[(20, 1), (10, 1)],
    &[(10, 1), (10, 1)],
    &[],
];

/// A view is of a moment since the last proposal, in which another proposes the same.
#[test]
fn views_that_were_and_were_not_seen(rt: HostRuntime) {
    let found = fault_of_view(rt.alloc(), &[(10, 1), (20, 1)]);
    assert!(rt; found == Some(None), "{found:?}");
    for (row, pairs) in NO_VIEWS.iter().enumerate() {
        let found = fault_of_view(rt.alloc(), pairs);
        assert!(rt; found == Some(Some((4, Reason::View))), "row {row}");
    }
}
