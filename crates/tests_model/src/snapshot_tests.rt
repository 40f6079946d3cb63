//! Updates and scans over segments in a row, and what plays calls of a snapshot object.

use crate::common::{holds, lent, same};
use model_snapshot::{Fixed, Places, SnapReply, SnapWorld};
use model_steps::{Place, Refusal};
use std::alloc::{Allocator, Global};
use std::process::Abort;

/// A call: of steps so many, of which those before the last are quiet; or the question where one is.
#[derive(Clone, Copy, Drop)]
pub enum Call {
    Begin,
    Update(u64),
    Scan,
    Steps(usize),
    Place,
}

/// What a call answers, of steps the last: of a view its pairs.
#[derive(Clone, Copy, Drop)]
pub enum Reported {
    Done,
    Quiet,
    Placed(Place),
    Written,
    Shown(&'static [(u64, u64)]),
    Refused(Refusal),
}

/// Whether a call that only asks is reported so.
fn is_asked(answer: Result<(), Refusal>, reported: Reported) -> bool {
    match reported {
        Reported::Done => answer == Ok(()),
        Reported::Refused(refusal) => answer == Err(refusal),
        _ => false,
    }
}

/// Whether one is at the place that is reported.
fn is_placed(place: Option<Place>, reported: Reported) -> bool {
    matches!(reported, Reported::Placed(want) if place == Some(want))
}

/// Whether a step is reported so.
fn is_stepped(answer: &Result<SnapReply, Refusal>, reported: Reported) -> bool {
    match (answer, reported) {
        (Ok(SnapReply::Quiet), Reported::Quiet) => true,
        (Ok(SnapReply::Placed(place)), Reported::Placed(want)) => *place == want,
        (Ok(SnapReply::Written), Reported::Written) => true,
        (Ok(SnapReply::View(view)), Reported::Shown(pairs)) => view.pairs() == pairs,
        (Err(refusal), Reported::Refused(want)) => *refusal == want,
        _ => false,
    }
}

/// Who makes a call, and what it answers.
pub type Row = (u64, Call, Reported);

/// Whether the last of so many steps is reported so, and those before it are quiet.
fn are_stepped<W: Places + Drop, A: Allocator>(
    world: &mut SnapWorld<W, A>,
    id: u64,
    count: usize,
    reported: Reported,
) -> bool
where
    W::Walker: Copy,
    W::Walk: Copy,
    W::Value: Drop,
{
    for _ in 1..count {
        if !is_stepped(&world.step(id), Reported::Quiet) {
            return false;
        }
    }
    is_stepped(&world.step(id), reported)
}

/// Whether a call of a participant is reported so, over any places.
fn answers<W: Places + Drop, A: Allocator>(world: &mut SnapWorld<W, A>, row: &Row) -> bool
where
    W::Walker: Copy,
    W::Walk: Copy,
    W::Value: Drop,
{
    let (id, call, reported) = *row;
    match call {
        Call::Begin => is_asked(world.begin(id), reported),
        Call::Update(value) => is_asked(world.update(id, value), reported),
        Call::Scan => is_asked(world.scan(id), reported),
        Call::Place => is_placed(world.place_of(id), reported),
        Call::Steps(count) => are_stepped(world, id, count, reported),
    }
}

/// Makes these calls, each of which answers what stands beside it.
pub fn plays<W: Places + Drop, A: Allocator>(
    rt: &impl Abort,
    world: &mut SnapWorld<W, A>,
    rows: &[Row],
)
where
    W::Walker: Copy,
    W::Walk: Copy,
    W::Value: Drop,
{
    for (i, row) in rows.iter().enumerate() {
        holds(rt, i, answers(world, row));
    }
}

/// The identity, the value and the number of a record, and how many pairs its view has.
type Written = (u64, u64, u32, usize);

/// Calls over so many segments, and the record that is then in the first.
#[derive(Drop)]
struct Schedule {
    most: usize,
    rows: &'static [Row],
    record: Option<Written>,
}

const SCHEDULES: &[Schedule] = &[
    // A scan shows what was written.
    Schedule {
        most: 2,
        rows: &[
            (10, Call::Begin, Reported::Done),
            (20, Call::Begin, Reported::Done),
            (10, Call::Update(5), Reported::Done),
            (10, Call::Steps(5), Reported::Written),
            (20, Call::Scan, Reported::Done),
            (20, Call::Steps(4), Reported::Shown(&[(10, 5)])),
            (20, Call::Steps(1), Reported::Refused(Refusal::Finished)),
            (20, Call::Scan, Reported::Done),
            (
                20,
                Call::Update(1),
                Reported::Refused(Refusal::AlreadyBegun),
            ),
        ],
        record: Some((10, 5, 1, 0)),
    },
    // A stale view is refused.
    Schedule {
        most: 2,
        rows: &[
            (10, Call::Begin, Reported::Done),
            (20, Call::Begin, Reported::Done),
            (10, Call::Update(5), Reported::Done),
            (10, Call::Steps(4), Reported::Quiet),
            (20, Call::Update(9), Reported::Done),
            (20, Call::Steps(5), Reported::Written),
            (20, Call::Scan, Reported::Done),
            (20, Call::Steps(2), Reported::Quiet),
            (10, Call::Steps(1), Reported::Written),
            (20, Call::Steps(4), Reported::Shown(&[(10, 5), (20, 9)])),
        ],
        record: Some((10, 5, 1, 0)),
    },
    // A view is borrowed.
    Schedule {
        most: 2,
        rows: &[
            (10, Call::Begin, Reported::Done),
            (20, Call::Begin, Reported::Done),
            (10, Call::Update(5), Reported::Done),
            (10, Call::Steps(5), Reported::Written),
            (20, Call::Scan, Reported::Done),
            (20, Call::Steps(2), Reported::Quiet),
            (10, Call::Update(6), Reported::Done),
            (10, Call::Steps(5), Reported::Written),
            (20, Call::Steps(2), Reported::Quiet),
            (10, Call::Update(7), Reported::Done),
            (10, Call::Steps(5), Reported::Written),
            (20, Call::Steps(1), Reported::Shown(&[(10, 6)])),
        ],
        record: Some((10, 7, 3, 1)),
    },
    // Refusals.
    Schedule {
        most: 2,
        rows: &[
            (10, Call::Begin, Reported::Done),
            (20, Call::Begin, Reported::Done),
            (0, Call::Begin, Reported::Refused(Refusal::ZeroIdentity)),
            (10, Call::Begin, Reported::Refused(Refusal::AlreadyBegun)),
            (30, Call::Begin, Reported::Refused(Refusal::Full)),
            (30, Call::Scan, Reported::Refused(Refusal::NotBegun)),
            (30, Call::Update(1), Reported::Refused(Refusal::NotBegun)),
            (30, Call::Steps(1), Reported::Refused(Refusal::NotBegun)),
            (10, Call::Steps(1), Reported::Refused(Refusal::Finished)),
            (20, Call::Place, Reported::Placed(1)),
        ],
        record: None,
    },
    // One alone over as many as there may be.
    Schedule {
        most: 16,
        rows: &[
            (7, Call::Begin, Reported::Done),
            (7, Call::Update(3), Reported::Done),
            (7, Call::Steps(33), Reported::Written),
            (7, Call::Scan, Reported::Done),
            (7, Call::Steps(32), Reported::Shown(&[(7, 3)])),
            (7, Call::Scan, Reported::Done),
            (7, Call::Steps(32), Reported::Shown(&[(7, 3)])),
        ],
        record: Some((7, 3, 1, 0)),
    },
];

/// The first record.
fn first_record(places: &Fixed<Global>) -> Option<Written> {
    let record = places.segment_at(0)?;
    let pairs = record.view.len();
    Some((record.identity, record.value, record.number, pairs))
}

/// A new world for so many.
fn world_for(alloc: Global, most: usize) -> Result<SnapWorld<Fixed<Global>, Global>, Refusal> {
    SnapWorld::new(alloc, Fixed::new(alloc, most)?)
}

/// Makes the calls of a schedule: whether there are as many places, and the first record is the one that is due.
fn records(rt: &impl Abort, alloc: Global, schedule: &Schedule) -> Result<bool, Refusal> {
    lent(world_for(alloc, schedule.most), |world| {
        plays(rt, world, schedule.rows);
        let places = world.places();
        places.most() == schedule.most && first_record(places) == schedule.record
    })
}

#[test]
fn schedules_over_a_row(rt: HostRuntime) {
    for (i, schedule) in SCHEDULES.iter().enumerate() {
        same(&rt, i, records(&rt, rt.alloc(), schedule), Ok(true));
    }
}
