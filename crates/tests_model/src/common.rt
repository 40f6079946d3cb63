//! What the integration tests share.

ghost use Rattle.std.specs.Prelude.{◌≤◌};

use model_steps::{Refusal, View};
use std::process::Abort;

/// What an integration test tells of what was made: whether it goes so; or why it was not made.
pub type Reported = Result<bool, Refusal>;

/// Stops an integration test unless in this case of it, named by a size or a row, what it tells is what is due.
pub fn same(rt: &impl Abort, case: usize, reported: Reported, due: Reported) {
    assert_eq!(rt; reported, due, "case {case}");
}

/// What an integration test tells of a world that was made, which is lent to it; or why none was made. Here a world is of any type, so that
/// nothing is proved again of what it holds.
pub fn lent<W: Drop, F: FnOnce(&mut W) -> bool + Drop>(
    made: Result<W, Refusal>,
    trial: F,
) -> Reported
    requires { F.IsAlwaysCallable trial }
{
    let mut world = made?;
    Ok(trial(&mut world))
}

/// Stops an integration test unless this case of it, named by a size or a row, is so.
pub fn holds(rt: &impl Abort, case: usize, is_so: bool) {
    assert!(rt; is_so, "case {case}");
}

/// How many threads race in a round: `most` of them in each tenth, and in another from `least` on up to five more.
pub fn racing(round: usize, least: u64, most: u64) -> u64
    requires some { (1 ≤ least) × (1 ≤ most) }
    ensures { 1 ≤ result }
{
    if round % 10 == 0 {
        most
    } else {
        least.saturating_add(round as u64 % 6)
    }
}

/// The view of these pairs, put in one after the other, as far as there is room.
pub fn view_of(pairs: &[(u64, u64)]) -> View {
    let mut view = View::new();
    for (identity, value) in pairs {
        if !view.is_full() {
            view.insert(*identity, *value);
        }
    }
    view
}

/// How many of some words are set.
pub fn count_set(words: &[u64]) -> usize {
    let mut set = 0usize;
    for word in words {
        set = set.saturating_add(usize::from(*word != 0));
    }
    set
}
