//! The numbers of a run.

ghost use Rattle.std.specs.Prelude.{◌≡◌, ℕ, ◌+◌, ◌<◌, ◌^◌, List, []};
ghost use Rattle.text_worlds.specs.desk.Names.{begun_more};
ghost use Rattle.model_asked.specs.Replies.{with_view};
ghost use Rattle.tool_work.specs.drawn.Tally.{IsTallyOf, is_named, is_spent, one_more_if};

use model_asked::{Event, Reply};

/// How many participants of a run have begun, were named and were spent.
#[derive(Clone, Copy, Debug, Drop, PartialEq, Eq)]
pub struct Tally {
    /// Those that have begun.
    pub begun: u64,
    /// Those that were named.
    pub named: u64,
    /// Those that have used up their proposals.
    pub spent: u64,
}

impl Tally {
    /// Makes the numbers of a run with no event.
    pub fn new() -> Tally
        ensures { IsTallyOf [] result }
    {
        Tally {
            begun: 0,
            named: 0,
            spent: 0,
        }
    }

    /// Counts an event by its reply.
    pub fn count(&mut self, event: Event, reply: Reply<()>)
        requires begun { self.old.begun + 1 < 2 ^ 64 }
        requires named { self.old.named + 1 < 2 ^ 64 }
        requires spent { self.old.spent + 1 < 2 ^ 64 }
        ensures begun { (view : List (ℕ × ℕ)) → self.new.begun ≡ begun_more event (with_view reply view) self.old.begun }
        ensures named { (view : List (ℕ × ℕ)) → self.new.named ≡ one_more_if (is_named (with_view reply view)) self.old.named }
        ensures spent { (view : List (ℕ × ℕ)) → self.new.spent ≡ one_more_if (is_spent (with_view reply view)) self.old.spent }
    {
        match (event, reply) {
            (Event::Begin(_), Reply::Ok) => self.begun += 1,
            (_, Reply::Named(_, ())) => self.named += 1,
            (_, Reply::Spent) => self.spent += 1,
            _ => {}
        }
    }
}
