//! The counts of a run.

ghost use Rattle.std.specs.Prelude.{◌≡◌, ℕ, ◌+◌, ◌<◌, ◌^◌, List};
ghost use Rattle.model_asked.specs.Replies.{with_view};
ghost use Rattle.text_player.specs.Summary.{one_if_accepted, one_if_refused, one_if_bad};

use model_asked::{Bad, Reply};

/// The counts of a run. `quit` counts as accepted.
#[derive(Clone, Copy, Debug, Drop, PartialEq, Eq)]
pub struct Summary {
    /// The lines that were answered: `accepted + refused + bad`.
    pub lines: u64,
    /// The lines whose reply was no refusal.
    pub accepted: u64,
    /// The lines whose reply was a refusal.
    pub refused: u64,
    /// The lines that were bad.
    pub bad: u64,
    ghost all: { lines ≡ accepted + refused + bad },
}

impl Summary {
    /// Returns the counts before the first line, which are 0.
    pub fn new() -> Summary
        ensures { (result.lines ≡ 0) × (result.accepted ≡ 0) × (result.refused ≡ 0) × (result.bad ≡ 0) }
    {
        Summary {
            lines: 0,
            accepted: 0,
            refused: 0,
            bad: 0,
        }
    }

    /// Counts one more reply, as refused if it is a refusal, and otherwise as accepted. At most 2^64 - 1 lines can be
    /// counted.
    #[inline(always)]
    pub fn count_reply(&mut self, reply: Reply<()>)
        requires { self.old.lines + 1 < 2 ^ 64 }
        ensures lines { self.new.lines ≡ self.old.lines + 1 }
        ensures accepted { (view : List (ℕ × ℕ)) → self.new.accepted ≡ self.old.accepted + one_if_accepted (Ok (with_view reply view)) }
        ensures refused { (view : List (ℕ × ℕ)) → self.new.refused ≡ self.old.refused + one_if_refused (Ok (with_view reply view)) }
        ensures bad { self.new.bad ≡ self.old.bad }
    {
        let Summary {
            lines,
            accepted,
            refused,
            bad,
        } = *self;
        let more = u64::from(reply.is_refusal());
        *self = Summary {
            lines: lines + 1,
            accepted: accepted + (1 - more),
            refused: refused + more,
            bad,
        };
    }

    /// Counts one more bad line. At most 2^64 - 1 lines can be counted.
    pub fn count_bad(&mut self, why: Bad)
        requires { self.old.lines + 1 < 2 ^ 64 }
        ensures lines { self.new.lines ≡ self.old.lines + 1 }
        ensures accepted { self.new.accepted ≡ self.old.accepted + one_if_accepted (Err why) }
        ensures refused { self.new.refused ≡ self.old.refused + one_if_refused (Err why) }
        ensures bad { self.new.bad ≡ self.old.bad + one_if_bad (Err why) }
    {
        let Summary {
            lines,
            accepted,
            refused,
            bad,
        } = *self;
        *self = Summary {
            lines: lines + 1,
            accepted,
            refused,
            bad: bad + 1,
        };
    }
}
