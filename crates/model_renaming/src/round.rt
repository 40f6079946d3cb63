//! Rounds of proposals.

ghost use Rattle.std.specs.Prelude.{◌≡◌};
ghost use Rattle.model_renaming.specs.Round.{name_at, has_name, number_of, standing_by, at_stage, written_round, followed, decided, stage_refusal, first_round, first_wish, is_placing};

use crate::proposal::{is_taken, next_proposal};
use crate::reply::Reply;
use model_snapshot::SnapReply;
use model_steps::{Refusal, View};

/// What a participant does in its round.
#[derive(Clone, Copy, Debug, Drop, PartialEq, Eq)]
pub enum RoundStage {
    /// It walks to its place.
    Placing,
    /// It proposes this number: its update is under way.
    Proposing(u64),
    /// It looks at what the others propose: its scan is under way.
    Looking,
    /// Its proposal is its name.
    Settled,
    /// It has used up its proposals.
    Over,
}

impl RoundStage {
    /// Returns the error of a step at this stage, or `None` if a step may be made.
    pub fn refusal(self) -> Option<Refusal>
        ensures { result ≡ stage_refusal self }
    {
        match self {
            RoundStage::Placing => None,
            RoundStage::Proposing(_) => None,
            RoundStage::Looking => None,
            RoundStage::Settled => Some(Refusal::Finished),
            RoundStage::Over => Some(Refusal::Spent),
        }
    }

    /// The number that it proposes, or 0.
    fn number(self) -> u64
        ensures { result ≡ number_of self }
    {
        match self {
            RoundStage::Placing => 0,
            RoundStage::Proposing(number) => number,
            RoundStage::Looking => 0,
            RoundStage::Settled => 0,
            RoundStage::Over => 0,
        }
    }
}

/// A participant's round: the number of its proposals, the last of them, and its stage.
#[derive(Clone, Copy, Debug, Drop, PartialEq, Eq)]
pub struct Round {
    /// The number of proposals that it has made.
    pub count: u64,
    /// Its last proposal, which is in the memory, or 0 if it has made none.
    pub proposal: u64,
    /// What it does now.
    pub stage: RoundStage,
}

/// What a round needs from the snapshot object next.
#[derive(Clone, Copy, Debug, Drop, PartialEq, Eq)]
pub enum Wish {
    /// Nothing: an operation is under way, or all is done.
    Nothing,
    /// An update to this number.
    Update(u64),
    /// A scan.
    Scan,
}

/// What follows a step of the snapshot object: the round, what it needs next, and the reply.
#[derive(Clone, Copy, Debug, Drop)]
pub struct Follow {
    /// The round after the step.
    pub round: Round,
    /// What it needs next.
    pub wish: Wish,
    /// What the step returns.
    pub reply: Reply<View>,
}

impl Wish {
    /// Returns what a participant that begins needs: an update to 1 if it has its place, and otherwise nothing.
    pub fn first(placed: bool) -> Self
        ensures { result ≡ first_wish placed }
    {
        if placed {
            Wish::Update(1)
        } else {
            Wish::Nothing
        }
    }
}

impl Round {
    /// Returns true if and only if the participant walks to its place.
    #[inline(always)]
    pub fn is_placing(&self) -> bool
        ensures { result ≡ is_placing self.now.stage }
    {
        match self.stage {
            RoundStage::Placing => true,
            RoundStage::Proposing(_) => false,
            RoundStage::Looking => false,
            RoundStage::Settled => false,
            RoundStage::Over => false,
        }
    }

    /// Returns the round of a participant that begins. It proposes 1 if it has its place, and otherwise walks to it.
    pub fn first(placed: bool) -> Self
        ensures { result ≡ first_round placed }
    {
        Round {
            count: 0,
            proposal: 0,
            stage: if placed {
                RoundStage::Proposing(1)
            } else {
                RoundStage::Placing
            },
        }
    }

    /// Returns the name that the round has ended with, or `None`.
    pub fn name(&self) -> Option<u64>
        ensures { result ≡ name_at self.now.stage self.now.proposal }
    {
        match self.stage {
            RoundStage::Placing => None,
            RoundStage::Proposing(_) => None,
            RoundStage::Looking => None,
            RoundStage::Settled => Some(self.proposal),
            RoundStage::Over => None,
        }
    }

    /// Whether the round has ended with this name.
    pub fn has_name(&self, number: u64) -> bool
        ensures { result ≡ has_name self.now.stage self.now.proposal number }
    {
        match self.stage {
            RoundStage::Placing => false,
            RoundStage::Proposing(_) => false,
            RoundStage::Looking => false,
            RoundStage::Settled => self.proposal == number,
            RoundStage::Over => false,
        }
    }

    /// Returns the proposal that is in the memory, or `None` if it has made none.
    pub fn standing(&self) -> Option<u64>
        ensures { result ≡ standing_by self.now }
    {
        if self.count == 0 {
            None
        } else {
            Some(self.proposal)
        }
    }

    /// This round at another stage.
    fn at(self, stage: RoundStage) -> Self
        ensures { result ≡ at_stage self stage }
    {
        Round {
            count: self.count,
            proposal: self.proposal,
            stage,
        }
    }

    /// This round once its next proposal is written. It counts no more proposals than the limit.
    fn written(self, limit: u64) -> Self
        ensures { result ≡ written_round self limit }
    {
        Round {
            count: if self.count < limit {
                self.count + 1
            } else {
                self.count
            },
            proposal: self.stage.number(),
            stage: RoundStage::Looking,
        }
    }

    /// What follows a view: a name if no other identity proposes the same number, else the next proposal or `Spent`.
    fn decided(self, id: u64, view: View, limit: u64) -> Follow
        ensures { result ≡ decided self id view limit }
    {
        if !is_taken(&view, id, self.proposal) {
            return Follow {
                round: self.at(RoundStage::Settled),
                wish: Wish::Nothing,
                reply: Reply::Named(self.proposal, view),
            };
        }
        if limit <= self.count {
            return Follow {
                round: self.at(RoundStage::Over),
                wish: Wish::Nothing,
                reply: Reply::Spent,
            };
        }
        let number = next_proposal(&view, id);
        Follow {
            round: self.at(RoundStage::Proposing(number)),
            wish: Wish::Update(number),
            reply: Reply::Saw(view),
        }
    }

    /// Returns what follows a reply of the snapshot object to a step of `id`, under the round limit `limit`.
    pub fn followed(self, id: u64, reply: SnapReply, limit: u64) -> Follow
        ensures { result ≡ followed self id reply limit }
    {
        match reply {
            SnapReply::Quiet => Follow {
                round: self,
                wish: Wish::Nothing,
                reply: Reply::Quiet,
            },
            SnapReply::Placed(place) => Follow {
                round: self.at(RoundStage::Proposing(1)),
                wish: Wish::Update(1),
                reply: Reply::Placed(place),
            },
            SnapReply::Written => Follow {
                round: self.written(limit),
                wish: Wish::Scan,
                reply: Reply::Proposed(self.stage.number()),
            },
            SnapReply::View(view) => self.decided(id, view, limit),
        }
    }
}
