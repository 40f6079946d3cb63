//! The state of the renaming object.

ghost use Rattle.std.specs.Prelude.{◌≡◌, ◌<◌, ◌≤◌, ◌^◌, ◌↔◌, OnOk, IfOk, IsTrue, None, Ok, [], MatchOption};
ghost use Rattle.std.specs.List.{list_any};
ghost use Rattle.model_steps.specs.Calls.Call.{Began};
ghost use Rattle.model_renaming.specs.RenameObject.{RenameTerms, RenameObject, no_begin, no_step, after, after_step, IsFreePlace, MayPropose, HasConflict, ShowsConflict, ShowsSole};
ghost use Rattle.std.specs.Option.{option_copied};
ghost use Rattle.model_renaming.specs.declared.reply.Reply.TheVariants as step;
ghost use Rattle.model_steps.specs.View.{IsAbove, IsRising};
ghost use Rattle.text_checker.specs.judges.Rows.{HasPair, LacksPair, TellsMoments, TellsSince};
ghost use Rattle.text_checker.specs.judges.Standing.{is_held, turns_in, HoldsNames, OfNames, HoldsNone, proposed_by};
ghost use Rattle.text_checker.specs.judges.Named.{MayBeNamed};

use crate::judges::moments::{Moments, NUMBERS, Row, is_crowded, with_number};
use crate::judges::people::People;
use crate::judges::standing::{Standing, Turn};
use model_steps::{Participant, Place, Refusal};
use std::alloc::{AllocError, Global};
use text_records::Pairs;

/// The state of the renaming object: the participants that have begun, what they have, and the moments.
#[derive(Drop)]
pub struct Names {
    participants: People<Standing>,
    moments: Moments,
    most: u64,
    limit: u64,
}

/// Whether this is the place that is held.
fn is_place(held: Option<Place>, place: Place) -> bool
    ensures { result ≡ is_held place held }
{
    held == Some(place)
}

/// Whether this is the number that is held.
pub fn is_number(held: Option<u64>, number: u64) -> bool
    ensures { result ≡ is_held number held }
{
    held == Some(number)
}

/// Whether a participant has this place.
fn is_given(participants: &[Participant<Standing>], place: Place) -> bool
    ensures { result ≡ list_any (λ v. is_held place v.program.place) participants.now }
{
    participants
        .iter()
        .any(|participant| is_place(participant.program.place, place))
}

/// Whether a participant has this name.
fn is_named(participants: &[Participant<Standing>], name: u64) -> bool
    ensures { result ≡ list_any (λ v. is_held name v.program.name) participants.now }
{
    participants
        .iter()
        .any(|participant| is_number(participant.program.name, name))
}

/// Whether the identity of each pair is above `id`, if the pairs rise.
fn is_above(id: u64, pairs: &[(u64, u64)]) -> bool
    ensures { IsTrue result ↔ IsAbove id pairs.now }
{
    match pairs {
        [] => true,
        [first, ..] => id < first.0,
    }
}

/// Whether the identities rise strictly.
fn is_rising(pairs: &[(u64, u64)]) -> bool
    ensures { IsTrue result ↔ IsRising pairs.now }
{
    for i in 0..pairs.len() {
        if !is_above(pairs[i].0, &pairs[i + 1..]) {
            return false;
        }
    }
    true
}

impl Names {
    /// Makes the state in which none has begun, with room for the moments of `lines` lines.
    ///
    /// # Errors
    ///
    /// `AllocError`: the allocation failed.
    pub fn new(alloc: Global, most: u64, limit: u64, lines: usize) -> Result<Names, AllocError>
        ensures { IfOk result (λ s. HoldsNone most limit s) }
    {
        let proposals = most.saturating_mul(limit);
        let room = (lines as u64).min(proposals) as usize;
        Ok(Names {
            moments: Moments::new(alloc, room)?,
            participants: People::new(alloc),
            most,
            limit,
        })
    }

    /// Returns the error that `begin` of an identity must return, or `None`.
    pub fn begin_refusal(&self, id: u64) -> Option<Refusal>
        ensures { OfNames self.now (λ terms o. result ≡ no_begin terms o id) }
    {
        self.participants
            .entry_refusal(id, self.most, Refusal::AlreadyBegun, Refusal::Full)
    }

    /// Returns the error that a step of an identity must return, failed allocations aside, or `None`.
    pub fn step_refusal(&self, id: u64) -> Option<Refusal>
        ensures { OfNames self.now (λ terms o. result ≡ no_step o id) }
    {
        let Some(standing) = self.participants.find(id) else {
            return Some(Refusal::NotBegun);
        };
        if standing.name.is_some() {
            Some(Refusal::Finished)
        } else if standing.spent {
            Some(Refusal::Spent)
        } else {
            None
        }
    }

    /// Records that an identity, which may begin, begins.
    ///
    /// # Errors
    ///
    /// `AllocError`: the allocation failed.
    pub fn begin(&mut self, id: u64) -> Result<(), AllocError>
        ensures { OnOk result (OfNames self.old (λ terms o. no_begin terms o id ≡ None → HoldsNames terms self.new (after o (Began id (Ok tt))))) }
    {
        let turn = Turn {
            seat: self.participants.count(),
            count: 0,
            since: 0,
            number: 0,
        };
        let program = Standing {
            place: None,
            name: None,
            spent: false,
            turn,
        };
        self.participants.push(id, program)
    }

    /// Gives a place to an identity that may step, and returns whether it may have it. If not, nothing changes.
    pub fn place(&mut self, id: u64, place: Place) -> bool
        ensures reported { OfNames self.old (λ terms o. no_step o id ≡ None → IsTrue result ↔ IsFreePlace o id place) }
        ensures after { OfNames self.old (λ terms o. no_step o id ≡ None → IsTrue result →
            HoldsNames terms self.new (after_step o id (step.Placed place))) }
    {
        let Some(standing) = self.participants.find(id) else {
            return false;
        };
        if standing.place.is_some() {
            return false;
        }
        if is_given(self.participants.list(), place) {
            return false;
        }
        let placed = Standing {
            place: Some(place),
            ..standing
        };
        self.participants.put(id, placed);
        true
    }

    /// Whether an identity has proposed and has proposals left.
    pub fn has_turns(&self, id: u64) -> bool
        ensures { OfNames self.now (λ terms o. IsTrue result ↔ (1 ≤ o.count id) × (o.count id < terms.limit)) }
    {
        match self.participants.find(id) {
            Some(standing) => 1 <= standing.turn.count && standing.turn.count < self.limit,
            None => false,
        }
    }

    /// Whether an identity that has begun has made its last proposal.
    pub fn is_last_turn(&self, id: u64) -> bool
        ensures { OfNames self.now (λ terms o. no_step o id ≡ None → IsTrue result ↔ (o.count id ≡ terms.limit)) }
    {
        match self.participants.find(id) {
            Some(standing) => standing.turn.count == self.limit,
            None => false,
        }
    }

    /// Whether an identity that may step may propose a number.
    pub fn may_propose(&self, id: u64, number: u64) -> bool
        ensures { OfNames self.now (λ terms o. no_step o id ≡ None → IsTrue result ↔ MayPropose terms o id number) }
    {
        let Some(standing) = self.participants.find(id) else {
            return false;
        };
        let many = self.participants.count();
        1 <= number && number < 2 * many as u64 && standing.turn.count < self.limit
    }

    /// Records that an identity proposes a number that it may propose.
    ///
    /// # Errors
    ///
    /// `AllocError`: the allocation failed. The state is then of no use.
    pub fn propose(&mut self, id: u64, number: u64) -> Result<(), AllocError>
        ensures { OnOk result (OfNames self.old (λ terms o. no_step o id ≡ None → o.last < 2 ^ 62 → MayPropose terms o id number →
            HoldsNames terms self.new (proposed_by id number o))) }
    {
        let Some(standing) = self.participants.find(id) else {
            return Ok(());
        };
        let turn = standing.turn;
        let number = number.min(255) as u8;
        self.moments.propose(turn.seat, number)?;
        let next = Turn {
            seat: turn.seat,
            count: turn.count.saturating_add(1),
            since: self.moments.last(),
            number,
        };
        let proposed = Standing {
            turn: next,
            ..standing
        };
        self.participants.put(id, proposed);
        Ok(())
    }

    /// Whether another identity proposes the same in some moment since the last proposal of an identity that has made
    /// one.
    pub fn has_conflict(&self, id: u64) -> bool
        ensures { OfNames self.now (λ terms o. 1 ≤ o.count id → IsTrue result ↔ HasConflict o id) }
    {
        match self.participants.find(id) {
            Some(standing) => self
                .moments
                .was_crowded(standing.turn.since, standing.turn.number),
            None => false,
        }
    }

    /// Records that an identity, which may step, is spent.
    pub fn spend(&mut self, id: u64)
        ensures { OfNames self.old (λ terms o. no_step o id ≡ None → HoldsNames terms self.new (after_step o id step.Spent)) }
    {
        let Some(standing) = self.participants.find(id) else {
            return;
        };
        let spent = Standing {
            spent: true,
            ..standing
        };
        self.participants.put(id, spent);
    }

    /// Gives a name to an identity that may step.
    pub fn name(&mut self, id: u64, name: u64)
        ensures { OfNames self.old (λ terms o. no_step o id ≡ None → HoldsNames terms self.new (after_step o id (step.Named name []))) }
    {
        let Some(standing) = self.participants.find(id) else {
            return;
        };
        let named = Standing {
            name: Some(name),
            ..standing
        };
        self.participants.put(id, named);
    }

    /// The seat of an identity that has begun, if the number is one that may be proposed.
    fn seat_for(&self, id: u64, number: u64) -> Option<usize>
        ensures { MatchOption result (LacksPair (turns_in self.now.participants) id number) (HasPair (turns_in self.now.participants) id number) }
    {
        let standing = self.participants.find(id)?;
        if number < 1 || NUMBERS as u64 <= number {
            return None;
        }
        Some(standing.turn.seat)
    }

    /// The row of a view whose identities rise.
    fn row_of(&self, view: &[(u64, u64)]) -> Option<Row>
        ensures { (terms : RenameTerms) (o : RenameObject) → (h : HoldsNames terms self.now o) → TellsMoments o h.turns.rows view.now result }
    {
        let mut row: Row = [0; 64];
        let mut i = view.len();
        while i > 0 {
            i -= 1;
            let (id, number) = view[i];
            let Some(seat) = self.seat_for(id, number) else {
                return None;
            };
            row = with_number(&row, seat, number.min(255) as u8);
        }
        Some(row)
    }

    /// The row of a view, if it is a moment from `since` on.
    fn row_since(&self, since: usize, view: &[(u64, u64)]) -> Option<Row>
        ensures { (terms : RenameTerms) (o : RenameObject) → (h : HoldsNames terms self.now o) → TellsSince o h.turns.rows since view.now result }
    {
        if !is_rising(view) {
            return None;
        }
        let row = self.row_of(view)?;
        if !self.moments.has_shown(since, &row) {
            return None;
        }
        Some(row)
    }

    /// Whether a view is a moment since the last proposal of an identity that has made one, and another proposes the
    /// same in it.
    pub fn shows_conflict(&self, id: u64, view: &[(u64, u64)]) -> bool
        ensures { OfNames self.now (λ terms o. 1 ≤ o.count id → IsTrue result ↔ ShowsConflict o id view.now) }
    {
        let Some(standing) = self.participants.find(id) else {
            return false;
        };
        let turn = standing.turn;
        match self.row_since(turn.since, view) {
            Some(row) => is_crowded(&row, turn.number),
            None => false,
        }
    }

    /// Whether a view is a moment since the last proposal of an identity that has made one, and it alone proposes this
    /// number in it.
    fn shows_sole(&self, id: u64, number: u64, view: &[(u64, u64)]) -> bool
        ensures { OfNames self.now (λ terms o. 1 ≤ o.count id → IsTrue result ↔ ShowsSole o id number view.now) }
    {
        let Some(standing) = self.participants.find(id) else {
            return false;
        };
        let turn = standing.turn;
        if u64::from(turn.number) != number {
            return false;
        }
        match self.row_since(turn.since, view) {
            Some(row) => !is_crowded(&row, turn.number),
            None => false,
        }
    }

    /// Whether an identity that may step may be given a name, by the view `shown` if there is one.
    pub fn may_name(&self, id: u64, name: u64, shown: Option<&Pairs>) -> bool
        ensures { OfNames self.now (λ terms o. no_step o id ≡ None → IsTrue result ↔ MayBeNamed o id name (option_copied shown.entry)) }
    {
        let Some(standing) = self.participants.find(id) else {
            return false;
        };
        let turn = standing.turn;
        let many = self.participants.count() as u64;
        if turn.count < 1 || u64::from(turn.number) != name || 2 * many <= name {
            return false;
        }
        if is_named(self.participants.list(), name) {
            return false;
        }
        match shown {
            Some(view) => self.shows_sole(id, name, view.as_slice()),
            None => self.moments.was_quiet(turn.since, turn.number),
        }
    }
}
