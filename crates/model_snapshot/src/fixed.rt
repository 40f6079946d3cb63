//! Segments in a row.

ghost use Rattle.std.specs.Prelude.{◌≡◌, ◌<◌, ◌≤◌, OnOk, IfOk, IfErr, IfSome, Err, IsOk, replicate, None, length};
ghost use Rattle.model_steps.specs.declared.access.Access.{Access};
ghost use Rattle.model_steps.specs.declared.access.Access.TheVariants.{Read};
ghost use Rattle.model_steps.specs.Steps.{answer_from};
ghost use Rattle.model_snapshot.specs.Fixed.{fixed_steps, register_of, after_access, walker_steps, fixed_walks, fixed_place, fixed_walker, fixed_walk};
ghost use Rattle.model_snapshot.specs.FixedTies.{IsEmptyRow, fixed_ties};
ghost use Rattle.model_snapshot.specs.lemmas.FixedProofs.{others_kept, fixed_laws};

use crate::{PlaceWalker, Places, SegmentWalk};
use model_steps::{
    Access, Answer, NoMemory, Note, Place, Record, Refusal, Segment, StepMemory, StepProgram,
};
use std::alloc::Allocator;
use std::marker::Model;

/// Segments in a row, one for each of at most 16 participants.
///
/// The `j`-th participant that begins has the place `j - 1` at once, without an access.
#[derive(Drop)]
pub struct Fixed<A: Allocator> {
    segments: Vec<Segment, A>,
}

impl<A: Allocator> Model for Fixed<A> {
    ghost use Rattle.std.specs.Prelude.{List, Option};
    ghost use Rattle.model_steps.specs.declared.record.Record.{Record};

    ghost Value = { List (Option Record) };

    ghost view = { λ s. s.segments.items };
}

impl<A: Allocator> Fixed<A> {
    /// Makes a row of `most` segments, which are empty. No other call allocates.
    ///
    /// # Errors
    ///
    /// The first that applies is returned:
    ///
    /// - `OutOfRange`: `most` is not from 1 to 16.
    /// - `NoMemory`: an allocation failed.
    pub fn new(alloc: A, most: usize) -> Result<Self, Refusal>
        ensures empty { IfOk result (λ s. s ≡ replicate most None) }
        ensures fresh { IfOk result IsEmptyRow }
        ensures too_few { most < 1 → result ≡ Err Refusal.OutOfRange }
        ensures too_many { 16 < most → result ≡ Err Refusal.OutOfRange }
        ensures in_range { 1 ≤ most → most ≤ 16 → IfErr result (λ why. why ≡ Refusal.NoMemory) }
    {
        if most < 1 || 16 < most {
            return Err(Refusal::OutOfRange);
        }
        let segments = Vec::from_elem(alloc, None, most)?;
        Ok(Fixed { segments })
    }

    /// Returns the segment at a place, for observers. It is empty if the row has no such place.
    pub fn segment_at(&self, place: Place) -> Segment
        ensures { result ≡ (register_of self.now place).0 }
    {
        if place < self.segments.len() as u128 {
            self.segments[place as usize]
        } else {
            None
        }
    }
}

impl<A: Allocator> StepMemory for Fixed<A> {
    type Reg = Place;

    type Value = Segment;

    ghost steps = { fixed_steps };

    fn access(&mut self, a: Access<Place, Segment>) -> Result<Answer<Segment>, NoMemory>
        ensures answer { IfOk result (λ got. got ≡ answer_from (register_of self.old) a) }
        ensures after { OnOk result (self.new ≡ after_access self.old a) }
        ensures sure { IsOk result }
    {
        Ok(match a {
            Access::Read(place) => Answer::Value(self.segment_at(place)),
            Access::Write(place, segment) => {
                if place < self.segments.len() as u128 {
                    let at = place as usize;
                    self.segments[at] = segment;
                }
                Answer::Done
            }
            Access::TestAndSet(_) => Answer::WasSet(false),
            Access::Clear(_) => Answer::Done,
            Access::Nothing => Answer::Done,
        })
    }

    fn look(&self, register: &Place) -> Option<&Segment>
        ensures value { IfSome result (λ value. value.now ≡ (register_of self.now register.now).0) }
        ensures kept { IfSome result (λ value. after_access self.now (Read register.now) ≡ self.now) }
    {
        let place = *register;
        if place < self.segments.len() as u128 {
            Some(&self.segments[place as usize])
        } else {
            None
        }
    }

    ghost others = { others_kept };
}

/// A way to a place that has reached it already.
#[derive(Clone, Copy, Debug, Drop, PartialEq, Eq)]
pub struct FixedWalker {
    /// The place, from 0.
    pub place: Place,
}

impl StepProgram for FixedWalker {
    type Reg = Place;

    type Value = Segment;

    type Output = Place;

    ghost steps = { walker_steps };

    fn next(&self) -> Access<Place, Segment>
        ensures { result ≡ Access.Nothing }
    {
        Access::Nothing
    }

    fn resume(&mut self, _got: Answer<Segment>) -> Note<Place>
        ensures after { self.new ≡ self.old }
        ensures note { result ≡ Note.Quiet }
    {
        Note::Quiet
    }
}

impl PlaceWalker for FixedWalker {
    ghost place_of = { fixed_place };

    fn place(&self) -> Option<Place> {
        Some(self.place)
    }
}

/// A walk over segments in a row, by rising place. It reads each segment once.
#[derive(Clone, Copy, Debug, Drop, PartialEq, Eq)]
pub struct FixedWalk {
    /// The place whose segment the walk reads next, from 0.
    pub at: Place,
    /// The number of segments.
    pub most: Place,
}

impl SegmentWalk for FixedWalk {
    type Reg = Place;

    type Value = Segment;

    ghost walks = { fixed_walks };

    fn next(&self) -> Place {
        self.at
    }

    fn place(&self) -> Option<Place> {
        Some(self.at)
    }

    fn resume(&mut self, _got: &Segment) -> bool {
        if self.at < self.most {
            self.at += 1;
        }
        self.most <= self.at
    }

    fn segment(place: Place) -> Place {
        place
    }

    fn stored(segment: Segment) -> Segment {
        segment
    }

    fn content(value: &Segment) -> Option<&Record> {
        value.as_ref()
    }
}

impl<A: Allocator> Places for Fixed<A> {
    type Walker = FixedWalker;

    type Walk = FixedWalk;

    ghost most_of = { length };

    ghost walker_from = { fixed_walker };

    ghost walk_from = { fixed_walk };

    ghost ties = { fixed_ties };

    fn most(&self) -> usize {
        self.segments.len()
    }

    fn walker(&self, begun: usize, _identity: u64) -> FixedWalker {
        FixedWalker {
            place: begun as u128,
        }
    }

    fn walk(&self) -> FixedWalk {
        FixedWalk {
            at: 0,
            most: self.segments.len() as u128,
        }
    }

    ghost laws = { fixed_laws };
}
