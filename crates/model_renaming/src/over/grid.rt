//! A grid of doors, with a segment at each.

ghost use Rattle.std.specs.Prelude.{◌≡◌, ◌<◌, ◌≤◌, ◌+◌, ◌++◌, OnOk, IfOk, IfErr, IfSome, Err, IsOk, None, length, replicate, slice_index_or, slice_set, vec_capacity};
ghost use Rattle.model_steps.specs.declared.access.Access.TheVariants.{Read};
ghost use Rattle.model_steps.specs.Steps.{answer_from};
ghost use Rattle.model_renaming.specs.over.Grid.{fresh_grid, with_segments, register_of, after_access, grid_steps, grid_walker, most_in, grid_walk};
ghost use Rattle.model_renaming.specs.declared.over.grid_register.GridValue.TheVariants.{Contents};
ghost use Rattle.model_renaming.specs.over.GridTies.{IsEmptyGrid, grid_ties};
ghost use Rattle.model_renaming.specs.lemmas.over.GridProofs.{others_kept, grid_laws};

use crate::over::grid_register::{GridRegister, GridValue};
use crate::over::grid_walk::GridWalk;
use crate::over::grid_walker::GridWalker;
use model_snapshot::{PlaceWalker, Places, SegmentWalk};
use model_splitter::grid::{Door, Walker};
use model_steps::{
    Access, Answer, Memory, NoMemory, Note, Place, Refusal, Segment, StepMemory, StepProgram,
};
use std::alloc::Allocator;
use std::marker::Model;

/// The doors of a grid, with a segment at each. A segment is stored as the value of its register, so that it can be
/// lent.
///
/// There is room for all segments, and those up to the last that was written are made. Each behind them is `empty`.
#[derive(Drop)]
pub struct Grid<A: Allocator> {
    doors: Memory<u64, A>,
    segments: Vec<GridValue, A>,
    empty: GridValue,
    places: usize,
    most: usize,
}

impl<A: Allocator> Model for Grid<A> {
    ghost use Rattle.std.specs.Prelude.{map, vec_capacity};
    ghost use Rattle.model_renaming.specs.over.GridState.{GridState};

    ghost Value = { GridState };

    ghost use Rattle.model_renaming.specs.over.Grid.{contents_of, made_of, AreMade};

    ghost view = { λ g. record { doors = g.doors; segments = made_of g.places (map contents_of g.segments.items); most = g.most } };

    ghost invariant = { λ g. AreMade g.segments.items g.empty g.places (vec_capacity g.segments) };
}

/// Adds so many empty segments, for which there is room.
fn add_empty<A: Allocator>(segments: &mut Vec<GridValue, A>, count: usize)
    requires { length segments.old.items + count ≤ vec_capacity segments.old }
    ensures items { segments.new.items ≡ segments.old.items ++ replicate count (Contents None) }
    ensures capacity { vec_capacity segments.new ≡ vec_capacity segments.old }
{
    for _i in 0..count {
        segments.push_reserved(GridValue::Contents(None));
    }
}

impl<A: Allocator + Clone> Grid<A> {
    /// Makes a grid that no participant has entered, with empty segments, for `most` participants. No access allocates.
    ///
    /// # Errors
    ///
    /// - `OutOfRange`: `most` is not from 1 to 16.
    /// - `NoMemory`: an allocation failed.
    pub fn new(alloc: A, most: usize) -> Result<Self, Refusal>
        ensures empty { IfOk result (λ g. g ≡ fresh_grid most) }
        ensures fresh { IfOk result IsEmptyGrid }
        ensures too_few { most < 1 → result ≡ Err Refusal.OutOfRange }
        ensures too_many { 16 < most → result ≡ Err Refusal.OutOfRange }
        ensures in_range { 1 ≤ most → most ≤ 16 → IfErr result (λ why. why ≡ Refusal.NoMemory) }
    {
        if most < 1 || 16 < most {
            return Err(Refusal::OutOfRange);
        }
        Self::with_room(alloc, most)
    }

    /// A grid that no participant has entered; `NoMemory` if an allocation failed.
    fn with_room(alloc: A, most: usize) -> Result<Self, Refusal>
        requires few { most ≤ 16 }
        ensures empty { IfOk result (λ g. g ≡ fresh_grid most) }
        ensures no_memory { IfErr result (λ why. why ≡ Refusal.NoMemory) }
    {
        let registers = most * (most + 1);
        let doors = Memory::new(alloc.clone()?, 0, registers, 0)?;
        let places = registers / 2;
        let segments = Vec::with_capacity(alloc, places)?;
        Ok(Grid {
            doors,
            segments,
            empty: GridValue::Contents(None),
            places,
            most,
        })
    }
}

impl<A: Allocator> Grid<A> {
    /// Returns the segment at a place, which is empty if there is no such place. This is no access: it is for
    /// observers.
    pub fn segment_at(&self, place: Place) -> Segment
        ensures { result ≡ slice_index_or self.now.segments place None }
    {
        if place < self.segments.len() as u128 {
            self.segments[place as usize].contents()
        } else {
            None
        }
    }

    /// Returns the value of a register. This is no access: it is for observers.
    pub fn value(&self, register: GridRegister) -> GridValue
        ensures { result ≡ (register_of self.now register).0 }
    {
        match register {
            GridRegister::Door(number) => GridValue::Word(self.doors.value(number)),
            GridRegister::Segment(place) => GridValue::Contents(self.segment_at(place)),
        }
    }

    /// Writes the segment at a place, if there is such a place.
    fn put(&mut self, place: Place, segment: Segment)
        ensures { self.new ≡ with_segments self.old (slice_set self.old.segments place segment) }
    {
        if place < self.places as u128 {
            let at = place as usize;
            let lacking = (at + 1).saturating_sub(self.segments.len());
            add_empty(&mut self.segments, lacking);
            self.segments[at] = GridValue::Contents(segment);
        }
    }
}

impl<A: Allocator> StepMemory for Grid<A> {
    type Reg = GridRegister;

    type Value = GridValue;

    ghost steps = { grid_steps };

    fn access(&mut self, a: Access<GridRegister, GridValue>) -> Result<Answer<GridValue>, NoMemory>
        ensures answer { IfOk result (λ got. got ≡ answer_from (register_of self.old) a) }
        ensures after { OnOk result (self.new ≡ after_access self.old a) }
        ensures sure { IsOk result }
    {
        Ok(match a {
            Access::Read(register) => Answer::Value(self.value(register)),
            Access::Write(GridRegister::Door(r), GridValue::Word(word)) => {
                let _ = self.doors.access(Access::Write(r, word));
                Answer::Done
            }
            Access::Write(GridRegister::Segment(place), GridValue::Contents(segment)) => {
                self.put(place, segment);
                Answer::Done
            }
            Access::Write(GridRegister::Door(_), GridValue::Contents(_)) => Answer::Done,
            Access::Write(GridRegister::Segment(_), GridValue::Word(_)) => Answer::Done,
            Access::TestAndSet(_) => Answer::WasSet(false),
            Access::Clear(_) => Answer::Done,
            Access::Nothing => Answer::Done,
        })
    }

    fn look(&self, register: &GridRegister) -> Option<&GridValue>
        ensures value { IfSome result (λ value. value.now ≡ (register_of self.now register.now).0) }
        ensures kept { IfSome result (λ value. after_access self.now (Read register.now) ≡ self.now) }
    {
        let GridRegister::Segment(place) = *register else {
            return None;
        };
        if place < self.segments.len() as u128 {
            Some(&self.segments[place as usize])
        } else {
            Some(&self.empty)
        }
    }

    ghost others = { others_kept };
}

impl<A: Allocator> Places for Grid<A> {
    type Walker = GridWalker;

    type Walk = GridWalk;

    ghost most_of = { most_in };

    ghost walker_from = { grid_walker };

    ghost walk_from = { grid_walk };

    ghost ties = { grid_ties };

    fn most(&self) -> usize {
        self.most
    }

    fn walker(&self, _begun: usize, identity: u64) -> GridWalker {
        GridWalker {
            walker: Walker::new(identity, Door::corner()),
        }
    }

    fn walk(&self) -> GridWalk {
        GridWalk {
            at: 0,
            most: self.places,
        }
    }

    fn walk_on(&mut self, walker: &mut GridWalker) -> Result<Option<Note<Place>>, NoMemory> {
        match walker.walker.next() {
            Access::Read(r) => {
                let word = self.doors.value(r);
                Ok(Some(walker.walker.resume(Answer::Value(word))))
            }
            Access::Write(r, word) => {
                let _done = self.doors.access(Access::Write(r, word));
                Ok(Some(walker.walker.resume(Answer::Done)))
            }
            Access::TestAndSet(_) => Ok(None),
            Access::Clear(_) => Ok(None),
            Access::Nothing => Ok(None),
        }
    }

    ghost laws = { grid_laws };
}
