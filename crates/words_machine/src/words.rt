//! The words. They are reached through this type alone, of which each access of a program is counted in the view of its seat.

ghost use Rattle.std.specs.Prelude.{◌≡◌, ◌<◌, ◌≤◌, ◌+◌, ◌++◌, ◌∷◌, [], List, IfOk, IfSome, IfNone, IsSome};
ghost use Rattle.model_steps.specs.declared.access.Access.TheVariants.{Read, Write};
ghost use Rattle.words_machine.specs.SeatViews.{own, lone_view, undealt_from, unbegun, view_of, endings_of};
ghost use Rattle.words_machine.specs.RunSteps.{Stands, HasStepped, HasEnded, IsUnderRule, accesses_in};
ghost use Rattle.words_machine.specs.declared.seat_view.Stand.{Stand};
ghost use Rattle.words_machine.specs.declared.seat_view.Ending.{Ending};

use crate::program::WordProgram;
use crate::run_steps::{
    DealRun, Forget, GetWord, Learn, LookAtRun, PutWord, Running, Tell, UniteRuns,
};
use crate::seat_view::SeatView;
use crate::word_access::WordAccess;
use atomic_table::{Seat, Table};
use model_steps::Note;
use std::alloc::{AllocError, Allocator};
use std::marker::Model;

/// Words that programs share.
#[derive(Drop)]
pub struct Words<P: WordProgram, A: Allocator> {
    most: u64,
    // It has no slots, so what a slot holds says nothing.
    table: Table<u8, SeatView<P, P::Output>, u64, Running<P>, A>,
}

impl<P: WordProgram, A: Allocator> Model for Words<P, A> {
    ghost use Rattle.std.specs.Prelude.{◌≡◌, ◌≤◌};
    ghost use Rattle.words_machine.specs.Ids.{WordsId, words_of};

    ghost Value = { WordsId };

    ghost view = { λ d. words_of d.table.shared.table_id d.most };

    ghost invariant = { λ d. (1 ≤ d.most) × P.law.MayStart d.most × (d.table.shared.key ≡ d.most)
        × (d.table.shared.table_id.words ≡ P.law.registers d.most) };
}

impl<P: WordProgram, A: Allocator + Clone> Words<P, A> {
    /// Makes the words for so many seats, where no one has begun, and the seat that all others are dealt from.
    pub(crate) fn open(
        alloc: A,
        most: u64,
    ) -> Result<(Words<P, A>, Seat<u8, SeatView<P, P::Output>>), AllocError>
        requires some { 1 ≤ most }
        requires may { P.law.MayStart most }
        ensures words { IfOk result (λ r. r.0.most ≡ most) }
        ensures rest { IfOk result (λ r. (r.1.table_id ≡ r.0.table) × (r.1.me ≡ (undealt_from 0 most, []))) }
    {
        let words = Vec::from_elem(alloc.clone()?, 0u64, P::registers(most))?;
        let (table, rest) = Table::of_words(alloc, words.as_slice(), &most)?;
        Ok((Words { most, table }, rest))
    }
}

impl<P: WordProgram, A: Allocator> Words<P, A> {
    /// Returns how many seats there are.
    pub(crate) fn most(&self) -> u64
        ensures count { result ≡ self.now.most }
        ensures some { 1 ≤ result }
        ensures may { P.law.MayStart result }
    {
        self.most
    }

    /// Deals the seat of the least number that is not yet dealt out.
    pub(crate) fn deal(
        &self,
        rest: &mut Seat<u8, SeatView<P, P::Output>>,
        number: u64,
    ) -> Seat<u8, SeatView<P, P::Output>>
        requires ours { rest.old.table_id ≡ self.now.table }
        requires undealt { rest.old.me ≡ (undealt_from number self.now.most, []) }
        requires range { number < self.now.most }
        ensures ours { (rest.new.table_id ≡ self.now.table) × (result.table_id ≡ self.now.table) }
        ensures undealt { rest.new.me ≡ (undealt_from (number + 1) self.now.most, []) }
        ensures seat { result.me ≡ (lone_view self.now.most (unbegun number), []) }
    {
        self.table.shared.split_seat::<DealRun>(rest)
    }

    /// A seat whose participant has ended and another become one, look, and part again: what the rule says of all their
    /// participants.
    pub(crate) fn look_together(
        &self,
        left: Seat<u8, SeatView<P, P::Output>>,
        right: Seat<u8, SeatView<P, P::Output>>,
    ) -> (
        Seat<u8, SeatView<P, P::Output>>,
        Seat<u8, SeatView<P, P::Output>>,
    )
        requires ours { (left.table_id ≡ self.now.table) × (right.table_id ≡ self.now.table) }
        requires left { (s : Stand P P.Output) × (left.me ≡ (lone_view self.now.most s, [])) × IsSome s.outcome }
        requires right { (ss : List (Stand P P.Output)) × (right.me ≡ (view_of self.now.most ss [], [])) }
        ensures ours { (result.0.table_id ≡ self.now.table) × (result.1.table_id ≡ self.now.table) }
        ensures left { result.0.me ≡ left.me }
        ensures right { result.1.me ≡ right.me }
        ensures met { IsUnderRule P.law (view_of self.now.most (left.me.0.stands ++ right.me.0.stands) []) }
    {
        let mut both = right;
        self.table.shared.join_seat::<UniteRuns>(&mut both, left);
        self.table.shared.load::<LookAtRun<P>>(&mut both, 0);
        let left = self.table.shared.split_seat::<DealRun>(&mut both);
        (left, both)
    }

    /// Makes a seat that can tell of the end of this seat's participant.
    pub(crate) fn tell(
        &self,
        seat: &mut Seat<u8, SeatView<P, P::Output>>,
    ) -> Seat<u8, SeatView<P, P::Output>>
        requires ours { seat.old.table_id ≡ self.now.table }
        requires lone { (s : Stand P P.Output) × (seat.old.me ≡ (lone_view self.now.most s, [])) }
        ensures ours { (seat.new.table_id ≡ self.now.table) × (result.table_id ≡ self.now.table) }
        ensures same { seat.new.me ≡ seat.old.me }
        ensures reported { result.me ≡ (view_of self.now.most [] (endings_of seat.old.me.0.stands), []) }
    {
        self.table.shared.split_seat::<Tell>(seat)
    }

    /// Two seats that tell of an end each become one, look, and part again: what the rule says of both ends.
    pub(crate) fn compare(
        &self,
        left: Seat<u8, SeatView<P, P::Output>>,
        right: Seat<u8, SeatView<P, P::Output>>,
    ) -> (
        Seat<u8, SeatView<P, P::Output>>,
        Seat<u8, SeatView<P, P::Output>>,
    )
        requires ours { (left.table_id ≡ self.now.table) × (right.table_id ≡ self.now.table) }
        requires left { (t : Ending P.Output) × (left.me ≡ (view_of self.now.most [] (t ∷ []), [])) }
        requires right { (t : Ending P.Output) × (right.me ≡ (view_of self.now.most [] (t ∷ []), [])) }
        ensures ours { (result.0.table_id ≡ self.now.table) × (result.1.table_id ≡ self.now.table) }
        ensures left { result.0.me ≡ left.me }
        ensures right { result.1.me ≡ right.me }
        ensures met { IsUnderRule P.law (view_of self.now.most [] (left.me.0.endings ++ right.me.0.endings)) }
    {
        let mut both = right;
        self.table.shared.join_seat::<Learn>(&mut both, left);
        self.table.shared.load::<LookAtRun<P>>(&mut both, 0);
        let left = self.table.shared.split_seat::<Forget>(&mut both);
        (left, both)
    }

    /// Loads a register, and gives the program the word. There are `most` seats.
    #[inline(always)]
    fn step_load(
        &self,
        most: u64,
        seat: &mut Seat<u8, SeatView<P, P::Output>>,
        number: u64,
        identity: u64,
        program: &mut P,
        register: P::Reg,
    ) -> Note<P::Output>
        requires most { most ≡ self.now.most }
        requires ours { seat.old.table_id ≡ self.now.table }
        requires before { Stands P.steps P.law self.now.most number identity program.old seat.old.me }
        requires reads { P.steps.next program.old ≡ Read register }
        ensures ours { seat.new.table_id ≡ self.now.table }
        ensures after { HasStepped P.law self.now.most number identity program.new result seat.old.me seat.new.me }
    {
        // Opens the words, so that the range of `most` is known.
        let _most = self.most;
        let at = P::place(most, register);
        let word = self.table.shared.load::<GetWord<P>>(seat, at);
        program.take_word(word)
    }

    /// Stores a word into a register, and tells the program.
    #[inline(always)]
    fn step_store(
        &self,
        seat: &mut Seat<u8, SeatView<P, P::Output>>,
        number: u64,
        identity: u64,
        program: &mut P,
        register: P::Reg,
        word: u64,
    ) -> Note<P::Output>
        requires ours { seat.old.table_id ≡ self.now.table }
        requires before { Stands P.steps P.law self.now.most number identity program.old seat.old.me }
        requires writes { P.steps.next program.old ≡ Write register word }
        ensures ours { seat.new.table_id ≡ self.now.table }
        ensures after { HasStepped P.law self.now.most number identity program.new result seat.old.me seat.new.me }
    {
        let at = P::place(self.most, register);
        self.table.shared.store::<PutWord<P>>(seat, at, word);
        program.take_done()
    }

    /// Makes one access of a program, and gives the program the answer.
    #[inline(always)]
    pub(crate) fn step(
        &self,
        seat: &mut Seat<u8, SeatView<P, P::Output>>,
        number: u64,
        identity: u64,
        program: &mut P,
    ) -> Note<P::Output>
        requires ours { seat.old.table_id ≡ self.now.table }
        requires before { Stands P.steps P.law self.now.most number identity program.old seat.old.me }
        ensures ours { seat.new.table_id ≡ self.now.table }
        ensures after { HasStepped P.law self.now.most number identity program.new result seat.old.me seat.new.me }
    {
        match program.access() {
            WordAccess::Load(r) => self.step_load(self.most, seat, number, identity, program, r),
            WordAccess::Store(r, word) => {
                self.step_store(seat, number, identity, program, r, word)
            }
            WordAccess::Nothing => Note::Quiet,
        }
    }
}

impl<P: WordProgram + Drop, A: Allocator> Words<P, A>
where
    P::Output: Drop,
{
    /// Makes the loads that a program makes next, one after another, until it ends or stores: with what it has ended, if it has, and
    /// how many accesses it has made by then, of which `made` came before.
    #[inline(always)]
    fn run_loads(
        &self,
        seat: &mut Seat<u8, SeatView<P, P::Output>>,
        number: u64,
        identity: u64,
        program: &mut P,
        made: u64,
    ) -> (Option<P::Output>, u64)
        requires ours { seat.old.table_id ≡ self.now.table }
        requires before { Stands P.steps P.law self.now.most number identity program.old seat.old.me }
        requires made { made ≡ accesses_in seat.old.me }
        requires few { made ≤ P.law.bound self.now.most }
        ensures ours { seat.new.table_id ≡ self.now.table }
        ensures ended { IfSome result.0 (λ outcome. HasEnded P.law self.now.most number identity program.new outcome seat.new.me) }
        ensures goes_on { IfNone result.0 (Stands P.steps P.law self.now.most number identity program.new seat.new.me) }
        ensures counted { result.1 ≡ accesses_in seat.new.me }
        ensures more { made ≤ result.1 }
        ensures few { result.1 ≤ P.law.bound self.now.most }
    {
        // Read once: a compiler keeps no memory over a load that orders others.
        let most = self.most;
        let mut accesses = made;
        while let WordAccess::Load(register) = program.access() {
            let note = self.step_load(most, seat, number, identity, program, register);
            accesses += 1;
            let ended = note.outcome();
            if ended.is_some() {
                return (ended, accesses);
            }
        }
        (None, accesses)
    }

    /// Makes the accesses of a program that has not begun, one after another, until it ends: with what, and how many they were.
    #[inline(always)]
    pub(crate) fn run(
        &self,
        seat: &mut Seat<u8, SeatView<P, P::Output>>,
        number: u64,
        identity: u64,
        program: &mut P,
    ) -> (P::Output, u64)
        requires ours { seat.old.table_id ≡ self.now.table }
        requires fresh { seat.old.me ≡ (lone_view self.now.most (unbegun number), []) }
        requires range { number < self.now.most }
        requires begins { P.law.MayBegin (own number) identity }
        requires program { program.old ≡ P.law.start self.now.most (own number) identity }
        ensures ours { seat.new.table_id ≡ self.now.table }
        ensures ended { HasEnded P.law self.now.most number identity program.new result.0 seat.new.me }
        ensures counted { result.1 ≡ accesses_in seat.new.me }
    {
        // Opens the words, so that the machine's bound is known to be small.
        let _most = self.most;
        let mut accesses = 0;
        loop {
            let note = self.step(seat, number, identity, program);
            accesses += 1;
            if let Some(outcome) = note.outcome() {
                return (outcome, accesses);
            }
            let (ended, made) = self.run_loads(seat, number, identity, program, accesses);
            accesses = made;
            if let Some(outcome) = ended {
                return (outcome, accesses);
            }
        }
    }
}
