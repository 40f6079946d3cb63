//! Participants that take steps on one memory.

ghost use Rattle.std.specs.Prelude.{◌≡◌, ◌≢◌, [], true, false, option_copied, IfOk, IfSome, OnErr, Err, Ok, None, is_some};
ghost use Rattle.model_steps.specs.Participant.{participant_of, program_of};
ghost use Rattle.model_steps.specs.World.{begin_refusal, done_unless, after_begin, step_answer, after_step, may_refuse_step, set_answer, after_set, CanAsk, after_asked};
ghost use Rattle.model_steps.specs.WorldState.{WorldState};
ghost use Rattle.model_steps.specs.Locality.{ChangesOnly, IsAnsweredAlike, ReadsNext, IsTaken};
ghost use Rattle.model_steps.specs.Taken.{reported_in};

use crate::hints::Hints;
use crate::memory::StepMemory;
use crate::note::Note;
use crate::participant::Participant;
use crate::program::{Replace, Request, StepProgram};
use crate::refusal::{NoMemory, Refusal};
use crate::shortcut::Shortcut;
use std::alloc::Allocator;
use std::marker::Model;

/// A memory, and the participants that take steps on it, each in its own program.
#[derive(Drop)]
pub struct World<P, S, A: Allocator> {
    memory: S,
    most: usize,
    participants: Vec<Participant<P>, A>,
    hints: Hints,
}

impl<P, S, A: Allocator> Model for World<P, S, A> {
    ghost use Rattle.std.specs.Prelude.{◌≤◌, vec_capacity};
    ghost use Rattle.model_steps.specs.Participant.{AreDistinct};
    ghost use Rattle.model_steps.specs.WorldState.{WorldState};

    ghost Value = { WorldState S P };

    ghost view = { λ w. record { memory = w.memory; most = w.most; participants = w.participants.items } };

    ghost invariant = { λ w. (w.most ≤ vec_capacity w.participants) × AreDistinct w.participants.items };
}

impl<P, S, A: Allocator> World<P, S, A> {
    /// Whether an identity has begun.
    fn has_begun(&self, id: u64) -> bool
        ensures { result ≡ is_some (participant_of id self.now.participants) }
    {
        self.hints.find(&self.participants, id).is_some()
    }

    /// Returns the error that `begin` would return, or `None` if it would succeed.
    pub fn begin_refusal(&self, id: u64) -> Option<Refusal>
        ensures { result ≡ begin_refusal self.now id }
    {
        if id == 0 {
            Some(Refusal::ZeroIdentity)
        } else if self.has_begun(id) {
            Some(Refusal::AlreadyBegun)
        } else if self.most <= self.participants.len() {
            Some(Refusal::Full)
        } else {
            None
        }
    }

    /// Returns the program of a participant, or `None` if the identity has not begun.
    pub fn program(&self, id: u64) -> Option<&P>
        ensures { option_copied result ≡ program_of id self.now.participants }
    {
        let Some(i) = self.hints.find(&self.participants, id) else {
            return None;
        };
        Some(&self.participants[i].program)
    }

    /// Returns the most participants of this world.
    pub fn most(&self) -> usize
        ensures { result ≡ self.now.most }
    {
        self.most
    }

    /// Returns the memory, for observers of the world.
    pub fn memory(&self) -> &S
        ensures { result.now ≡ self.now.memory }
    {
        &self.memory
    }

    /// Returns the participants, in the order in which they began.
    pub fn participants(&self) -> &[Participant<P>]
        ensures { result.now ≡ self.now.participants }
    {
        &self.participants
    }

    /// Makes a request of a participant's program, in place and with no access. The participant has then not ended.
    ///
    /// # Errors
    ///
    /// `NotBegun`: `id` has not begun. Nothing has changed.
    pub fn ask<Q: Request<P> + Drop>(&mut self, id: u64, request: Q) -> Result<(), Refusal>
        requires { CanAsk Q.can_ask request id self.old }
        ensures answer { result ≡ set_answer self.old id }
        ensures after { self.new ≡ after_asked (Q.asked request) self.old id }
        ensures unchanged_on_error { OnErr result (self.new ≡ self.old) }
    {
        let Some(i) = self.hints.find(&self.participants, id) else {
            return Err(Refusal::NotBegun);
        };
        self.participants[i].ask(request);
        Ok(())
    }
}

impl<P: Drop, S, A: Allocator> World<P, S, A> {
    /// Adds participant `id`, at the start of its program. This makes no access.
    ///
    /// # Errors
    ///
    /// An error changes nothing. The first that applies is returned:
    ///
    /// - `ZeroIdentity`: `id` is 0.
    /// - `AlreadyBegun`: `id` has begun.
    /// - `Full`: as many participants as the world takes have begun.
    pub fn begin(&mut self, id: u64, program: P) -> Result<(), Refusal>
        ensures answer { result ≡ done_unless (begin_refusal self.old id) }
        ensures after { self.new ≡ after_begin self.old id program }
        ensures unchanged_on_error { OnErr result (self.new ≡ self.old) }
    {
        if let Some(refusal) = self.begin_refusal(id) {
            return Err(refusal);
        }
        self.hints.note(id, self.participants.len());
        self.participants.push_reserved(Participant {
            identity: id,
            program,
            ended: false,
        });
        Ok(())
    }

    /// Replaces the program of a participant, with no access. The participant has then not ended.
    ///
    /// # Errors
    ///
    /// `NotBegun`: `id` has not begun. Nothing has changed.
    pub fn set(&mut self, id: u64, program: P) -> Result<(), Refusal>
        ensures answer { result ≡ set_answer self.old id }
        ensures after { self.new ≡ after_set self.old id program }
        ensures unchanged_on_error { OnErr result (self.new ≡ self.old) }
    {
        self.ask(id, Replace { program })
    }
}

impl<
    P: StepProgram + Drop,
    S: StepMemory<Reg = P::Reg, Value = P::Value> + Drop,
    A: Allocator,
> World<P, S, A> {
    /// Makes a world with no participant, and allocates room for `most`.
    ///
    /// # Errors
    ///
    /// `NoMemory`: the allocation failed.
    pub fn new(alloc: A, memory: S, most: usize) -> Result<Self, NoMemory>
        ensures { IfOk result (λ w. w ≡ record { memory = memory; most = most; participants = [] }) }
    {
        match Vec::with_capacity(alloc, most) {
            Ok(participants) => Ok(World {
                memory,
                most,
                participants,
                hints: Hints::new(),
            }),
            Err(_) => Err(NoMemory),
        }
    }

    /// Makes one step of participant `id`: the one access that its program names. The program takes the answer.
    ///
    /// # Errors
    ///
    /// An error changes nothing. The first that applies is returned:
    ///
    /// - `NotBegun`: `id` has not begun.
    /// - `Finished`: the program of `id` has ended.
    /// - `NoMemory`: the access needed memory and the allocation failed. The caller may repeat the step.
    pub fn step(&mut self, id: u64) -> Result<Note<P::Output>, Refusal>
        ensures answer { result ≢ Err Refusal.NoMemory → result ≡ step_answer P.steps S.steps self.old id }
        ensures after { result ≢ Err Refusal.NoMemory → self.new ≡ after_step P.steps S.steps self.old id }
        ensures unchanged_on_error { OnErr result (self.new ≡ self.old) }
        ensures no_memory { result ≡ Err Refusal.NoMemory → may_refuse_step P.steps S.steps self.old id ≡ true }

        // Nothing of the world changes except this participant and the register that its program names.
        ensures local { ChangesOnly P.steps S.steps id self.old self.new }

        // In another world that this participant cannot distinguish, the reply is the same. So is its new program: that is
        // a law (`law_of_locality`).
        ensures alike { result ≢ Err Refusal.NoMemory → IsAnsweredAlike P.steps S.steps id self.old result }
    {
        let Some(i) = self.hints.find(&self.participants, id) else {
            return Err(Refusal::NotBegun);
        };
        let participant = &self.participants[i];
        if participant.ended {
            return Err(Refusal::Finished);
        }
        let Ok(got) = self.memory.access(participant.program.next()) else {
            return Err(Refusal::NoMemory);
        };
        Ok(self.participants[i].resume(got))
    }

    /// Makes one step of participant `id` without a copy, if it is a read after which the program goes on with no
    /// output.
    ///
    /// Returns whether it did. If not, nothing has changed, and `step` makes the step or returns its error.
    pub fn read_on(&mut self, id: u64) -> bool
        ensures answer { result ≡ true → step_answer P.steps S.steps self.old id ≡ Ok Note.Quiet }
        ensures reads { result ≡ true → ReadsNext P.steps self.old id }
        ensures local { result ≡ true → ChangesOnly P.steps S.steps id self.old self.new }
        ensures after { result ≡ true → self.new ≡ after_step P.steps S.steps self.old id }
        ensures kept { result ≡ false → self.new ≡ self.old }
    {
        let Some(i) = self.hints.find(&self.participants, id) else {
            return false;
        };
        let reader = &self.participants[i];
        if reader.ended {
            return false;
        }
        let Some(register) = reader.program.reads() else {
            return false;
        };
        let Some(value) = self.memory.look(&register) else {
            return false;
        };
        self.participants[i].read_on(value)
    }

    /// Makes one step of participant `id` by the shortcut `Q`, and returns what the shortcut reports. Nothing is
    /// copied.
    ///
    /// Returns `None` if the shortcut does not take this step. Nothing has then changed, and `step` makes it or returns
    /// its error.
    ///
    /// # Errors
    ///
    /// `NoMemory`: the access needed memory and the allocation failed. Nothing has changed, and the caller may repeat
    /// the step.
    pub fn take<Q: Shortcut<P, S>>(&mut self, id: u64) -> Result<Option<Q::Reported>, NoMemory>
        ensures answer { IfSome (reported_in result) (λ reported. step_answer P.steps S.steps self.old id ≡ Ok (Q.note reported)) }
        ensures takes { IfSome (reported_in result) (λ _. IsTaken Q.takes self.old id) }
        ensures local { IfSome (reported_in result) (λ _. ChangesOnly P.steps S.steps id self.old self.new) }
        ensures after { IfSome (reported_in result) (λ _. self.new ≡ after_step P.steps S.steps self.old id) }
        ensures kept { reported_in result ≡ None → self.new ≡ self.old }
        ensures no_memory { OnErr result (may_refuse_step P.steps S.steps self.old id ≡ true) }
    {
        let Some(i) = self.hints.find(&self.participants, id) else {
            return Ok(None);
        };
        let walker = &self.participants[i];
        if walker.ended {
            return Ok(None);
        }
        self.participants[i].take::<Q, S>(&mut self.memory)
    }
}
