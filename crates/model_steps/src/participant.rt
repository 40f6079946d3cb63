//! One participant of a world.

ghost use Rattle.std.specs.Prelude.{◌≡◌, true, false, IfSome, OnErr, None};
ghost use Rattle.model_steps.specs.Participant.{resumed, beginner};
ghost use Rattle.model_steps.specs.Steps.{answer_got};
ghost use Rattle.model_steps.specs.Taken.{reported_in};
ghost use Rattle.model_steps.specs.declared.access.Answer.TheVariants.{Value};
ghost use Rattle.model_steps.specs.declared.note.Note.TheVariants.{Quiet};

use crate::access::Answer;
use crate::memory::StepMemory;
use crate::note::Note;
use crate::program::{Request, StepProgram};
use crate::refusal::NoMemory;
use crate::shortcut::Shortcut;

/// A participant of a world: an identity and its program.
#[derive(Debug, Drop)]
pub struct Participant<P> {
    /// Its identity; not 0.
    pub identity: u64,
    /// Its program, with the program's state.
    pub program: P,
    /// Whether its program has ended.
    pub ended: bool,
}

impl<P: StepProgram> Participant<P> {
    /// Gives its program the answer to the access, and returns the program's note.
    pub fn resume(&mut self, got: Answer<P::Value>) -> Note<P::Output>
        ensures after { self.new ≡ resumed P.steps self.old got }
        ensures note { result ≡ P.steps.note self.old.program got }
    {
        let note = self.program.resume(got);
        self.ended = note.ends();
        note
    }

    /// Gives its program the value that its access reads, without a copy, if the program then goes on with no output.
    ///
    /// Returns whether it did. If not, nothing has changed.
    pub fn read_on(&mut self, got: &P::Value) -> bool
        ensures after { result ≡ true → self.new ≡ resumed P.steps self.old (Value got.now) }
        ensures quiet { result ≡ true → P.steps.note self.old.program (Value got.now) ≡ Quiet }
        ensures kept { result ≡ false → self.new ≡ self.old }
    {
        if !self.program.read_on(got) {
            return false;
        }
        self.ended = false;
        true
    }

    /// Takes the step of its program by the shortcut `Q`, and returns what the shortcut reports.
    ///
    /// Returns `None` if the shortcut does not take this step. Nothing has then changed.
    ///
    /// # Errors
    ///
    /// `NoMemory`: the access needed memory and the allocation failed. Nothing has changed.
    pub fn take<Q: Shortcut<P, S>, S: StepMemory<Reg = P::Reg, Value = P::Value>>(
        &mut self,
        memory: &mut S,
    ) -> Result<Option<Q::Reported>, NoMemory>
        ensures takes { IfSome (reported_in result) (λ _. Q.takes self.old.program) }
        ensures after { IfSome (reported_in result) (λ _. self.new ≡ resumed P.steps self.old (answer_got P.steps S.steps self.old.program memory.old)) }
        ensures note { IfSome (reported_in result) (λ reported. P.steps.note self.old.program (answer_got P.steps S.steps self.old.program memory.old) ≡ Q.note reported) }
        ensures memory { IfSome (reported_in result) (λ _. memory.new ≡ S.steps.after memory.old (P.steps.next self.old.program)) }
        ensures kept { reported_in result ≡ None → self.new ≡ self.old }
        ensures memory_kept { reported_in result ≡ None → memory.new ≡ memory.old }
        ensures no_memory { OnErr result (S.steps.may_refuse memory.old (P.steps.next self.old.program) ≡ true) }
    {
        let Some(reported) = Q::take(&mut self.program, memory)? else {
            return Ok(None);
        };
        self.ended = false;
        Ok(Some(reported))
    }
}

impl<P> Participant<P> {
    /// Makes a request of its program, with no access. The participant has then not ended.
    pub fn ask<Q: Request<P>>(&mut self, request: Q)
        requires { Q.can_ask request self.old.program }
        ensures { self.new ≡ beginner self.old.identity (Q.asked request self.old.program) }
    {
        request.ask(&mut self.program);
        self.ended = false;
    }
}
