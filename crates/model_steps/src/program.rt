//! Programs that take one access a step.

ghost use Rattle.std.specs.Prelude.{◌≡◌, IfSome, true, false};
ghost use Rattle.model_steps.specs.Steps.{ProgramSteps};
ghost use Rattle.model_steps.specs.declared.access.Access.TheVariants.{Read};
ghost use Rattle.model_steps.specs.declared.access.Answer.TheVariants.{Value};
ghost use Rattle.model_steps.specs.declared.note.Note.TheVariants.{Quiet};

use crate::access::{Access, Answer};
use crate::note::Note;

/// A participant's program, with its state.
///
/// The next access is a function of the program alone. What follows is a function of the program and of the answer
/// alone.
pub trait StepProgram {
    /// What names a register.
    type Reg: Copy;

    /// What a register holds.
    type Value;

    /// What the program returns to its caller.
    type Output;

    /// The next access of a program, and its state after each answer.
    ghost steps: { ProgramSteps Self Self.Reg Self.Value Self.Output };

    /// Returns the access of the next step.
    fn next(&self) -> Access<Self::Reg, Self::Value>
        ensures { result ≡ steps.next self.now };

    /// Takes the answer to that access, and returns the note of the step.
    fn resume(&mut self, got: Answer<Self::Value>) -> Note<Self::Output>
        ensures after { self.new ≡ steps.resumed self.old got }
        ensures note { result ≡ steps.note self.old got };

    /// Returns the register that the next access reads, if the program can take a value that is lent (`read_on`).
    fn reads(&self) -> Option<Self::Reg>
        ensures { IfSome result (λ register. steps.next self.now ≡ Read register) }
    {
        None
    }

    /// Takes the value that the access reads, without a copy, if the program then goes on with no output.
    ///
    /// Returns whether it did. If not, nothing has changed, and `resume` takes the answer.
    fn read_on(&mut self, _got: &Self::Value) -> bool
        ensures after { result ≡ true → self.new ≡ steps.resumed self.old (Value _got.now) }
        ensures quiet { result ≡ true → steps.note self.old (Value _got.now) ≡ Quiet }
        ensures kept { result ≡ false → self.new ≡ self.old }
    {
        false
    }
}

/// A request to a program between two steps, which makes no access.
pub trait Request<P> {
    /// The programs that it may be made of.
    ghost can_ask: { Self → P → Type 0 };

    /// The program after the request.
    ghost asked: { Self → P → P };

    /// Makes the request of a program, in place.
    fn ask(self, program: &mut P)
        requires { can_ask self program.old }
        ensures { program.new ≡ asked self program.old };
}

/// The request to replace a program by `program`.
#[derive(Drop)]
pub struct Replace<P> {
    /// The program that takes the place of the other.
    pub program: P,
}

impl<P: Drop> Request<P> for Replace<P> {
    ghost can_ask = { λ request program. Unit {0} };

    ghost asked = { λ request program. request.program };

    fn ask(self, program: &mut P)
        ensures { program.new ≡ self.program }
    {
        *program = self.program;
    }
}
