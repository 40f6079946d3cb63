//! Steps that copy no value.

ghost use Rattle.std.specs.Prelude.{◌≡◌, true, false, IfSome, OnErr, None};
ghost use Rattle.model_steps.specs.Note.{ends};
ghost use Rattle.model_steps.specs.Steps.{answer_got};
ghost use Rattle.model_steps.specs.Taken.{reported_in};
ghost use Rattle.model_steps.specs.declared.note.Note.{Note};

use crate::memory::StepMemory;
use crate::program::StepProgram;
use crate::refusal::NoMemory;

/// A way to take some steps of a program on a memory, both in place, so that no value is copied.
pub trait Shortcut<P: StepProgram, S: StepMemory<Reg = P::Reg, Value = P::Value>> {
    /// What it reports of a step.
    type Reported;

    /// The programs whose step it may take.
    ghost takes: { P → Type 0 };

    /// The note of the program for a step of which this is reported.
    ghost note: { Self.Reported → Note P.Output };

    /// Takes the program's step if the program goes on after it, and reports its note.
    ///
    /// Returns `None` if it does not take this step. Nothing has then changed.
    ///
    /// # Errors
    ///
    /// `NoMemory`: the access needed memory and the allocation failed. Nothing has changed, and the step is still to be
    /// taken.
    fn take(program: &mut P, memory: &mut S) -> Result<Option<Self::Reported>, NoMemory>
        ensures takes { IfSome (reported_in result) (λ _. takes program.old) }
        ensures after { IfSome (reported_in result) (λ _. program.new ≡ P.steps.resumed program.old (answer_got P.steps S.steps program.old memory.old)) }
        ensures note { IfSome (reported_in result) (λ reported. P.steps.note program.old (answer_got P.steps S.steps program.old memory.old) ≡ note reported) }
        ensures goes_on { IfSome (reported_in result) (λ reported. ends (note reported) ≡ false) }
        ensures memory { IfSome (reported_in result) (λ _. memory.new ≡ S.steps.after memory.old (P.steps.next program.old)) }
        ensures kept { reported_in result ≡ None → program.new ≡ program.old }
        ensures memory_kept { reported_in result ≡ None → memory.new ≡ memory.old }
        ensures no_memory { OnErr result (S.steps.may_refuse memory.old (P.steps.next program.old) ≡ true) };
}
