//! Programs whose registers are words.

ghost use Rattle.std.specs.Prelude.{◌≡◌, ◌≤◌, ℕ};
ghost use Rattle.model_steps.specs.Steps.{ProgramSteps};
ghost use Rattle.model_steps.specs.declared.access.Answer.TheVariants.{Value, Done};
ghost use Rattle.words_machine.specs.NextAccess.{IsNext};
ghost use Rattle.words_machine.specs.WordLaw.{WordLaw, IsSound};

use crate::word_access::WordAccess;
use model_steps::Note;

/// A program each of whose registers is a word, with the machine on which it is proved.
///
/// Each step of the machine is one access of one participant's program. So a law that holds after every list of its calls
/// holds of threads that take the program access by access.
pub trait WordProgram {
    /// What names a register.
    type Reg: Copy;

    /// What the program ends with.
    type Output;

    /// The next access of a program, and its state after each answer.
    ghost steps: { ProgramSteps Self Self.Reg ℕ Self.Output };

    /// Its machine, and which words its registers are.
    ghost law: { WordLaw Self Self.Reg Self.Output };

    /// Returns how many registers there are for so many participants.
    fn registers(most: u64) -> usize
        requires { law.MayStart most }
        ensures { result ≡ law.registers most };

    /// Returns the word of a register.
    fn place(most: u64, register: Self::Reg) -> usize
        requires may { law.MayStart most }
        requires there { law.IsRegister most register }
        ensures { result ≡ law.place most register };

    /// Returns the access that it makes next.
    fn access(&self) -> WordAccess<Self::Reg>
        ensures { IsNext steps self.now result };

    /// Takes the word that it loaded.
    fn take_word(&mut self, word: u64) -> Note<Self::Output>
        ensures after { self.new ≡ steps.resumed self.old (Value word) }
        ensures note { result ≡ steps.note self.old (Value word) };

    /// Takes that its word is stored.
    fn take_done(&mut self) -> Note<Self::Output>
        ensures after { self.new ≡ steps.resumed self.old Done }
        ensures note { result ≡ steps.note self.old Done };

    /// Returns the program of a seat, from 1 on, that begins with an identity.
    fn start(most: u64, seat: u64, identity: u64) -> Self
        requires may { law.MayStart most }
        requires some { 1 ≤ seat }
        requires there { seat ≤ most }
        requires begins { law.MayBegin seat identity }
        ensures { result ≡ law.start most seat identity };

    /// What is proved of the machine.
    ghost sound: { IsSound steps law };
}
