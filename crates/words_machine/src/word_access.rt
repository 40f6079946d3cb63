//! What a program accesses next.

ghost use Rattle.words_machine.specs.NextAccess.{IsOf};

use model_steps::Access;

/// The next access of a program to the words: of which register, and, if a word is stored, which.
#[derive(Clone, Copy, Debug, Drop)]
pub enum WordAccess<R> {
    /// It loads the word of this register.
    Load(R),
    /// It stores this word into this register.
    Store(R, u64),
    /// It makes no access.
    Nothing,
}

impl<R: Copy> WordAccess<R> {
    /// Returns the access to a word that this access to a register is. What neither reads nor writes is none.
    #[inline(always)]
    pub(crate) fn of(access: Access<R, u64>) -> WordAccess<R>
        ensures { IsOf access result }
    {
        match access {
            Access::Read(r) => WordAccess::Load(r),
            Access::Write(r, word) => WordAccess::Store(r, word),
            Access::TestAndSet(_) => WordAccess::Nothing,
            Access::Clear(_) => WordAccess::Nothing,
            Access::Nothing => WordAccess::Nothing,
        }
    }
}
