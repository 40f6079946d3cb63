//! Recursive renaming as a program over words.

ghost use Rattle.std.specs.Prelude.{◌≡◌, ◌≤◌, ◌*◌};
ghost use Rattle.model_recursion.specs.Program.{namer_of, namer_steps};
ghost use Rattle.model_recursion.specs.Ranges.{IsInstance};
ghost use Rattle.words_machine.specs.Names.{names_law, IsCell, place_of, slot_of};
ghost use Rattle.words_machine.specs.lemmas.NamesSound.{names_sound};

use crate::program::WordProgram;
use crate::word_access::WordAccess;
use model_recursion::{Cell, Namer};
use model_steps::{Answer, Note, StepProgram};

/// Returns the number of an instance among those of its level.
#[inline(always)]
fn slot(most: u64, level: u8, first: u16) -> u64
    requires few { most ≤ 64 }
    requires there { IsInstance most level first }
    ensures { result ≡ slot_of most first }
{
    if first % 2 == 1 {
        u64::from(first) - 1
    } else {
        2 * most - 1 - u64::from(first)
    }
}

impl WordProgram for Namer {
    type Reg = Cell;

    type Output = u16;

    ghost steps = { namer_steps };

    ghost law = { names_law };

    fn registers(most: u64) -> usize
        requires { names_law.MayStart most }
        ensures { result ≡ most * most * most }
    {
        (most * most * most) as usize
    }

    #[inline(always)]
    fn place(most: u64, register: Cell) -> usize
        requires may { names_law.MayStart most }
        requires there { IsCell most register }
        ensures { result ≡ place_of most register }
    {
        let above = most - u64::from(register.level);
        let slot = slot(most, register.level, register.first);
        ((above * above + slot) * most + (u64::from(register.seat) - 1)) as usize
    }

    #[inline(always)]
    fn access(&self) -> WordAccess<Cell> {
        WordAccess::of(self.next())
    }

    #[inline(always)]
    fn take_word(&mut self, word: u64) -> Note<u16> {
        self.resume(Answer::Value(word))
    }

    #[inline(always)]
    fn take_done(&mut self) -> Note<u16> {
        self.resume(Answer::Done)
    }

    fn start(most: u64, seat: u64, identity: u64) -> Self
        requires may { names_law.MayStart most }
        requires some { 1 ≤ seat }
        requires there { seat ≤ most }
        requires begins { names_law.MayBegin seat identity }
        ensures { result ≡ namer_of most seat identity }
    {
        Namer::new(most as u8, seat as u8, identity)
    }

    ghost sound = { names_sound };
}
