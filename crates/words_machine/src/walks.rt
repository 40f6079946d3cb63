//! A walk through a grid of splitters as a program over words, two for each door.

ghost use Rattle.std.specs.Prelude.{◌≡◌, ◌+◌, ◌*◌};
ghost use Rattle.model_splitter.specs.grid.Walk.{walk_of, walker_steps};
ghost use Rattle.words_machine.specs.lemmas.Walks.{walk_law, walk_words_sound};

use crate::program::WordProgram;
use crate::word_access::WordAccess;
use model_splitter::grid::{Door, Walker};
use model_steps::{Answer, Note, Place, StepProgram};

impl WordProgram for Walker {
    type Reg = usize;

    type Output = Place;

    ghost steps = { walker_steps };

    ghost law = { walk_law };

    fn registers(most: u64) -> usize
        requires { walk_law.MayStart most }
        ensures { result ≡ most * (most + 1) }
    {
        (most * (most + 1)) as usize
    }

    fn place(_most: u64, register: usize) -> usize
        ensures { result ≡ register }
    {
        register
    }

    fn access(&self) -> WordAccess<usize> {
        WordAccess::of(self.next())
    }

    fn take_word(&mut self, word: u64) -> Note<Place> {
        self.resume(Answer::Value(word))
    }

    fn take_done(&mut self) -> Note<Place> {
        self.resume(Answer::Done)
    }

    fn start(_most: u64, seat: u64, _identity: u64) -> Self
        ensures { result ≡ walk_of seat }
    {
        Walker::new(seat, Door::corner())
    }

    ghost sound = { walk_words_sound };
}
