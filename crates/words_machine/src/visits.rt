//! A visit to a splitter as a program over two words.

ghost use Rattle.std.specs.Prelude.{◌≡◌};
ghost use Rattle.model_splitter.specs.Machine.{visit_of};
ghost use Rattle.model_splitter.specs.Visitor.{visitor_steps};
ghost use Rattle.words_machine.specs.lemmas.Visits.{visit_law, visit_words_sound};

use crate::program::WordProgram;
use crate::word_access::WordAccess;
use model_splitter::{Visitor, Way};
use model_steps::{Answer, Note, StepProgram};

impl WordProgram for Visitor<usize> {
    type Reg = usize;

    type Output = Way;

    ghost steps = { visitor_steps };

    ghost law = { visit_law };

    fn registers(_most: u64) -> usize
        ensures { result ≡ 2 }
    {
        2
    }

    fn place(_most: u64, register: usize) -> usize
        ensures { result ≡ register }
    {
        register
    }

    fn access(&self) -> WordAccess<usize> {
        WordAccess::of(self.next())
    }

    fn take_word(&mut self, word: u64) -> Note<Way> {
        self.resume(Answer::Value(word))
    }

    fn take_done(&mut self) -> Note<Way> {
        self.resume(Answer::Done)
    }

    fn start(_most: u64, seat: u64, _identity: u64) -> Self
        ensures { result ≡ visit_of seat }
    {
        Visitor::new(seat, 0, 1)
    }

    ghost sound = { visit_words_sound };
}
