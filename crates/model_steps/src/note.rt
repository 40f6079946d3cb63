//! What a program returns after a step.

ghost use Rattle.std.specs.Prelude.{◌≡◌, ◌↔◌, IsTrue};
ghost use Rattle.model_steps.specs.Calls.{outcome_in};
ghost use Rattle.model_steps.specs.declared.note.Note.TheVariants.{Quiet};
ghost use Rattle.model_steps.specs.Note.{ends};

/// What a program returns after a step.
#[derive(Clone, Copy, Debug, Drop, PartialEq, Eq)]
pub enum Note<O> {
    /// Nothing: the program goes on.
    Quiet,
    /// An output, after which the program goes on.
    Said(O),
    /// The last output: the program has ended.
    Ended(O),
}

impl<O> Note<O> {
    /// Whether the program has ended with this step.
    pub fn ends(&self) -> bool
        ensures { result ≡ ends self.now }
    {
        matches!(self, Note::Ended(_))
    }

    /// Whether the step has no output and the program goes on.
    pub fn is_quiet(&self) -> bool
        ensures { IsTrue result ↔ (self.now ≡ Quiet) }
    {
        matches!(self, Note::Quiet)
    }
}

impl<O: Drop> Note<O> {
    /// Returns the last output of the program, or `None` if the program goes on.
    pub fn outcome(self) -> Option<O>
        ensures { result ≡ outcome_in self }
    {
        match self {
            Note::Ended(outcome) => Some(outcome),
            Note::Quiet | Note::Said(_) => None,
        }
    }
}
