//! What a session does under its own identity.

ghost use Rattle.std.specs.Prelude.{◌≡◌};
ghost use Rattle.service_lock.specs.Acts.{event_of};

use model_asked::Event;

/// An action of a session, under its own identity.
#[derive(Clone, Copy, Debug, Drop, PartialEq, Eq)]
pub enum Act {
    /// It takes its next step.
    Step,
    /// It begins to compete for the pool.
    Enter,
    /// It makes its next access to the bits of the pool.
    Probe,
    /// It gives its number back and stops competing.
    Leave,
    /// It puts a value into the slot of its number.
    Put(u64),
    /// It gets the value in the slot of its number.
    Get,
}

impl Act {
    /// Returns the event of this action for an identity.
    pub fn event(self, id: u64) -> Event
        ensures { result ≡ event_of self id }
    {
        match self {
            Act::Step => Event::Step(id),
            Act::Enter => Event::Enter(id),
            Act::Probe => Event::Probe(id),
            Act::Leave => Event::Leave(id),
            Act::Put(value) => Event::Put(id, value),
            Act::Get => Event::Get(id),
        }
    }
}
