//! Registers that are reached by one access a step, programs that take such steps, and worlds of them.
//!
//! A *program* names its next access as a function of its state, and takes the answer. A *world* is a memory with the
//! participants on it. A step of a participant is one access to at most one register, and changes no other participant.
//! The caller chooses the schedule, which is the order of the calls. A participant that crashes is one that no later
//! call names.
//!
//! From `tests_model/src/memory_tests.rt`:
//!
//! ```text
//! let memory = Memory::new(alloc, 3, 2, 2)?;
//! Ok(World::new(alloc, memory, 2)?)
//! ..
//! let asked = [world.begin(10, write), world.begin(20, read)];
//! let reported = [world.step(10), world.step(20)];
//! ..
//! asked == [Ok(()), Ok(())]
//!     && reported
//!         == [
//!             Ok(Note::Ended(Answer::Done)),
//!             Ok(Note::Ended(Answer::Value(7))),
//!         ]
//! ```
#![tactic(auto)]

pub mod access;
pub mod hints;
pub mod laws;
pub mod local_worlds;
pub mod memory;
pub mod note;
pub mod participant;
pub mod place;
pub mod program;
pub mod record;
pub mod refusal;
pub mod shortcut;
pub mod view;
pub mod world;

pub use access::{Access, Answer};
pub use hints::Hints;
pub use laws::{
    law_of_beginners, law_of_call_counts, law_of_counts, law_of_locality, law_of_one_place,
    law_of_participants, law_of_refusals, law_of_replies, law_of_reported_outcomes, law_of_rosters,
    law_of_steps, law_of_views, law_of_what_is_seen, law_of_worlds,
};
pub use local_worlds::law_of_local_worlds;
pub use memory::{Memory, StepMemory};
pub use note::Note;
pub use participant::Participant;
pub use place::Place;
pub use program::{Replace, Request, StepProgram};
pub use record::{Record, Segment};
pub use refusal::{NoMemory, Refusal};
pub use shortcut::Shortcut;
pub use view::View;
pub use world::World;
