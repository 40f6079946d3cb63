//! The splitter of Moir and Anderson (1995).
//!
//! A splitter has two registers: X, which holds an identity, and Y, a bit. A visitor makes at most four accesses and
//! then stops, goes right or goes down. Of all visitors that have entered, at most one stops, not all go right, and not
//! all go down. So a visitor that enters alone stops, and a crowd is split. Reads and writes suffice: no test-and-set,
//! and no visitor waits for another.
//!
//! A visit is a program (`Visitor`) that other structures run on registers of theirs. From
//! `model_splitter/src/grid/walker.rt`:
//!
//! ```text
//! match self.visitor.resume(got) {
//!     Note::Ended(Way::Stop) => Note::Ended(Place::from(self.door.number())),
//!     Note::Ended(Way::Right) => {
//!         *self = Walker::new(self.visitor.identity, self.door.right());
//!         Note::Quiet
//!     }
//! ```
//!
//! `SplitterWorld` is a world of visitors. From `text_worlds/src/splitter_world.rt`:
//!
//! ```text
//! Event::Begin(id) => Reply::of_done(self.begin(id)),
//! Event::Step(id) => visit_reply(self.step(id)),
//! ..
//! SplitterWorld::new(alloc, config.m as usize)
//! ```
#![tactic(auto)]

pub mod grid;
pub mod laws;
pub mod stage;
pub mod tree;
pub mod visitor;
pub mod way;
pub mod world;

pub use laws::{
    law_of_one_access, law_of_one_door, law_of_splitter_calls, law_of_walks, law_of_ways,
};
pub use stage::VisitStage;
pub use visitor::Visitor;
pub use way::Way;
pub use world::SplitterWorld;
