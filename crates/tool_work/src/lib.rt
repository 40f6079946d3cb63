//! What the words of a command line ask `slotctl` for, done over any reader and writer.
//!
//! `ask` has clap match the words with the program's command line (`slotctl_command`), and answers what was matched as an `Ask`, whose parts are in
//! their ranges, or why the words ask for nothing (`Misuse`). What is proved (`IsRead`): an `Ask` is one that the options matched mean, by clap's
//! own definition of what words match; help comes where clap shows help, and words are refused where clap refuses them, or where a world or a
//! number is none that is allowed.
//!
//! `program` has the words read, does what they ask for, tells a failure and answers the status. `done` is the same up to what is reported: it
//! plays a run or records it, or calls `check_for`, `migrate_for`, `show_for` or `draw_for`. To race, to serve and to host is left to the
//! caller (`Outcome`), with nothing read and nothing written.
//!
//! What is proved of `done` (`IsRead`, `IsDone`): some `Ask` that the words mean is done, or they ask for nothing and nothing is read or
//! written. A run is played with the theorem of `play`, or recorded with that of `record` (`IsPlayedBy`); a record is read to its end,
//! and its verdict written, or the record in version 2, with status 0 for `yes` and else 1 (`IsChecked`, `IsRewritten`); drawn lines are
//! the generator's (`IsDrawnBy`); a record's page is written, or its verdict is a failure (`IsShownFor`). At each fault what was written
//! is a prefix of that. A failure has the status 0 for help, 1 for a verdict, 2 for words that are refused, and else 3 (`status_of`).
//!
//! `in_sight` does any work, and shows beside it that it goes on, in a thread of its own; `may_take_long` says which words ask for such
//! work. Texts for people are shown by tests.
//!
//! From `tests_tool/src/work_tests.rt`:
//!
//! ```text
//! status_of(&program(threads, alloc, words, reader, writer, errors))
//! ```
//!
//! From `tests_tool/src/words_tests.rt`, where words are read:
//!
//! ```text
//! match ask(alloc, words_of(alloc, line).as_slice()) {
//!     Ok(Ask::Play(p)) => Some((p.config.world, p.config.m, p.config.k, p.config.limit)),
//!     _ => None,
//! }
//! ```
#![tactic(auto)]

pub mod asked;
pub mod checking;
pub mod command_line;
pub mod drawing;
pub mod drawn;
pub mod failure;
pub mod migrating;
pub mod misuse;
pub mod outcome;
pub mod page;
pub mod program;
pub mod progress;
pub mod showing;
pub mod words;

pub use asked::{
    Admissions, Ask, Drawing, Endpoints, Holding, Hosting, Keeping, LogWords, Playing, Racing,
    Serving, Showing,
};
pub use checking::check_for;
pub use drawing::draw_for;
pub use failure::Failure;
pub use migrating::migrate_for;
pub use misuse::Misuse;
pub use outcome::Outcome;
pub use progress::{in_sight, may_take_long};
pub use showing::show_for;
pub use words::{ask, refused};
