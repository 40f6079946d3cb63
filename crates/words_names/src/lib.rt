//! Names given to threads over atomic words, by reads and writes alone (the problem: Attiya et al. 1990).
//!
//! The participant is the program of `model_recursion` (Gafni and Rajsbaum 2010), which a [`words_machine::WordMachine`]
//! takes access by access. Its words hold the identities of the callers. So the law of that crate's machine holds of threads,
//! and nothing of it is proved anew.
//!
//! Of `m` seats, where `b` had begun when a seat got its name, itself among them:
//!
//! - The name is from 1 to `2b - 1`.
//! - The seat made at most `m(m + 1)` accesses, whatever the other seats did.
//! - Two seats that meet have two names (`meet`). A claim shows a name, and two claims of one name are of one seat.
//! - No more seats have begun than were dealt, which the dealer shows (`tally`).
//!
//! A seat has a number, which says only which words are its own. Which of two seats turns is chosen by their identities.
//!
//! Not proved: anything of seats that never meet, and that a thread makes its next access.
//!
//! From `tests_model/src/names/names_tests.rt`:
//!
//! ```text
//! let fresh = names.deal(dealer, identity).ok()?;
//! let mut renamed = names.rename(fresh);
//! names.tally(dealer, &mut renamed);
//! Some(names.name(&renamed))
//! ..
//! let (names, dealer) = Names::new(alloc, most)?;
//! ```
#![tactic(auto)]

pub mod names;
pub mod seats;

pub use names::Names;
pub use seats::{FreshNameSeat, NameClaim, NameDealer, Renamed, Renaming};
