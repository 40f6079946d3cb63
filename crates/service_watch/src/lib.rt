//! What a server shows those who watch it: a page of metrics in the text form of Prometheus, version 0.0.4, over HTTP/1.1.
//!
//! `put_page` writes the page of `Numbers`, `asked_by` says what a request asks for, and `put_answer` writes what is answered. `Scrapers` are those
//! who ask, at most 32 at once: none of their calls waits, each asks once, and each is closed after its answer or three seconds.
//!
//! Promised is the text of the page (`put_page`), which has each number under its name, and the text of each answer (`put_answer`). What a request
//! asks for, the page of several pools (`put_pages`), and what sockets carry, is only tested.
//!
//! From `service_loop/src/watching.rt`:
//!
//! ```text
//! Numbers {
//!     clients: loops.clients,
//!     accepted: loops.accepted,
//!     ..
//!     tally: *tally,
//!     log_age: age_of(tally.log_place, loops.ticks, placed),
//! }
//! ```
#![tactic(auto)]

pub mod answer;
pub mod durations;
pub mod listeners;
pub mod numbers;
pub mod page;
pub mod pool_pages;
pub mod request;
pub mod scraper;
pub mod scrapers;

pub use answer::{put_answer, put_answer_of};
pub use numbers::{Numbers, REFUSALS, Releases, Tally};
pub use page::put_page;
pub use pool_pages::{PoolPage, put_pages};
pub use request::{Asked, MOST_REQUEST, asked_by};
pub use scraper::Scraper;
pub use scrapers::{MOST_SCRAPERS, Scrapers};

#[cfg(test)]
mod tests;
