//! Trials of `service_lock`, `service_lock::server`, `service_journal` and `service_hall` through their public calls: halls, locks round them
//! with sessions, clerks and threads, names on a board, and connections that are served at once; journals that are torn at each byte, whose disk
//! fails at each call, of other runs, and compacted; a file as a disk; and drawn halls of every size, built anew.
//!
//! They stand in a crate of their own, as a package's integration tests do, so that proving them does not prove the hall and
//! the server again. An integration test that is proved returns and breaks no caller's condition; that it passes is seen by running it.
#![tactic(auto)]

#[cfg(test)]
mod board_tests;
#[cfg(test)]
mod compaction_tests;
#[cfg(test)]
mod disk_tests;
#[cfg(test)]
mod drawn;
#[cfg(test)]
mod drawn_tests;
#[cfg(test)]
mod journal_tests;
#[cfg(test)]
mod journals;
#[cfg(test)]
mod lock_tests;
#[cfg(test)]
mod names_tests;
#[cfg(test)]
mod opening;
#[cfg(test)]
mod sealed_tests;
#[cfg(test)]
mod server_tests;
#[cfg(test)]
mod serving_tests;
