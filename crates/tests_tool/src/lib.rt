//! Trials of `text_player`, of what plays with it, of `text_checker` and of `tool_work` through their public calls: what lines mean and
//! how replies are spelled; runs over readers and writers that give little at a time and fail in turn; each growth refused in turn; a small world
//! of their own; drawn runs; records of runs, checked and migrated; what the words of a command line are read as, and which statuses and texts the
//! program ends with. What is said of records that differ in one place is tried on the built program, by `tests/records`.
//!
//! They stand in a crate of their own, as a package's integration tests do, so that proving them does not prove the player and the checker
//! again. An integration test that is proved returns and breaks no caller's condition; that it passes is seen by running it.
#![tactic(auto)]

#[cfg(test)]
mod growths;
#[cfg(test)]
mod lines_tests;
#[cfg(test)]
mod parse_tests;
#[cfg(test)]
mod plain_line_tests;
#[cfg(test)]
mod playing_tests;
#[cfg(test)]
mod print_tests;
#[cfg(test)]
mod record_tests;
#[cfg(test)]
mod recording_tests;
#[cfg(test)]
mod toys;
#[cfg(test)]
mod words_tests;
#[cfg(test)]
mod work_tests;
#[cfg(test)]
mod worlds_tests;
#[cfg(test)]
mod writes_tests;
