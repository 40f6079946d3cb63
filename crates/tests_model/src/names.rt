//! Trials of names over words through their public calls: names that are given one after another, and to threads at once.
//!
//! They stand in a crate of their own, so that proving them does not prove the other objects again.
#[cfg(test)]
mod names_tests;
#[cfg(test)]
mod turns_tests;
