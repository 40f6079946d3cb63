//! Trials of the objects through their public calls, from a memory taken step by step to renaming, and of the pools and the grid over raw
//! words: what no line of the program reaches, as rows worked by hand, the ends of each range, threads at once, and heaps that have no
//! room left. What a clause says of each call is not tried once more.
//!
//! They stand in a crate of their own, as a package's integration tests do, so that proving them does not prove the objects
//! again. An integration test that is proved returns and breaks no caller's condition; that it passes is seen by running it.
#![tactic(auto)]

#[cfg(test)]
mod board_tests;
#[cfg(test)]
mod common;
#[cfg(test)]
mod full_heap_tests;
#[cfg(test)]
mod grid_tests;
#[cfg(test)]
mod heap_tests;
#[cfg(test)]
mod line_pool_tests;
#[cfg(test)]
mod memory_tests;
#[cfg(test)]
pub mod names;
#[cfg(test)]
mod places_tests;
#[cfg(test)]
mod pool_tests;
#[cfg(test)]
mod raw_splitter_tests;
#[cfg(test)]
mod renaming_tests;
#[cfg(test)]
mod snapshot_tests;
#[cfg(test)]
mod tree_tests;
#[cfg(test)]
mod word_grid_tests;
#[cfg(test)]
mod word_machine_tests;
#[cfg(test)]
mod word_pool_tests;
