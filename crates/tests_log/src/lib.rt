//! Integration tests of one log for several machines, of halls that follow it, and of turns whose answers are prefetched before, through public calls:
//! replicas and halls that a drawn schedule interleaves, stores that fail, etcd's answers cut at each byte; and that what goes to a persister
//! is just what is taken then, however bytes are cut, and whatever lines are.
#![tactic(auto)]

#[cfg(test)]
mod compaction_tests;
#[cfg(test)]
mod etcd_tests;
#[cfg(test)]
mod front_tests;
#[cfg(test)]
mod log_doubles;
#[cfg(test)]
mod persister_tests;
#[cfg(test)]
mod read_tests;
#[cfg(test)]
mod replica_tests;
#[cfg(test)]
mod stay_doubles;
#[cfg(test)]
mod stay_tests;
#[cfg(test)]
mod terms_tests;
#[cfg(test)]
mod turn_doubles;
#[cfg(test)]
mod turn_tests;
