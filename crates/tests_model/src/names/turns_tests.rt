//! Names that are given while one thread at a time makes an access, as a drawn schedule says, and beside a thread that has stopped for
//! good.

ghost use Rattle.std.specs.Prelude.{◌≡◌};

use crate::names::names_tests::{Caller, are_distinct, callers_of, identity_at, name_of, same};
use model_recursion::{Cell, Namer};
use model_steps::{Access, Answer, Note, Refusal, StepProgram};
use rand_core::SeedableRng;
use rand_core::utils::NextWord;
use rand_pcg::Lcg64Xsh32;
use std::alloc::{AllocError, Global};
use std::thread::{self, Threads};
use words_names::{Names, Renamed, Renaming};

/// The most accesses of a run.
const MOST_STEPS: u64 = 60_000;

/// The words of up to 15 seats, with room to spare.
const WORDS: usize = 16 * 32 * 32;

/// A seat that is being renamed, with its names.
#[derive(Drop)]
struct Runner<'a> {
    names: &'a Names<Global>,
    renaming: Renaming,
    ghost ours: { renaming.words ≡ names.now },
}

/// A participant of both: its runner until that has a name, and its program over simulated words.
#[derive(Drop)]
struct Lane<'a> {
    runner: Option<Runner<'a>>,
    program: Namer,
}

/// One access of a runner: its seat once that is renamed, or the runner that goes on.
fn moved<'a>(runner: Runner<'a>) -> Result<Renamed, Runner<'a>> {
    let Runner { names, renaming } = runner;
    match names.step(renaming) {
        Ok(renamed) => Ok(renamed),
        Err(renaming) => Err(Runner { names, renaming }),
    }
}

/// The index of a simulated word.
fn index_of(cell: Cell) -> usize {
    (usize::from(cell.level) * 32 + usize::from(cell.first)) * 32 + usize::from(cell.seat)
}

/// Makes the next access of a program to simulated words.
fn answered(words: &mut Vec<u64, Global>, program: &Namer) -> Answer<u64> {
    match program.next() {
        Access::Read(cell) => {
            let found = words.get(index_of(cell));
            Answer::Value(*found.unwrap_or(&0))
        }
        Access::Write(cell, word) => {
            if let Some(at) = words.get_mut(index_of(cell)) {
                *at = word;
            }
            Answer::Done
        }
        Access::TestAndSet(_) => Answer::Done,
        Access::Clear(_) => Answer::Done,
        Access::Nothing => Answer::Done,
    }
}

/// One step of the program over simulated words and one access of the thread, where it has no name yet; whether both say the same.
fn step_both(lane: &mut Lane<'_>, words: &mut Vec<u64, Global>) -> bool {
    let Some(runner) = lane.runner.take() else {
        return true;
    };
    let got = answered(words, &lane.program);
    let note = lane.program.resume(got);
    match moved(runner) {
        Ok(renamed) => note == Note::Ended(renamed.name() as u16),
        Err(runner) => {
            lane.runner = Some(runner);
            note == Note::Quiet
        }
    }
}

/// A participant of each of these seats, which are those of so many, in their order.
fn lanes_of<'a>(
    alloc: Global,
    callers: Vec<Caller<'a>, Global>,
    count: u8,
) -> Result<Vec<Lane<'a>, Global>, AllocError> {
    let mut lanes = Vec::new(alloc);
    let mut number: u8 = 0;
    for caller in callers {
        let Caller { names, seat } = caller;
        let identity = seat.identity();
        let renaming = names.begin(seat);
        lanes.push(Lane {
            runner: Some(Runner { names, renaming }),
            program: Namer::new(count, number.saturating_add(1), identity),
        })?;
        number = number.saturating_add(1);
    }
    Ok(lanes)
}

/// Whether so many participants, of which the next word of a generator lets one at a time go on, are named as by their programs
/// over simulated words, access by access.
fn go_as_the_programs(alloc: Global, seed: u64, count: u8) -> Result<bool, Refusal> {
    let (names, dealer) = Names::new(alloc, u64::from(count))?;
    let mut words = Vec::from_elem(alloc, 0u64, WORDS)?;
    let callers = callers_of(alloc, &names, dealer, u64::from(count))?;
    let mut lanes = lanes_of(alloc, callers, count)?;
    let mut drawn = Lcg64Xsh32::seed_from_u64(seed);
    for _ in 0..MOST_STEPS {
        let index = drawn.next_word() as usize % lanes.len().max(1);
        if let Some(lane) = lanes.get_mut(index) {
            if !step_both(lane, &mut words) {
                return Ok(false);
            }
        }
    }
    Ok(lanes.len() == usize::from(count) && lanes.iter().all(|lane| lane.runner.is_none()))
}

#[test]
fn threads_in_turn_are_named_as_by_the_programs(rt: HostRuntime) {
    for round in 0..60u64 {
        let count = 1 + (round % 15) as u8;
        same(
            &rt,
            round as usize,
            go_as_the_programs(rt.alloc(), round, count),
            Ok(true),
        );
    }
}

/// A runner after so many accesses; none where its seat is renamed by then.
fn parked<'a>(runner: Runner<'a>, accesses: u64) -> Option<Runner<'a>> {
    let mut runner = runner;
    for _ in 0..accesses {
        match moved(runner) {
            Ok(_) => return None,
            Err(next) => runner = next,
        }
    }
    Some(runner)
}

/// Whether each of the others has a name of its own below twice their number, where the first of so many seats has made some accesses
/// and then makes none.
fn are_named_beside<R: Threads + Sync>(
    rt: &R,
    alloc: Global,
    count: u64,
    accesses: u64,
) -> Result<bool, Refusal> {
    let (names, dealer) = Names::new(alloc, count)?;
    let mut dealer = dealer;
    let seat = names.deal(&mut dealer, identity_at(0))?;
    let renaming = names.begin(seat);
    let stopped = parked(
        Runner {
            names: &names,
            renaming,
        },
        accesses,
    );
    let callers = callers_of(alloc, &names, dealer, count.saturating_sub(1))?;
    let named = thread::map_vec(rt, callers, &|caller| name_of(caller))?;
    drop(stopped);
    Ok(are_distinct(&named, count))
}

#[test]
fn a_thread_that_stops_holds_up_nobody(rt: HostRuntime) {
    let mut words = Lcg64Xsh32::seed_from_u64(7);
    for round in 0..200u64 {
        let count = 2 + round % 7;
        let accesses = u64::from(words.next_word() % 80);
        same(
            &rt,
            round as usize,
            are_named_beside(&rt, rt.alloc(), count, accesses),
            Ok(true),
        );
    }
}
