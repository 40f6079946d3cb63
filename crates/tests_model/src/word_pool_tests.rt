//! Stays in a pool of words, one after another and by threads at once.

use crate::common::{Reported, count_set, holds, same};
use model_steps::Refusal;
use std::alloc::{AllocError, Global};
use std::sync::atomic::AtomicU64;
use std::sync::atomic::Ordering::SeqCst;
use std::test::Fail;
use std::thread::{self, Threads};
use words_pool::{AllHeld, Held, WordPool};

/// For how many numbers a pool is asked, and whether it has as many, or why it is not made.
const SIZES: [(u64, Result<bool, Refusal>); 7] = [
    (0, Err(Refusal::OutOfRange)),
    (1, Ok(true)),
    (64, Ok(true)),
    (65, Ok(true)),
    (4096, Ok(true)),
    (4097, Err(Refusal::OutOfRange)),
    (u64::MAX, Err(Refusal::OutOfRange)),
];

/// The number that a call got.
fn number_in(got: Result<Held, AllHeld>) -> Option<u64> {
    match got {
        Ok(held) => Some(held.number()),
        Err(_) => None,
    }
}

/// How many calls of a pool, one after another, have numbers that rise from 1.
fn given_in_turn(pool: &WordPool<Global>) -> u64 {
    for before in 0..=pool.numbers() {
        if number_in(pool.acquire()) != Some(before.saturating_add(1)) {
            return before;
        }
    }
    u64::MAX
}

/// How many words a pool ends with, and how many of them are then set.
fn words_at_end(alloc: Global, pool: WordPool<Global>) -> Result<(usize, usize), AllocError> {
    let (words, _) = pool.close(alloc, Vec::new(alloc))?;
    Ok((words.len(), count_set(&words)))
}

/// Whether a pool for so many has as many numbers: as it says, as it gives them, and as its words are set then.
fn has_numbers(alloc: Global, numbers: u64) -> Reported {
    let pool = WordPool::new(alloc, numbers)?;
    let are_given = pool.numbers() == numbers && given_in_turn(&pool) == numbers;
    let ended = words_at_end(alloc, pool)?;
    Ok(are_given && ended == (numbers as usize, numbers as usize))
}

#[test]
fn each_number_is_given_in_turn(rt: HostRuntime) {
    for (i, (numbers, due)) in SIZES.iter().enumerate() {
        same(&rt, i, has_numbers(rt.alloc(), *numbers), *due);
    }
}

/// A pool of four goes on from each hint, and then from 1; a hint that is no number of it is none.
#[test]
fn a_walk_goes_on_from_a_hint(rt: HostRuntime) -> Result<(), Fail> {
    let pool = WordPool::new(rt.alloc(), 4)?;
    let reported = [
        number_in(pool.acquire_near(3)),
        number_in(pool.acquire_near(3)),
        number_in(pool.acquire_near(4)),
        number_in(pool.acquire_near(5)),
        number_in(pool.acquire_near(2)),
    ];
    holds(
        &rt,
        4,
        reported == [Some(3), Some(4), Some(1), Some(2), None],
    );
    Ok(())
}

/// How often a stay of many found its number in another's hands, or none at a walk from 1, which finds one wherever no more
/// threads stay than there are numbers. After a hint that was in vain a walk may miss what is given back behind it.
fn clashes(pool: &WordPool<Global>, marks: &[AtomicU64], near: bool) -> u64 {
    let mut clashes = 0u64;
    let mut hint = 0;
    for _ in 0..20_000 {
        let Ok(held) = pool.acquire_near(if near { hint } else { 1 }) else {
            clashes = clashes.saturating_add(u64::from(!near));
            continue;
        };
        hint = held.number();
        clashes = clashes.saturating_add(u64::from(is_clash(marks, hint)));
        pool.release(held);
    }
    clashes
}

/// Marks a number and takes the mark back: whether another had it marked.
pub fn is_clash(marks: &[AtomicU64], number: u64) -> bool {
    let Some(mark) = marks.get(number as usize) else {
        return true;
    };
    let was_marked = mark.swap(1, SeqCst) != 0;
    mark.store(0, SeqCst);
    was_marked
}

/// A mark for each number up to this one.
pub fn marks_of(alloc: Global, numbers: u64) -> Result<Vec<AtomicU64, Global>, AllocError> {
    let mut marks = Vec::new(alloc);
    for _ in 0..=numbers {
        marks.push(AtomicU64::new(0))?;
    }
    Ok(marks)
}

/// How often eight threads that stay at once in a pool find their numbers in another's hands.
fn clashes_of_eight<R: Threads + Sync>(
    rt: &R,
    alloc: Global,
    pool: &WordPool<Global>,
    near: bool,
) -> Result<usize, AllocError> {
    let marks = marks_of(alloc, pool.numbers())?;
    let seen = marks.as_slice();
    let found = thread::map_indices(rt, alloc, 8, &|_| clashes(pool, seen, near))?;
    Ok(count_set(&found))
}

/// How many numbers a pool has, and whether its threads walk or try the number first that they had last.
const STAYS: [(u64, bool); 6] = [
    (8, false),
    (8, true),
    (9, false),
    (9, true),
    (64, false),
    (64, true),
];

/// Whether eight threads have distinct numbers in a pool of so many, and give them back.
fn eight_stay<R: Threads + Sync>(rt: &R, alloc: Global, numbers: u64, near: bool) -> Reported {
    let pool = WordPool::new(alloc, numbers)?;
    let clashes = clashes_of_eight(rt, alloc, &pool, near)?;
    Ok(words_at_end(alloc, pool)? == (numbers as usize, 0) && clashes == 0)
}

#[test]
fn eight_threads_have_distinct_numbers_and_give_them_back(rt: HostRuntime) {
    for (i, (numbers, near)) in STAYS.iter().enumerate() {
        same(
            &rt,
            i,
            eight_stay(&rt, rt.alloc(), *numbers, *near),
            Ok(true),
        );
    }
}
