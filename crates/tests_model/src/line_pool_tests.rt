//! Stays in a line by threads at once.

ghost use Rattle.std.specs.Prelude.{◌≡◌};

use crate::common::{Reported, count_set, same};
use crate::word_pool_tests::{is_clash, marks_of};
use std::alloc::Global;
use std::sync::atomic::AtomicU64;
use std::thread::{Threads, join};
use words_pool::{LinePool, Ticket, Tickets};

/// How often in many stays, one after another, one of two threads found its number in another's hands, or above 2.
fn stay_often(line: &LinePool<Global>, mut ticket: Ticket, marks: &[AtomicU64]) -> u64
    requires { ticket.pool ≡ line.now.table }
{
    let mut clashes = 0u64;
    for _ in 0..20_000 {
        let held = line.acquire(ticket);
        let number = held.number();
        if 2 < number || is_clash(marks, number) {
            clashes = clashes.saturating_add(1);
        }
        ticket = line.release(held);
    }
    clashes
}

/// How often two threads that stay at once in a line clash.
fn stay_at_once<R: Threads + Sync>(
    rt: &R,
    line: &LinePool<Global>,
    one: Ticket,
    other: Ticket,
    marks: &[AtomicU64],
) -> (u64, u64)
    requires one { one.pool ≡ line.now.table }
    requires other { other.pool ≡ line.now.table }
{
    join(
        rt,
        move || -> u64
            requires { one.pool ≡ line.now.table }
        { stay_often(line, one, marks) },
        move || -> u64
            requires { other.pool ≡ line.now.table }
        { stay_often(line, other, marks) },
    )
}

/// How often two threads clash that stay at once in a line, each with a ticket of it; none where it has fewer tickets.
fn clashes_of_two<R: Threads + Sync>(
    rt: &R,
    line: &LinePool<Global>,
    tickets: &mut Tickets,
    marks: &[AtomicU64],
) -> Option<(u64, u64)>
    requires { tickets.old.table ≡ line.now.table }
    ensures { tickets.new.table ≡ line.now.table }
{
    let one = line.deal(tickets)?;
    let other = line.deal(tickets)?;
    Some(stay_at_once(rt, line, one, other, marks))
}

/// Whether two threads have distinct small numbers in a line of so many, and no word is set at the end.
fn two_stay<R: Threads + Sync>(rt: &R, alloc: Global, numbers: u64) -> Reported {
    let marks = marks_of(alloc, numbers)?;
    let (line, mut tickets) = LinePool::new(alloc, numbers)?;
    let clashes = clashes_of_two(rt, &line, &mut tickets, &marks);
    let words = line.close(alloc, tickets, Vec::new(alloc))?;
    let is_free = words.len() as u64 == numbers && count_set(&words) == 0;
    Ok(is_free && clashes == Some((0, 0)))
}

#[test]
fn threads_have_distinct_small_numbers_and_give_them_back(rt: HostRuntime) {
    for numbers in [2, 64, 4096] {
        same(
            &rt,
            numbers as usize,
            two_stay(&rt, rt.alloc(), numbers),
            Ok(true),
        );
    }
}
