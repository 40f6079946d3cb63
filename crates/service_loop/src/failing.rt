//! Connections that keep stays while the persister may not answer them.

ghost use Rattle.std.specs.Prelude.{◌≡◌, ℕ, true, length, get_or, None, OnOk};
ghost use Rattle.model_pool.specs.stays.Stays.{keeps_any};
ghost use Rattle.service_loop.specs.Attending.{number_at};
ghost use Rattle.service_loop.specs.Keepers.{KeepersFail, SeatFails};
ghost use Rattle.service_loop.specs.Seats.{seats_of};
ghost use Rattle.service_loop.specs.Sendings.{Unsent};

use crate::connection::Connection;
use crate::stream::Stream;
use crate::turns::number_at;
use model_pool::stays::Stays;
use std::alloc::{AllocError, Allocator};

// The connection of a seat is at fault, where there is one. Says whether it is to be queued.
fn fail_at<S: Stream, A: Allocator>(seats: &mut [Option<Connection<S, A>>], key: usize) -> bool
    ensures fails { SeatFails (get_or seats.new key None) }
    ensures others { (i : ℕ) → (i ≡ key → ⊥) → get_or seats.new i None ≡ get_or seats.old i None }
    ensures many { length seats.new ≡ length seats.old }
    ensures unsent { Unsent (seats_of S.left S.gone) seats.old seats.new }
{
    if key < seats.len() {
        if let Some(connection) = &mut seats[key] {
            return connection.fail();
        }
    }
    false
}

// The same, where it keeps a stay. It is due then.
fn fail_keeper_at<S: Stream, A: Allocator>(
    seats: &mut [Option<Connection<S, A>>],
    numbers: &[u64],
    stays: &Stays,
    ready: &mut Vec<usize>,
    key: usize,
) -> Result<(), AllocError>
    ensures fails { keeps_any (number_at numbers.now key) stays.now ≡ true → SeatFails (get_or seats.new key None) }
    ensures others { (i : ℕ) → (i ≡ key → ⊥) → get_or seats.new i None ≡ get_or seats.old i None }
    ensures many { length seats.new ≡ length seats.old }
    ensures unsent { Unsent (seats_of S.left S.gone) seats.old seats.new }
{
    if !stays.keeps_any(number_at(numbers, key)) {
        return Ok(());
    }
    if fail_at(seats, key) {
        ready.push(key)?;
    }
    Ok(())
}

/// Each connection that keeps a stay is at fault and due: nothing more is sent to it.
///
/// # Errors
///
/// `AllocError`: the list of connections that are due could not grow.
pub fn fail_keepers<S: Stream, A: Allocator>(
    seats: &mut [Option<Connection<S, A>>],
    numbers: &[u64],
    stays: &Stays,
    ready: &mut Vec<usize>,
) -> Result<(), AllocError>
    ensures fail { OnOk result (KeepersFail stays.now numbers.now seats.new) }
    ensures unsent { OnOk result (Unsent (seats_of S.left S.gone) seats.old seats.new) }
{
    let mut key = 0;
    while key < seats.len() {
        fail_keeper_at(seats, numbers, stays, ready, key)?;
        key += 1;
    }
    Ok(())
}
