//! Stays in a pool of numbers, which widens meanwhile. Single probes are tried where they are played as lines, in `tests_tool`.

use crate::common::{lent, same};
use model_pool::{Pool, Probe};
use model_steps::Refusal;
use std::alloc::Global;

/// Whether 5 stays as a whole, for want of a number 6 only once the pool has widened, and 7 has the number that 5 gave back.
fn go_in_turn(pool: &mut Pool<Global>) -> bool {
    let crowded = [pool.acquire(5), pool.acquire(6)];
    let entered = [pool.widen(2), pool.enter(6)];
    let probed = pool.probe(6);
    let given = [pool.leave(5), pool.acquire(7), pool.number_of(6)];
    let holders = [pool.holder_of(1), pool.holder_of(2)];
    crowded == [Ok(1), Err(Refusal::Crowded)]
        && entered == [Ok(()), Ok(())]
        && probed == Ok(Probe::Got(2))
        && given == [Ok(1), Ok(1), Ok(2)]
        && holders == [Some(7), Some(6)]
}

#[test]
fn stays_of_three(rt: HostRuntime) {
    let pool = Pool::new(rt.alloc(), 2, 1);
    same(&rt, 3, lent(pool, go_in_turn), Ok(true));
}
