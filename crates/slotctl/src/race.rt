//! Threads that race for names over shared atomic words, with no lock.

ghost use Rattle.std.specs.Prelude.{◌≡◌, ◌<◌, ◌≤◌};

use rand_core::SeedableRng;
use rand_core::utils::NextWord;
use rand_pcg::Lcg64Xsh32;
use std::alloc::{AllocError, Global};
use std::io::Write;
use std::thread::{self, Threads};
use text_player::Fault;
use tool_work::Racing;
use words_names::{FreshNameSeat, NameDealer, Names};

/// One thread's part of a race.
#[derive(Drop)]
struct Racer<'a> {
    names: &'a Names<Global>,
    seat: FreshNameSeat,
    ghost ours: { seat.names ≡ names.now },
}

/// How a thread came out of a race.
#[derive(Clone, Copy, Drop)]
struct Finish {
    identity: u64,
    name: u64,
    accesses: u64,
}

/// A drawn identity for the thread of a number: of 64 bits, never 0, and another for each number below 64.
fn draw_identity(words: &mut Lcg64Xsh32, number: u64) -> u64
    requires { number < 64 }
{
    let high = u64::from(words.next_word());
    let low = u64::from(words.next_word());
    (high * 4_294_967_296 + low) / 128 * 128 + number + 1
}

/// So many racers, each with a seat and an identity of its own.
fn racers_of<'a>(
    alloc: Global,
    names: &'a Names<Global>,
    mut dealer: NameDealer,
    threads: u64,
    words: &mut Lcg64Xsh32,
) -> Result<Vec<Racer<'a>, Global>, AllocError>
    requires ours { dealer.names ≡ names.now }
    requires few { threads ≤ 64 }
{
    let mut racers = Vec::new(alloc);
    for number in 0..threads {
        if let Ok(seat) = names.deal(&mut dealer, draw_identity(words, number)) {
            racers.push(Racer { names, seat })?;
        }
    }
    Ok(racers)
}

/// A thread's race: it makes the accesses of its participant, one after another, until it has a name.
fn run(racer: Racer<'_>) -> Finish {
    let Racer { names, seat } = racer;
    let renamed = names.rename(seat);
    Finish {
        identity: renamed.identity(),
        name: names.name(&renamed),
        accesses: renamed.accesses(),
    }
}

/// Whether as many names as there are threads are distinct, from 1, and at most this bound.
fn are_lawful(finishes: &[Finish], threads: u64, bound: u64) -> bool {
    for (i, finish) in finishes.iter().enumerate() {
        let taken = finishes[..i].iter().any(|other| other.name == finish.name);
        if taken || finish.name < 1 || bound < finish.name {
            return false;
        }
    }
    finishes.len() as u64 == threads
}

/// Writes how each thread came out of a round, and whether the names are as promised; answers whether they are.
fn tell_round<W: Write>(finishes: &[Finish], threads: u64, output: &mut W) -> Result<bool, Fault>
    requires few { threads ≤ 64 }
{
    for finish in finishes {
        let Finish {
            identity,
            name,
            accesses,
        } = *finish;
        if write!(output, "{identity} named {name} in {accesses} accesses\n").is_err() {
            return Err(Fault::Write);
        }
    }
    let bound = threads.saturating_mul(2).saturating_sub(1);
    let lawful = are_lawful(finishes, threads, bound);
    let reported = if lawful {
        write!(output, "distinct, at most {bound}\n")
    } else {
        write!(output, "two alike, or one above {bound}\n")
    };
    match reported {
        Ok(()) => Ok(lawful),
        Err(_) => Err(Fault::Write),
    }
}

/// Lets threads race for names in rounds, writes who got which, and answers whether in each round the names were distinct and at
/// most `2T - 1` for `T` threads.
///
/// # Errors
///
/// - `Write` if the output failed or took no byte.
/// - `Memory` only if an allocation failed, or no thread could be started.
pub fn race<T: Threads + Sync, W: Write>(
    rt: &T,
    alloc: Global,
    racing: Racing,
    output: &mut W,
) -> Result<bool, Fault> {
    let Racing {
        threads,
        rounds,
        seed,
    } = racing;
    let mut words = Lcg64Xsh32::seed_from_u64(seed);
    let mut lawful = true;
    for _ in 0..rounds {
        let Ok((names, dealer)) = Names::new(alloc, threads) else {
            return Err(Fault::Memory);
        };
        let Ok(racers) = racers_of(alloc, &names, dealer, threads, &mut words) else {
            return Err(Fault::Memory);
        };
        let Ok(finishes) = thread::map_vec(rt, racers, &|racer| run(racer)) else {
            return Err(Fault::Memory);
        };
        if !tell_round(&finishes, threads, output)? {
            lawful = false;
        }
    }
    Ok(lawful)
}
