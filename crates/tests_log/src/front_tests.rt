//! Halls that follow one log, interleaved at each of their steps.

ghost use Rattle.std.specs.Prelude.{◌<◌};
ghost use Rattle.text_player.specs.Knows.{Knows};

use crate::log_doubles::Lossy;
use model_asked::{Config, WorldKind};
use service_follow::{HallMachine, ReplyQueue};
use service_hall::Hall;
use service_log::{Cause, MemoryStore, Replica, Step, StoreFault};
use std::alloc::{AllocError, Global};
use tests_doubles::{FaultyReader, FaultyWriter};
use text_player::{Service, Tried, play_on};

/// How many steps all halls make together.
const STEPS: usize = 900;

/// How many bytes the first line of a batch has.
const HEAD: usize = 9;

/// What is asked, of an identity from 1 to 6 or for a name.
const WORDS: [&[u8]; 10] = [
    b"begin ", b"step ", b"step ", b"step ", b"enter ", b"probe ", b"leave ", b"put 3 ", b"get ",
    b"owner ",
];

/// What was answered at a place of the log.
#[derive(Drop)]
struct Reported {
    place: u64,
    answer: Vec<u8>,
}

/// A hall that follows the log, and what it was asked and has not answered.
#[derive(Drop)]
struct Front {
    hall: Replica<HallMachine>,
    batch: Vec<u8>,
    reply_queue: ReplyQueue,
}

// The next drawn number below 64.
pub(crate) fn drawn(state: &mut u64) -> u8
    ensures { result < 64 }
{
    *state = state
        .wrapping_mul(6364136223846793005)
        .wrapping_add(1442695040888963407);
    ((*state >> 33) % 64) as u8
}

// Adds a drawn batch: a first line, and eight lines of commands.
fn draw_batch(state: &mut u64, batch: &mut Vec<u8>) -> Result<(), AllocError> {
    for _ in 1..HEAD {
        batch.push(b'0' + drawn(state))?;
    }
    batch.push(b'\n')?;
    draw_lines(state, batch)
}

// Adds eight drawn lines.
pub(crate) fn draw_lines(state: &mut u64, batch: &mut Vec<u8>) -> Result<(), AllocError> {
    for _ in 0..8 {
        batch.extend_from_slice(WORDS[(drawn(state) % 10) as usize])?;
        batch.extend_from_slice(&[b'1' + drawn(state) % 6, b'\n'])?;
    }
    Ok(())
}

/// The config of each hall.
pub(crate) fn config() -> Option<Config> {
    Config::new(WorldKind::Rename, 4, 4, 1000).ok()
}

/// What a service says to lines; none where it could not be played.
pub(crate) fn answers<D: Service<()>>(
    alloc: Global,
    service: &mut D,
    lines: &[u8],
) -> Option<Vec<u8>>
    requires { Knows D.knows WorldKind.Rename }
{
    let mut reader = Tried::new(FaultyReader::new(lines, lines.len(), 0));
    let mut writer = Tried::new(FaultyWriter::new(alloc, 4096, 0, false));
    let played = play_on(
        alloc,
        &(),
        service,
        WorldKind::Rename,
        &mut reader,
        &mut writer,
    );
    if played.is_err() {
        return None;
    }
    Some(writer.into_inner().taken)
}

// Tells what was answered at a place, and tells whether anything was.
fn tell(reported: &mut Vec<Reported>, place: u64, answer: Option<Vec<u8>>) -> bool {
    match answer {
        Some(answer) => reported.push(Reported { place, answer }).is_ok(),
        None => false,
    }
}

impl Front {
    // What it answers to what it was asked, by its queue of replies, which says no more then.
    fn answer(&mut self, alloc: Global) -> Option<Vec<u8>> {
        let lines = self.batch.get(HEAD..).unwrap_or(&[]);
        let answer = answers(alloc, &mut self.reply_queue, lines);
        self.batch.clear();
        if self.reply_queue.is_used_up() {
            answer
        } else {
            None
        }
    }

    // One step for what it was asked. Where all was answered it is asked for more. Whether it went right, an answer that is lost included.
    fn step(
        &mut self,
        alloc: Global,
        state: &mut u64,
        store: &mut Lossy,
        reported: &mut Vec<Reported>,
    ) -> bool {
        if self.batch.is_empty() && draw_batch(state, &mut self.batch).is_err() {
            return false;
        }
        match self.hall.step(store, &self.batch, &mut self.reply_queue) {
            Ok(Step::Answered) => {
                let place = self.hall.place().saturating_sub(1);
                tell(reported, place, self.answer(alloc))
            }
            Ok(_) | Err(Cause::Store(StoreFault::Lost)) => true,
            Err(_) => false,
        }
    }
}

// How many of the answers that were reported at a place are this one.
fn count_at(reported: &[Reported], place: u64, due: &[u8]) -> usize {
    let mut count = 0usize;
    for one in reported {
        if one.place == place && one.answer.as_slice() == due {
            count = count.saturating_add(1);
        }
    }
    count
}

// How many of the answers that were reported at places of a log are what one hall says there.
fn count_due(
    alloc: Global,
    hall: &mut Hall,
    log: &MemoryStore,
    reported: &[Reported],
) -> Option<usize> {
    let mut count = 0usize;
    for place in 0..log.len() {
        let lines = log.entry(place).unwrap_or(&[]).get(HEAD..).unwrap_or(&[]);
        let due = answers(alloc, hall, lines)?;
        count = count.saturating_add(count_at(reported, place as u64, &due));
    }
    Some(count)
}

// Whether all are.
fn are_due(alloc: Global, log: &MemoryStore, reported: &[Reported]) -> bool {
    let Some(config) = config() else {
        return false;
    };
    match Hall::new(alloc, config) {
        Ok(mut hall) => count_due(alloc, &mut hall, log, reported) == Some(reported.len()),
        Err(_) => false,
    }
}

// A hall that has applied nothing and was asked nothing.
fn new_front(alloc: Global) -> Option<Front> {
    let machine = HallMachine::new(alloc, config()?).ok()?;
    Some(Front {
        hall: Replica::new(alloc, machine),
        batch: Vec::new(alloc),
        reply_queue: ReplyQueue::new(alloc),
    })
}

// So many of them.
fn fronts_of(alloc: Global, halls: u8) -> Option<Vec<Front>> {
    let mut fronts = Vec::new(alloc);
    for _ in 0..halls {
        fronts.push(new_front(alloc)?).ok()?;
    }
    Some(fronts)
}

// A step of one of the first so many halls. Whether it went right.
fn one_steps(
    alloc: Global,
    fronts: &mut [Front],
    present: usize,
    state: &mut u64,
    store: &mut Lossy,
    reported: &mut Vec<Reported>,
) -> bool {
    let at = drawn(state) as usize % present.max(1);
    match fronts.get_mut(at) {
        Some(front) => front.step(alloc, state, store, reported),
        None => false,
    }
}

// The steps of halls over one store, of which all but the first begin late. Whether each went right.
fn all_step(
    alloc: Global,
    fronts: &mut [Front],
    late: usize,
    store: &mut Lossy,
    reported: &mut Vec<Reported>,
) -> bool {
    let mut state = store.every;
    for turn in 0..STEPS {
        let present = if turn < late { 1 } else { fronts.len() };
        if !one_steps(alloc, fronts, present, &mut state, store, reported) {
            return false;
        }
    }
    true
}

// Whether what they answer is what one hall says at that place of the log, and most places were answered.
fn tell_one_history(alloc: Global, fronts: &mut [Front], late: usize, store: &mut Lossy) -> bool {
    let mut reported = Vec::new(alloc);
    let right = all_step(alloc, fronts, late, store, &mut reported);
    let most = reported.len() + fronts.len();
    let due = are_due(alloc, &store.store, &reported);
    right && due && STEPS / 9 < reported.len() && store.store.len() <= most
}

// Whether so many halls do, over one store that loses each so many answers, and of which all but the first begin late.
fn is_one_history(alloc: Global, halls: u8, late: usize, every: u64) -> bool {
    let mut store = Lossy::new(MemoryStore::new(alloc), every);
    match fronts_of(alloc, halls) {
        Some(mut fronts) => tell_one_history(alloc, &mut fronts, late, &mut store),
        None => false,
    }
}

/// Two halls; and three of which two start late, over a store that loses answers.
#[test]
fn halls_tell_what_one_tells(rt: HostRuntime) {
    let reported = [
        is_one_history(rt.alloc(), 2, 0, 0),
        is_one_history(rt.alloc(), 3, STEPS / 9, 3),
    ];
    assert!(rt; reported == [true, true], "{reported:?}");
}
