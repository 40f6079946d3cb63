//! Front ends of one log in memory, their clock, and who keeps stays as the log tells it to a reader of its own.

use crate::front_tests::{answers, config};
use crate::log_doubles::{HandClock, SharedLog};
use crate::persister_tests::reported;
use service_follow::{HallTerms, LogFault, LogPersister, ReplyQueue, TermsChange};
use service_hall::{Hall, Reads, Rules};
use service_log::{MemoryStore, Store};
use std::alloc::{AllocError, Global};
use std::cell::{Cell, RefCell};

/// For how many seconds a stay goes on that nobody keeps.
pub(crate) const GRACE: u32 = 10;

/// A front end of a shared log.
pub(crate) type FrontEnd<'a> = LogPersister<SharedLog<'a>, HandClock<'a>>;

/// What front ends share: their log, an entry that comes before the next one, for how many seconds that is late, and their clock.
#[derive(Drop)]
pub(crate) struct Site {
    pub(crate) alloc: Global,
    pub(crate) log: RefCell<MemoryStore>,
    rival: RefCell<Vec<u8>>,
    late: Cell<u64>,
    seconds: Cell<u64>,
}

impl Site {
    /// An empty log.
    pub(crate) fn new(alloc: Global) -> Site {
        Site {
            alloc,
            log: RefCell::new(MemoryStore::new(alloc)),
            rival: RefCell::new(Vec::new(alloc)),
            late: Cell::new(0),
            seconds: Cell::new(0),
        }
    }

    /// Notes a place in the log as a hint, and tells whether that went well.
    pub(crate) fn hint_at(&self, place: u64) -> bool {
        match self.log.try_borrow_mut() {
            Ok(mut log) => log.put_hint(place).is_ok(),
            Err(_) => false,
        }
    }

    /// A site whose log has the first entries of this one alone, and no hint.
    pub(crate) fn cut(&self, entries: usize) -> Option<Site> {
        let site = Site::new(self.alloc);
        let Ok(from) = self.log.try_borrow() else {
            return None;
        };
        for place in 0..entries {
            let entry = from.entry(place)?;
            site.log
                .try_borrow_mut()
                .ok()?
                .put(place as u64, entry)
                .ok()?;
        }
        Some(site)
    }

    /// A second passes.
    pub(crate) fn pass_second(&self) {
        self.seconds.set(self.seconds.get().wrapping_add(1));
    }

    /// The next entry stands so many seconds after it was sent.
    pub(crate) fn let_come_late(&self, seconds: u64) {
        self.late.set(seconds);
    }

    /// How many entries the log has.
    pub(crate) fn entries(&self) -> usize {
        match self.log.try_borrow() {
            Ok(log) => log.len(),
            Err(_) => 0,
        }
    }

    /// An entry in which the front end of this letter enters an identity comes before the next one.
    pub(crate) fn let_come_first(&self, letter: u8, id: u8) -> Result<(), AllocError> {
        let Ok(mut rival) = self.rival.try_borrow_mut() else {
            return Ok(());
        };
        rival.clear();
        rival.extend_from_slice(&[letter; 32])?;
        rival.extend_from_slice(b" rival\nenter ")?;
        rival.extend_from_slice(&[id, b'\n'])
    }
}

// The log of a site, as a front end asks it.
fn log_of(site: &Site) -> SharedLog<'_> {
    SharedLog {
        log: &site.log,
        rival: &site.rival,
        late: &site.late,
        seconds: &site.seconds,
    }
}

// The clock of a site.
fn clock_of(site: &Site) -> HandClock<'_> {
    HandClock {
        seconds: &site.seconds,
    }
}

/// The front end whose token is this letter, and that was started with these terms.
pub(crate) fn opened_by(
    site: &Site,
    letter: u8,
    terms: HallTerms,
) -> Result<FrontEnd<'_>, LogFault> {
    let Some(config) = config() else {
        return Err(LogFault::NoNames);
    };
    let (log, clock) = (log_of(site), clock_of(site));
    LogPersister::open(site.alloc, log, clock, config, [letter; 32], terms)
}

/// What comes of a change to these terms.
pub(crate) fn changed_to(site: &Site, terms: HallTerms) -> Result<TermsChange, LogFault> {
    let Some(config) = config() else {
        return Err(LogFault::NoNames);
    };
    let (log, clock) = (log_of(site), clock_of(site));
    let mut reply_queue = ReplyQueue::new(site.alloc);
    let mut front = LogPersister::open_any(site.alloc, log, clock, config, [b'z'; 32], terms)?;
    front.change_terms(&mut reply_queue)
}

/// The front end whose token is this letter.
pub(crate) fn front_end(site: &Site, letter: u8) -> Option<FrontEnd<'_>> {
    opened_by(site, letter, HallTerms::Grace(GRACE)).ok()
}

/// One whose reads are no events.
pub(crate) fn reading(site: &Site, letter: u8) -> Option<FrontEnd<'_>> {
    let mut front = front_end(site, letter)?;
    front.choose_rules(Rules::all(Reads::Plain));
    Some(front)
}

/// Whether a front end answers lines so.
pub(crate) fn says(site: &Site, front: &mut FrontEnd<'_>, lines: &[u8], want: &[u8]) -> bool {
    match reported(site.alloc, front, lines) {
        Ok(Some(answer)) => answer.as_slice() == want,
        _ => false,
    }
}

/// A second passes, and a front end ends what is to end, of which these are kept by nobody there; whether it goes on.
pub(crate) fn sweeps(site: &Site, front: &mut FrontEnd<'_>, left: &[u64]) -> bool {
    site.pass_second();
    let mut reply_queue = ReplyQueue::new(site.alloc);
    front.end_stays(&mut reply_queue, left).is_ok() && reply_queue.is_used_up()
}

/// How many compete, as a front end has read the log.
pub(crate) fn competing(front: &FrontEnd<'_>) -> usize {
    front.hall().slots().pool().count() as usize
}

/// How many compete once a second has passed, and a front end ended what was to end.
pub(crate) fn left_after(site: &Site, front: &mut FrontEnd<'_>, left: &[u64]) -> Option<usize> {
    if !sweeps(site, front, left) {
        return None;
    }
    Some(competing(front))
}

/// After how many seconds, less than a hundred, nobody competes any more, where a front end ends what is to end.
pub(crate) fn seconds_until_alone(site: &Site, front: &mut FrontEnd<'_>) -> Option<u64> {
    for second in 1..100 {
        if left_after(site, front, &[])? == 0 {
            return Some(second);
        }
    }
    None
}

/// Reads a log by itself: its hall, and the letter of the front end that keeps each stay.
#[derive(Drop)]
struct Reader {
    alloc: Global,
    hall: Hall,
    keepers: [u8; 10],
    /// How many stays were ended by the front end that kept them.
    by_own: usize,
    /// How many by another.
    by_other: usize,
}

impl Reader {
    // A stay was ended, by the front end that kept it or by another.
    fn note_end(&mut self, by_own: bool) {
        if by_own {
            self.by_own = self.by_own.saturating_add(1);
        } else {
            self.by_other = self.by_other.saturating_add(1);
        }
    }

    // Reads a line of an entry of the front end of this letter.
    fn read_line(&mut self, letter: u8, line: &[u8]) -> Option<()> {
        let answer = answers(self.alloc, &mut self.hall, line)?;
        let id = usize::from(line.get(6)?.saturating_sub(b'0') % 10);
        if line.starts_with(b"enter ") && answer.as_slice() != b"refused 7\n".as_slice() {
            self.keepers[id] = letter;
        }
        if line.starts_with(b"leave ") && answer.starts_with(b"left ") {
            self.note_end(self.keepers[id] == letter);
        }
        Some(())
    }

    // Reads an entry: a first line, and lines of commands.
    fn read_entry(&mut self, entry: &[u8]) -> Option<()> {
        let letter = *entry.first()?;
        for line in entry.split_inclusive(|byte| *byte == b'\n').skip(1) {
            self.read_line(letter, line)?;
        }
        Some(())
    }
}

/// How many stays of a log were ended by the front end that kept them, as the entries before tell, and how many by another.
pub(crate) fn ended(site: &Site) -> Option<[usize; 2]> {
    let mut reader = Reader {
        alloc: site.alloc,
        hall: Hall::new(site.alloc, config()?).ok()?,
        keepers: [0u8; 10],
        by_own: 0,
        by_other: 0,
    };
    let log = site.log.try_borrow().ok()?;
    for place in 1..log.len() {
        reader.read_entry(log.entry(place)?)?;
    }
    Some([reader.by_own, reader.by_other])
}
