//! The end of a history: it is compared with what its callers kept.

ghost use Rattle.std.specs.Prelude.{◌≡◌, List, All, replicate, ◌+◌, ◌++◌, length, map, true, false, slice_get, slice_set, slice_index_or, vec_len, IfSome};
ghost use Rattle.service_lock.specs.Kepts.{IsJust};
ghost use Rattle.service_lock.specs.declared.kept.Kept.{Kept};
ghost use Rattle.service_lock.specs.Marks.{IsMarked, AreMarked};
ghost use Rattle.service_hall.specs.Halls.{SatisfiesSpec};

use crate::kept::Kept;
use crate::kept_log::KeptLog;
use crate::parts::{Clerk, LockName, Locked, Session};
use service_hall::{Hall, is_same};
use std::sync::ledger::Share;

/// A history that is closed, with all 1,000,001 parts of its lock's ledger. Each caller had one, so none was left out.
#[derive(Drop)]
pub struct Closed<L: LockName> {
    /// The hall, with the history.
    pub hall: Hall,
    whole: Share<L>,
}

/// The rest of a share, with the shares of these clerks.
fn with_clerks<L: LockName>(rest: Share<L>, clerks: Vec<Clerk<L>>) -> Share<L>
    ensures { result.parts ≡ rest.parts + vec_len clerks }
{
    let mut whole = rest;
    for clerk in clerks {
        whole.merge(clerk.into_share());
    }
    whole
}

/// The rest of a share, with the shares of these sessions.
fn with_sessions<L: LockName>(rest: Share<L>, sessions: Vec<Session<L>>) -> Share<L>
    ensures { result.parts ≡ rest.parts + vec_len sessions }
{
    let mut whole = rest;
    for session in sessions {
        let Session { id: _, clerk } = session;
        whole.merge(clerk.into_share());
    }
    whole
}

impl<L: LockName> Clerk<L> {
    /// Returns its share of the lock's count.
    pub(crate) fn into_share(self) -> Share<L>
        ensures parts { result.parts ≡ 1 }
        ensures amount { result.amount ≡ length self.kept }
    {
        let Clerk { share, .. } = self;
        share
    }
}

/// Whoever called a lock, with the events that it kept.
trait Caller {
    /// What it kept.
    ghost kept: { Self → List Kept };

    /// Returns what it kept.
    fn kept_log(&self) -> &KeptLog
        ensures { result.now.items ≡ kept self.now };
}

impl<L: LockName> Caller for Clerk<L> {
    ghost kept = { λ c. c.kept };

    fn kept_log(&self) -> &KeptLog {
        &self.kept
    }
}

impl<L: LockName> Caller for Session<L> {
    ghost kept = { λ s. s.clerk.kept };

    fn kept_log(&self) -> &KeptLog {
        &self.clerk.kept
    }
}

/// Whether what was kept is in the history, at its place.
fn fits(hall: &Hall, kept: &Kept) -> bool
    ensures { result ≡ true → slice_get hall.now.history kept.now.place ≡ Some kept.now.exchange }
{
    match hall.get(kept.place) {
        Some(exchange) => is_same(&exchange, &kept.exchange),
        None => false,
    }
}

/// Marks the place of a kept event, if it is in the history there and was not marked before.
fn mark(hall: &Hall, marks: &mut [bool], kept: &Kept) -> bool
    requires { length marks.old ≡ length hall.now.history }
    ensures fits { result ≡ true → slice_get hall.now.history kept.now.place ≡ Some kept.now.exchange }
    ensures clear { result ≡ true → slice_index_or marks.old kept.now.place false ≡ false }
    ensures marks { result ≡ true → marks.new ≡ slice_set marks.old kept.now.place true }
{
    let place = kept.place;
    if place >= marks.len() || marks[place] || !fits(hall, kept) {
        return false;
    }
    marks[place] = true;
    true
}

/// Marks the places of all that one caller kept.
fn mark_all(hall: &Hall, marks: &mut [bool], kept: &KeptLog) -> bool
    requires { length marks.old ≡ length hall.now.history }
    ensures { result ≡ true → IsMarked hall.now.history marks.old marks.new kept.now.items }
{
    for i in 0..kept.len() {
        let Some(k) = kept.get(i) else {
            return false;
        };
        if !mark(hall, marks, &k) {
            return false;
        }
    }
    true
}

/// Marks the places of what one caller kept, if at most `left` are left, and returns how many are left then.
fn mark_list(hall: &Hall, marks: &mut [bool], left: usize, kept: &KeptLog) -> Option<usize>
    requires { length marks.old ≡ length hall.now.history }
    ensures { IfSome result (λ n. IsMarked hall.now.history marks.old marks.new kept.now.items × (n + length kept.now.items ≡ left)) }
{
    if kept.len() > left || !mark_all(hall, marks, kept) {
        return None;
    }
    Some(left - kept.len())
}

/// Marks what these callers kept, and returns how many places are left.
fn mark_each<C: Caller>(
    hall: &Hall,
    marks: &mut [bool],
    left: usize,
    callers: &Vec<C>,
) -> Option<usize>
    requires { length marks.old ≡ length hall.now.history }
    ensures { IfSome result (λ n. AreMarked hall.now.history marks.old marks.new left n (map C.kept callers.now.items)) }
{
    let mut now = left;
    for caller in callers {
        now = mark_list(hall, marks, now, caller.kept_log())?;
    }
    Some(now)
}

/// Whether every place is marked.
fn all_marked(marks: &[bool]) -> bool
    ensures { result ≡ true → All (λ b. b ≡ true) marks.now }
{
    marks.iter().all(|mark| *mark)
}

/// Whether each place of the history was kept by exactly one of these, and no other place was. No place was marked
/// before.
fn mark_callers<L: LockName>(
    hall: &Hall,
    marks: &mut [bool],
    sessions: &Vec<Session<L>>,
    clerks: &Vec<Clerk<L>>,
) -> bool
    requires { marks.old ≡ replicate (length hall.now.history) false }
    ensures { result ≡ true → IsJust hall.now.history (map (λ s. s.clerk.kept) sessions.now.items ++ map (λ c. c.kept) clerks.now.items) }
{
    let Some(middle) = mark_each(hall, marks, hall.len(), sessions) else {
        return false;
    };
    let Some(left) = mark_each(hall, marks, middle, clerks) else {
        return false;
    };
    if left != 0 {
        return false;
    }
    all_marked(marks)
}

impl<L: LockName> Locked<L> {
    /// Returns the closed history. The sessions and the clerks are all callers that were opened.
    pub fn closed(self, sessions: Vec<Session<L>>, clerks: Vec<Clerk<L>>) -> Closed<L>
        requires { vec_len sessions + vec_len clerks ≡ self.opened }
        ensures hall { result.hall ≡ self.hall }
        ensures all { result.whole.parts ≡ 1000001 }
    {
        let Locked { hall, rest, .. } = self;
        let whole = with_clerks(with_sessions(rest, sessions), clerks);
        Closed { hall, whole }
    }

    /// Whether each place of the history was kept by exactly one of these callers, and no other place was.
    pub fn agrees(&mut self, sessions: &Vec<Session<L>>, clerks: &Vec<Clerk<L>>) -> bool
        ensures lawful { SatisfiesSpec self.new.hall }
        ensures hall { self.new.hall ≡ self.old.hall }
        ensures opened { self.new.opened ≡ self.old.opened }
        ensures just { result ≡ true → IsJust self.new.hall.history (map (λ s. s.clerk.kept) sessions.now.items ++ map (λ c. c.kept) clerks.now.items) }
    {
        let Locked { hall, marks, .. } = self;
        // Called for its clause `lawful`: the history satisfies the specification.
        let _ = hall.len();
        let agrees = mark_callers(hall, marks, sessions, clerks);
        marks.fill(false);
        agrees
    }
}
