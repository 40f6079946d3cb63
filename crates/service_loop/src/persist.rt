//! What is kept of a turn before its replies go out.

ghost use Rattle.std.specs.Prelude.{◌≡◌, ◌≤◌, ◌+◌, ◌++◌, ℕ, Bool, true, List, is_some, length, OnOk};
ghost use Rattle.model_pool.specs.Competitors.{stay_of};
ghost use Rattle.text_lines.specs.declared.replies.TheConstants.{HELD_REPLIES};
ghost use Rattle.model_pool.specs.slots.SlotsState.{SlotsState};
ghost use Rattle.service_loop.specs.Rooms.{room_in};
ghost use Rattle.text_lines.specs.held.Held.{held_text};
ghost use Rattle.text_lines.specs.declared.held.telling.TheConstants.{HELD_ROOM};

use crate::feed::Feed;
use service_watch::Tally;
use std::alloc::Allocator;
use text_lines::held::{HELD_ROOM, HeldQuery};
use text_lines::{HELD_REPLIES, Replies};

/// Whether a persister has prefetched the answers to the lines that it got.
#[derive(Clone, Copy, Debug, Drop, PartialEq, Eq)]
pub enum Prefetch {
    /// The service answers them now.
    Known,
    /// They were not prefetched in time, and nothing is known of them.
    Lost,
}

/// Keeps what a service tells of the events that it accepted, before any reply of that turn is sent.
pub trait Persist<D> {
    /// Why it could not be kept.
    type Fault;

    /// The persister and the service were so, and are so once what the service tells is kept.
    ghost persists: { Self → D → Self → D → Type 0 };

    /// The persister and the service were so, and are so once the answers to these lines are prefetched.
    ghost prefetches: { Self → D → List ℕ → Self → D → Type 0 };

    /// The persister and the service were so, and are so once the persister went on by itself, or answers were not prefetched in time.
    ghost waits: { Self → D → Self → D → Type 0 };

    /// The pool and its slots, as they are where all is kept that the service told.
    ghost holds: { Self → D → SlotsState ℕ };

    /// Whether other servers share the service's stays.
    ghost shares: { Self → Bool };

    /// Who keeps a stay since this lease may be answered: nobody else has ended it, by the clock that the persister trusts.
    ghost may_answer: { Self → ℕ → Type 0 };

    /// Appends who holds numbers, as it is asked.
    fn put_held<B: Allocator>(&self, service: &D, query: HeldQuery, out: &mut Replies<B>)
        requires room { length out.old + HELD_ROOM ≤ HELD_REPLIES }
        ensures text { out.new ≡ out.old ++ held_text (holds self.now service.now) query }
        ensures short { length out.new ≤ length out.old + HELD_ROOM };

    /// How many more may hold a number: those that nobody holds, but one for each who competes and holds none yet.
    fn room(&self, service: &D) -> u64
        ensures { result ≡ room_in (holds self.now service.now) };

    /// Whether so much is to be kept before any other connection has its turn. It is not asked where `most_prefetched` is some:
    /// then each connection has its turn whose lines are in the batch.
    fn is_full(&self, service: &D) -> bool;

    /// Keeps what the service tells.
    fn persist(&mut self, service: &mut D) -> Result<(), Self::Fault>
        ensures { OnOk result (persists self.old service.old self.new service.new) };

    /// How many bytes of lines of requests it gets, at most, before a turn takes them; `None` where the service answers each as it comes.
    fn most_prefetched(&self) -> Option<usize>;

    /// Has the service prefetch the answers to these lines of requests, in their order; each ends in LF. `Lost` where they were not prefetched in
    /// time: nothing is known of them then.
    fn prefetch(&mut self, service: &mut D, lines: &[u8]) -> Result<Prefetch, Self::Fault>
        ensures known { result ≡ Ok Prefetch.Known → prefetches self.old service.old lines.now self.new service.new }
        ensures lost { result ≡ Ok Prefetch.Lost → waits self.old service.old self.new service.new };

    /// Is called about once a second while clients are there or watchers may be, and three times a minute else.
    fn tick(&mut self, service: &mut D) -> Result<(), Self::Fault>
        ensures { OnOk result (waits self.old service.old self.new service.new) };

    /// Whether other servers share the service's stays, so that this persister ends them itself (`end_stays`).
    fn shares_stays(&self) -> bool
        ensures { result ≡ shares self.now };

    /// Ends stays that are shared: those of these identities, which nobody keeps here any more, and those of servers that are gone. Is called
    /// about once a second where the server ends stays, and only where `shares_stays` says so.
    fn end_stays(&mut self, service: &mut D, due: &[u64]) -> Result<(), Self::Fault>
        ensures { OnOk result (waits self.old service.old self.new service.new) };

    /// The identities whose stays the last `end_stays` ended since their servers are gone, for people.
    fn ended_of_gone(&self) -> &[u64] {
        &[]
    }

    /// Returns true if and only if an identity competes, where all is kept that the service told.
    fn has_stay(&self, service: &D, identity: u64) -> bool
        ensures { result ≡ is_some (stay_of identity (holds self.now service.now).pool.competitors) };

    /// The lease in which a stay is kept that begins now. Another begins where others may have ended the stays that were kept before.
    fn lease(&self) -> u64;

    /// Whether this server may still answer those who keep stays since this lease. Where it may not they are closed, and nothing is sent to them.
    fn may_answer_stays(&self, lease: u64) -> bool
        ensures { result ≡ true → may_answer self.now lease };

    /// What changes of who holds numbers, where other servers share the service; `None` where none does: then the loop notes it.
    fn changes(&self) -> Option<&Feed> {
        None
    }

    /// What is amiss and does not end the server, for people; `None` where nothing is.
    fn trouble(&self) -> Option<&'static str>;

    /// How many tenths of the history's room are used up by what no compaction makes fewer, for people; 0 where that is not known.
    fn lasting_tenths(&self) -> u8;

    /// How much there is, for people. It takes time as there are numbers and names, which are few.
    fn tally(&self, service: &D) -> Tally;
}
