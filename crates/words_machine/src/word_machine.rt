//! A machine over words.

ghost use Rattle.std.specs.Prelude.{◌≡◌, ◌≢◌, ◌<◌, ◌≤◌, ◌+◌, IfOk, IfErr, IfSome, IfNone, IsSome, ◌↔◌};
ghost use Rattle.words_machine.specs.Ids.{dealer_of, seat_of, claim_of, running_of, HasRun, HaveRun, HaveReported};
ghost use Rattle.words_machine.specs.SeatViews.{own};

use crate::program::WordProgram;
use crate::seats::{Claim, Dealer, EnteredSeat, FreshSeat, RunningSeat};
use crate::words::Words;
use atomic_table::Badge;
use std::alloc::{AllocError, Allocator};
use std::marker::Model;
use std::mem;

/// A machine over words, whose participants are threads.
#[derive(Drop)]
pub struct WordMachine<P: WordProgram, A: Allocator> {
    words: Words<P, A>,
}

impl<P: WordProgram, A: Allocator> Model for WordMachine<P, A> {
    ghost use Rattle.words_machine.specs.Ids.{WordsId};

    ghost Value = { WordsId };

    ghost view = { λ w. w.words };
}

impl<P: WordProgram, A: Allocator + Clone> WordMachine<P, A> {
    /// Makes a machine for so many seats, of which none has begun, and the dealer of its seats.
    ///
    /// # Errors
    ///
    /// Only if the allocation failed.
    pub fn new(alloc: A, most: u64) -> Result<(WordMachine<P, A>, Dealer<P>), AllocError>
        requires some { 1 ≤ most }
        requires may { P.law.MayStart most }
        ensures machine { IfOk result (λ r. r.0.most ≡ most) }
        ensures dealer { IfOk result (λ r. r.1 ≡ dealer_of r.0 0) }
    {
        let (words, rest) = Words::open(alloc, most)?;
        let badge = rest.into_badge();
        Ok((WordMachine { words }, Dealer { dealt: 0, badge }))
    }
}

impl<P: WordProgram, A: Allocator> WordMachine<P, A> {
    /// Returns how many seats there are at most.
    pub fn most(&self) -> u64
        ensures count { result ≡ self.now.most }
        ensures some { 1 ≤ result }
        ensures may { P.law.MayStart result }
    {
        self.words.most()
    }

    /// The seat of the least number that was not dealt, where there is one. The dealer is of this machine.
    pub fn deal(&self, dealer: &mut Dealer<P>) -> Option<FreshSeat<P>>
        requires ours { dealer.old.words ≡ self.now }
        ensures ours { dealer.new.words ≡ self.now }
        ensures some { IsSome result ↔ (dealer.old.dealt < self.now.most) }
        ensures seat { IfSome result (λ s. (s ≡ seat_of self.now dealer.old.dealt) × (dealer.new.dealt ≡ dealer.old.dealt + 1)) }
        ensures none { IfNone result (dealer.new ≡ dealer.old) }
    {
        let number = dealer.dealt;
        if self.words.most() <= number {
            return None;
        }
        let mut rest = mem::replace(&mut dealer.badge, Badge::blank()).into_seat::<u8>();
        let seat = self.words.deal(&mut rest, number);
        dealer.dealt = number + 1;
        dealer.badge = rest.into_badge();
        Some(FreshSeat { number, seat })
    }
}

impl<P: WordProgram + Drop, A: Allocator> WordMachine<P, A>
where
    P::Output: Drop,
{
    /// Returns the number by which the machine knows a seat of this machine, from 1.
    pub fn own_number(&self, fresh: &FreshSeat<P>) -> u64
        requires ours { fresh.now.words ≡ self.now }
        ensures { result ≡ own fresh.now.number }
    {
        // Opens the words, so that the range of `most`, which the number is below, is known.
        let _most = self.words.most();
        fresh.number + 1
    }

    /// Takes the program of the seat's participant for an identity, access by access, until it ends, whatever the other seats
    /// do: it makes no more accesses than the machine's bound. The seat is of this machine.
    pub fn enter(&self, fresh: FreshSeat<P>, identity: u64) -> EnteredSeat<P>
        requires ours { fresh.words ≡ self.now }
        requires begins { P.law.MayBegin (own fresh.number) identity }
        ensures seat { (result.words ≡ fresh.words) × (result.number ≡ fresh.number) × (result.identity ≡ identity) }

        // There is a list of calls after which it has ended so, by as many steps as it made accesses.
        ensures law { HasRun P.law result }
        ensures few { result.accesses ≤ P.law.bound self.now.most }
    {
        let FreshSeat { number, mut seat } = fresh;
        let mut program = P::start(self.words.most(), number + 1, identity);
        let (outcome, accesses) = self.words.run(&mut seat, number, identity, &mut program);
        EnteredSeat {
            number,
            identity,
            program,
            outcome,
            accesses,
            badge: seat.into_badge(),
        }
    }

    /// Returns the seat's participant for an identity before its first access, to make its accesses one at a time. The seat is
    /// of this machine.
    pub fn begin(&self, fresh: FreshSeat<P>, identity: u64) -> RunningSeat<P>
        requires ours { fresh.words ≡ self.now }
        requires begins { P.law.MayBegin (own fresh.number) identity }
        ensures { result ≡ running_of fresh.words fresh.number identity (P.law.start self.now.most (own fresh.number) identity) 0 }
    {
        let FreshSeat { number, seat } = fresh;
        let program = P::start(self.words.most(), number + 1, identity);
        RunningSeat {
            number,
            identity,
            program,
            accesses: 0,
            seat,
        }
    }

    /// One access of the seat's participant, whatever the other seats do: the seat that has ended by it, or `Err` with the seat
    /// that goes on. The seat is of this machine.
    ///
    /// # Errors
    ///
    /// `Err` is no fault: it is the seat that goes on.
    pub fn step(&self, running: RunningSeat<P>) -> Result<EnteredSeat<P>, RunningSeat<P>>
        requires ours { running.words ≡ self.now }
        ensures ended { IfOk result (λ e. (e.words ≡ running.words) × (e.number ≡ running.number) × (e.identity ≡ running.identity)
            × (e.accesses ≡ running.accesses + 1)) }

        // There is a list of calls after which it has ended so, by as many steps as it made accesses.
        ensures law { IfOk result (HasRun P.law) }
        ensures goes_on { IfErr result (λ s. (s.words ≡ running.words) × (s.number ≡ running.number) × (s.identity ≡ running.identity)
            × (s.accesses ≡ running.accesses + 1)) }
        ensures few { IfErr result (λ s. s.accesses ≤ P.law.bound self.now.most) }
    {
        let RunningSeat {
            number,
            identity,
            mut program,
            accesses,
            mut seat,
        } = running;
        // Opens the words, so that the machine's bound is known to be small.
        let _most = self.words.most();
        let note = self.words.step(&mut seat, number, identity, &mut program);
        let accesses = accesses + 1;
        match note.outcome() {
            Some(outcome) => Ok(EnteredSeat {
                number,
                identity,
                program,
                outcome,
                accesses,
                badge: seat.into_badge(),
            }),
            None => Err(RunningSeat {
                number,
                identity,
                program,
                accesses,
                seat,
            }),
        }
    }

    /// Two seats whose participants have ended meet, and show that one list of calls led to both ends. Both are of this machine,
    /// and stay as they are.
    pub fn meet(&self, one: &mut EnteredSeat<P>, other: &mut EnteredSeat<P>)
        requires one { one.old.words ≡ self.now }
        requires other { other.old.words ≡ self.now }
        ensures same { (one.new ≡ one.old) × (other.new ≡ other.old) }
        ensures met { HaveRun P.law one.old other.old }
    {
        let left = mem::replace(&mut one.badge, Badge::blank()).into_seat::<u8>();
        let right = mem::replace(&mut other.badge, Badge::blank()).into_seat::<u8>();
        let (left, right) = self.words.look_together(left, right);
        one.badge = left.into_badge();
        other.badge = right.into_badge();
    }

    /// A seat whose participant has ended meets the dealer, and shows that no more had begun when it ended than seats were
    /// dealt. Both are of this machine, and stay as they are.
    pub fn tally(&self, dealer: &mut Dealer<P>, entered: &mut EnteredSeat<P>)
        requires dealer { dealer.old.words ≡ self.now }
        requires entered { entered.old.words ≡ self.now }
        ensures same { (dealer.new ≡ dealer.old) × (entered.new ≡ entered.old) }
        ensures counted { entered.old.entered ≤ dealer.old.dealt }
    {
        let left = mem::replace(&mut entered.badge, Badge::blank()).into_seat::<u8>();
        let right = mem::replace(&mut dealer.badge, Badge::blank()).into_seat::<u8>();
        let (left, right) = self.words.look_together(left, right);
        entered.badge = left.into_badge();
        dealer.badge = right.into_badge();
    }

    /// A claim of what the participant of a seat has ended with, for whoever has to be shown it. The seat is of this machine, and
    /// stays as it is.
    pub fn claim(&self, entered: &mut EnteredSeat<P>) -> Claim<P>
    where
        P::Output: Copy,
        requires ours { entered.old.words ≡ self.now }
        ensures same { entered.new ≡ entered.old }
        ensures claim { result ≡ claim_of entered.old }
    {
        let number = entered.number;
        let outcome = entered.outcome;
        let mut seat = mem::replace(&mut entered.badge, Badge::blank()).into_seat::<u8>();
        let reported = self.words.tell(&mut seat);
        entered.badge = seat.into_badge();
        Claim {
            number,
            outcome,
            badge: reported.into_badge(),
        }
    }
}

impl<P: WordProgram, A: Allocator> WordMachine<P, A>
where
    P::Output: Drop,
{
    /// Two claims meet, and show that after one list of calls both learnt what they say. Both are of this machine, and stay as
    /// they are.
    pub fn compare(&self, one: &mut Claim<P>, other: &mut Claim<P>)
        requires one { one.old.words ≡ self.now }
        requires other { other.old.words ≡ self.now }
        ensures same { (one.new ≡ one.old) × (other.new ≡ other.old) }
        ensures reported { HaveReported P.law one.old other.old }
    {
        let left = mem::replace(&mut one.badge, Badge::blank()).into_seat::<u8>();
        let right = mem::replace(&mut other.badge, Badge::blank()).into_seat::<u8>();
        let (left, right) = self.words.compare(left, right);
        one.badge = left.into_badge();
        other.badge = right.into_badge();
    }
}
