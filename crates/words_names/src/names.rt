//! The names.

ghost use Rattle.std.specs.Prelude.{◌≡◌, ◌≢◌, ◌≤◌, ◌+◌, ◌*◌, ◌++◌, ◌∷◌, [], None, IfOk, IfErr, IsErr, IsOk};
ghost use Rattle.words_names.specs.NameLaw.{NameSpec};
ghost use Rattle.words_names.specs.Seats.{claim_of, dealer_of, no_deal, seat_of, IsSize};
ghost use Rattle.model_steps.specs.declared.refusal.Refusal.TheVariants as refused;

use crate::seats::{FreshNameSeat, MOST_SEATS, NameClaim, NameDealer, Renamed, Renaming};
use model_recursion::Namer;
use model_steps::Refusal;
use std::alloc::Allocator;
use std::marker::Model;
use words_machine::WordMachine;

/// Names for as many seats as they are made for.
#[derive(Drop)]
pub struct Names<A: Allocator> {
    machine: WordMachine<Namer, A>,
}

impl<A: Allocator> Model for Names<A> {
    ghost use Rattle.words_names.specs.Seats.{NamesId};

    ghost Value = { NamesId };

    ghost view = { λ n. n.machine };
}

impl<A: Allocator + Clone> Names<A> {
    /// Makes names for at most `most` seats, from 1 to 64, and the dealer of the seats. They take `most^3` words of 64 bits.
    ///
    /// # Errors
    ///
    /// - `OutOfRange`: `most` is not from 1 to 64.
    /// - `NoMemory`: an allocation failed.
    pub fn new(alloc: A, most: u64) -> Result<(Names<A>, NameDealer), Refusal>
        ensures names { IfOk result (λ r. r.0.most ≡ most) }
        ensures dealer { IfOk result (λ r. r.1 ≡ dealer_of r.0 0 []) }
        ensures range { IsOk result → IsSize most }
        ensures error { IfErr result (λ why. IsSize most → why ≡ refused.NoMemory) }
        ensures outside { (IsSize most → ⊥) → result ≡ Err refused.OutOfRange }
    {
        if most < 1 || (MOST_SEATS as u64) < most {
            return Err(Refusal::OutOfRange);
        }
        let (machine, dealer) = WordMachine::new(alloc, most)?;
        let identities = [0; MOST_SEATS];
        Ok((Names { machine }, NameDealer { dealer, identities }))
    }
}

impl<A: Allocator> Names<A> {
    /// Returns how many seats there are at most: from 1 to 64.
    pub fn most(&self) -> u64
        ensures count { result ≡ self.now.most }
        ensures range { (1 ≤ result) × (result ≤ 64) }
    {
        self.machine.most()
    }

    /// Deals the seat of the least number that was not dealt to an identity of the caller's choice. The dealer is of these
    /// names.
    ///
    /// # Errors
    ///
    /// - `ZeroIdentity`: the identity is 0.
    /// - `AlreadyBegun`: a seat was dealt to this identity.
    /// - `Full`: all seats were dealt.
    pub fn deal(&self, dealer: &mut NameDealer, identity: u64) -> Result<FreshNameSeat, Refusal>
        requires ours { dealer.old.names ≡ self.now }
        ensures seat { IfOk result (λ s. s ≡ seat_of self.now dealer.old.dealt identity) }
        ensures dealt { IsOk result → dealer.new ≡ dealer_of self.now (dealer.old.dealt + 1) (dealer.old.known ++ identity ∷ []) }
        ensures due { IsOk result → no_deal dealer.old identity ≡ None }
        ensures error { IfErr result (λ why. no_deal dealer.old identity ≡ Some why) }
        ensures unchanged_on_error { IsErr result → dealer.new ≡ dealer.old }
    {
        let dealt = dealer.dealer.dealt();
        if identity == 0 {
            return Err(Refusal::ZeroIdentity);
        }
        if dealer.identities[..dealt as usize].contains(&identity) {
            return Err(Refusal::AlreadyBegun);
        }
        // Opens the machine, so that the range of the most seats is known.
        let _most = self.machine.most();
        let Some(seat) = self.machine.deal(&mut dealer.dealer) else {
            return Err(Refusal::Full);
        };
        dealer.identities[dealt as usize] = identity;
        Ok(FreshNameSeat { identity, seat })
    }

    /// Makes the accesses of a seat of these names, one after another, until it has a name, by reads and writes (Gafni and
    /// Rajsbaum 2010).
    ///
    /// # Steps
    ///
    /// At most `m(m + 1)` accesses of `m` seats, whatever the other seats do.
    pub fn rename(&self, fresh: FreshNameSeat) -> Renamed
        requires ours { fresh.names ≡ self.now }
        ensures seat { (result.names ≡ fresh.names) × (result.number ≡ fresh.number) × (result.identity ≡ fresh.identity) }
        ensures law { NameSpec result }
    {
        let FreshNameSeat { identity, seat } = fresh;
        let seat = self.machine.enter(seat, identity);
        Renamed { seat }
    }

    /// Returns a seat of these names before its first access, to make its accesses one at a time.
    pub fn begin(&self, fresh: FreshNameSeat) -> Renaming
        requires ours { fresh.names ≡ self.now }
        ensures seat { (result.words ≡ fresh.names) × (result.number ≡ fresh.number) × (result.identity ≡ fresh.identity) }
        ensures first { result.accesses ≡ 0 }
    {
        let FreshNameSeat { identity, seat } = fresh;
        self.machine.begin(seat, identity)
    }

    /// Makes one access of a seat of these names, whatever the other seats do. Returns the seat that was renamed by it, or
    /// `Err` with the seat that goes on.
    ///
    /// # Errors
    ///
    /// `Err` is no fault: it is the seat that goes on.
    pub fn step(&self, renaming: Renaming) -> Result<Renamed, Renaming>
        requires ours { renaming.words ≡ self.now }
        ensures renamed { IfOk result (λ e. (e.names ≡ renaming.words) × (e.number ≡ renaming.number)
            × (e.identity ≡ renaming.identity) × (e.accesses ≡ renaming.accesses + 1)) }
        ensures law { IfOk result NameSpec }
        ensures goes_on { IfErr result (λ s. (s.words ≡ renaming.words) × (s.number ≡ renaming.number)
            × (s.identity ≡ renaming.identity) × (s.accesses ≡ renaming.accesses + 1)) }
        ensures few { IfErr result (λ s. s.accesses ≤ self.now.most * (self.now.most + 1)) }
    {
        match self.machine.step(renaming) {
            Ok(seat) => Ok(Renamed { seat }),
            Err(renaming) => Err(renaming),
        }
    }

    /// Returns the name of a renamed seat of these names.
    pub fn name(&self, renamed: &Renamed) -> u64
        requires ours { renamed.now.names ≡ self.now }
        ensures value { result ≡ renamed.now.name }
        ensures positive { 1 ≤ result }

        // The law that each renamed seat keeps.
        ensures law { NameSpec renamed.now }
    {
        renamed.name()
    }

    /// Compares two renamed seats of these names, which stay as they are. Their names differ.
    pub fn meet(&self, one: &mut Renamed, other: &mut Renamed)
        requires one { one.old.names ≡ self.now }
        requires other { other.old.names ≡ self.now }
        ensures same { (one.new ≡ one.old) × (other.new ≡ other.old) }
        ensures apart { one.old.number ≢ other.old.number }
        ensures distinct { one.old.name ≢ other.old.name }
    {
        self.machine.meet(&mut one.seat, &mut other.seat);
    }

    /// Compares a renamed seat with the dealer, both of these names, which stay as they are.
    ///
    /// Where `d` seats were dealt, at most `d` had begun when this one got its name. So the name is at most `2d - 1`.
    pub fn tally(&self, dealer: &mut NameDealer, renamed: &mut Renamed)
        requires dealer { dealer.old.names ≡ self.now }
        requires renamed { renamed.old.names ≡ self.now }
        ensures same { (dealer.new ≡ dealer.old) × (renamed.new ≡ renamed.old) }
        ensures counted { renamed.old.entered ≤ dealer.old.dealt }
        ensures low { renamed.old.name + 1 ≤ 2 * dealer.old.dealt }
    {
        self.machine.tally(&mut dealer.dealer, &mut renamed.seat);
    }

    /// Makes a claim of the name of a renamed seat of these names, which stays as it is.
    pub fn claim(&self, renamed: &mut Renamed) -> NameClaim
        requires ours { renamed.old.names ≡ self.now }
        ensures same { renamed.new ≡ renamed.old }
        ensures claim { result ≡ claim_of renamed.old }
    {
        let identity = renamed.seat.identity();
        let claim = self.machine.claim(&mut renamed.seat);
        NameClaim { identity, claim }
    }

    /// Compares two claims of these names, which stay as they are. If their names are equal, so are their seats.
    pub fn compare(&self, one: &mut NameClaim, other: &mut NameClaim)
        requires one { one.old.names ≡ self.now }
        requires other { other.old.names ≡ self.now }
        ensures same { (one.new ≡ one.old) × (other.new ≡ other.old) }
        ensures one_seat { one.old.name ≡ other.old.name → one.old.number ≡ other.old.number }
    {
        self.machine.compare(&mut one.claim, &mut other.claim);
    }
}
