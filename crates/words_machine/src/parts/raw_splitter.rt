//! The splitter.

ghost use Rattle.std.specs.Prelude.{◌≡◌, ◌≢◌, ◌<◌, ◌≤◌, ◌+◌, [], ◌∷◌, ◌++◌, IfOk, IfErr, IsOk, Err, ◌⊎◌, ◌↔◌};
ghost use Rattle.model_splitter.specs.Law.{AtMostOneStopped, IsSplit};
ghost use Rattle.model_splitter.specs.declared.way.Way.TheVariants.{Stop, Right, Down};
ghost use Rattle.words_machine.specs.declared.parts.splitter_view.Visit.{Visit};
ghost use Rattle.words_machine.specs.parts.SplitterView.{fresh_visit, view_of, lone_view, undealt_from};
ghost use Rattle.words_machine.specs.parts.SplitterSteps.{IsUnderRule, HasEnded, accesses_by};
ghost use Rattle.words_machine.specs.parts.Seats.{seat_of, first_seats, gone_at, HasMet, IsVisitOf, MetBy, IsEither, EitherTook};

use crate::parts::seats::{EnteredSplitterSeat, FreshSplitterSeat};
use crate::parts::splitter_steps::{DealVisit, LookAtVisits, Splitting, UniteVisits, VisitAccess};
use crate::parts::splitter_view::SplitterView;
use atomic_table::{Badge, Seat, Shared, Table};
use model_splitter::Way;
use model_steps::Refusal;
use std::alloc::{AllocError, Allocator};
use std::marker::Model;
use std::mem;

/// The most seats of a splitter.
const MOST_SEATS: u64 = 64;

/// The word X: 0 at first, and then the number of a seat that entered, plus one.
const X: usize = 0;

/// The word Y: 0 at first, and 1 once a seat has set it.
const Y: usize = 1;

/// The value of Y once it is set.
const SET: u64 = 1;

/// The words of a splitter. It has no slots: their type means nothing.
type Words = Shared<u8, SplitterView, u64, Splitting>;

/// Makes the accesses of a visit, in their order.
fn visit(words: &Words, seat: &mut Seat<u8, SplitterView>, number: u64) -> Way
    requires two { words.now.table_id.words ≡ 2 }
    requires ours { seat.old.table_id ≡ words.now.table_id }
    requires fresh { seat.old.me ≡ (lone_view words.now.key (fresh_visit number), []) }
    requires few { number < 64 }
    ensures ours { seat.new.table_id ≡ words.now.table_id }
    ensures ended { HasEnded words.now.key number result seat.new.me }
{
    let own = number + 1;
    words.store::<VisitAccess>(seat, X, own);
    if words.load::<VisitAccess>(seat, Y) != 0 {
        return Way::Right;
    }
    words.store::<VisitAccess>(seat, Y, SET);
    if words.load::<VisitAccess>(seat, X) == own {
        Way::Stop
    } else {
        Way::Down
    }
}

/// Joins two seats with a visit each, reads a word, and parts them again: so both visits keep one invariant.
fn look_together(
    words: &Words,
    left: Seat<u8, SplitterView>,
    mut right: Seat<u8, SplitterView>,
) -> (Seat<u8, SplitterView>, Seat<u8, SplitterView>)
    requires two { words.now.table_id.words ≡ 2 }
    requires ours { (left.table_id ≡ words.now.table_id) × (right.table_id ≡ words.now.table_id) }
    requires left { (v : Visit) × (left.me ≡ (view_of words.now.key (v ∷ []), [])) }
    requires right { (v : Visit) × (right.me ≡ (view_of words.now.key (v ∷ []), [])) }
    ensures ours { (result.0.table_id ≡ words.now.table_id) × (result.1.table_id ≡ words.now.table_id) }
    ensures left { result.0.me ≡ left.me }
    ensures right { result.1.me ≡ right.me }
    ensures met { IsUnderRule (view_of words.now.key (left.me.0.visits ++ right.me.0.visits)) }
{
    words.join_seat::<UniteVisits>(&mut right, left);
    words.load::<LookAtVisits>(&mut right, Y);
    let left = words.split_seat::<DealVisit>(&mut right);
    (left, right)
}

/// A splitter on two shared atomic words, with the seats that came with it.
///
/// A visit (Moir and Anderson 1995) makes these atomic accesses. A seat writes its number plus one, since 0 in X means
/// that no seat has begun.
///
/// 1. Write the number plus one into X.
/// 2. Read Y. If it is set, the visit goes right.
/// 3. Set Y.
/// 4. Read X. If it holds what was written, the visit stops. Otherwise it goes down.
#[derive(Drop)]
pub struct RawSplitter<A: Allocator> {
    // It has no slots: their type means nothing.
    table: Table<u8, SplitterView, u64, Splitting, A>,
}

impl<A: Allocator> Model for RawSplitter<A> {
    ghost use Rattle.std.specs.Prelude.{◌≡◌};
    ghost use Rattle.words_machine.specs.parts.Seats.{SplitterId};

    ghost Value = { SplitterId };

    ghost view = { λ s. record { table = s.table.shared.table_id; seats = s.table.shared.key } };

    ghost invariant = { λ s. s.table.shared.table_id.words ≡ 2 };
}

impl<A: Allocator + Clone> RawSplitter<A> {
    /// Makes a splitter, and its seats by rising number from 0.
    ///
    /// # Errors
    ///
    /// - `OutOfRange`: `seats` is not from 1 to 64.
    /// - `NoMemory`: an allocation failed.
    pub fn new(alloc: A, seats: u64) -> Result<(RawSplitter<A>, Vec<FreshSplitterSeat, A>), Refusal>
        ensures splitter { IfOk result (λ r. r.0.seats ≡ seats) }
        ensures seats { IfOk result (λ r. r.1.items ≡ first_seats r.0 seats) }
        ensures range { IsOk result → (1 ≤ seats) × (seats ≤ 64) }
        ensures out_of_range { result ≡ Err Refusal.OutOfRange ↔ ((seats < 1) ⊎ (64 < seats)) }
        ensures only { IfErr result (λ r. (r ≡ Refusal.NoMemory) ⊎ (r ≡ Refusal.OutOfRange)) }
    {
        if seats < 1 || MOST_SEATS < seats {
            return Err(Refusal::OutOfRange);
        }
        let other = alloc.clone()?;
        let (splitter, mut rest) = RawSplitter::open(alloc, seats)?;
        let mut dealt = Vec::with_capacity(other, seats as usize)?;
        for number in 0..seats {
            dealt.push_reserved(splitter.deal(&mut rest, number));
        }
        Ok((splitter, dealt))
    }
}

impl<A: Allocator> RawSplitter<A> {
    /// Makes a splitter of two seats, and the two seats.
    ///
    /// # Errors
    ///
    /// `NoMemory`: an allocation failed.
    pub fn pair(alloc: A) -> Result<(RawSplitter<A>, FreshSplitterSeat, FreshSplitterSeat), Refusal>
        ensures splitter { IfOk result (λ r. r.0.seats ≡ 2) }
        ensures seats { IfOk result (λ r. (r.1 ≡ seat_of r.0 0) × (r.2 ≡ seat_of r.0 1)) }
        ensures only { IfErr result (λ r. r ≡ Refusal.NoMemory) }
    {
        let (splitter, mut rest) = RawSplitter::open(alloc, 2)?;
        let first = splitter.deal(&mut rest, 0);
        let second = splitter.deal(&mut rest, 1);
        Ok((splitter, first, second))
    }

    /// A splitter that no seat has entered, and the seat from which all others are dealt.
    fn open(alloc: A, seats: u64) -> Result<(RawSplitter<A>, Seat<u8, SplitterView>), AllocError>
        ensures splitter { IfOk result (λ r. r.0.seats ≡ seats) }
        ensures rest { IfOk result (λ r. (r.1.table_id ≡ r.0.table) × (r.1.me ≡ (undealt_from 0 seats, []))) }
    {
        let (table, rest) = Table::of_words(alloc, &[0, 0], &seats)?;
        Ok((RawSplitter { table }, rest))
    }

    /// Deals the seat of the least number that is not dealt.
    fn deal(&self, rest: &mut Seat<u8, SplitterView>, number: u64) -> FreshSplitterSeat
        requires ours { rest.old.table_id ≡ self.now.table }
        requires undealt { rest.old.me ≡ (undealt_from number self.now.seats, []) }
        requires range { (number < self.now.seats) × (number < 64) }
        ensures ours { rest.new.table_id ≡ self.now.table }
        ensures undealt { rest.new.me ≡ (undealt_from (number + 1) self.now.seats, []) }
        ensures seat { result ≡ seat_of self.now number }
    {
        let seat = self.table.shared.split_seat::<DealVisit>(rest);
        FreshSplitterSeat { number, seat }
    }

    /// Makes the visit of a seat of this splitter, and returns the way that it ended (Moir and Anderson 1995).
    ///
    /// A visit goes right only if another seat had set Y, and down only if another seat wrote X after it. The entered
    /// seat names that other seat. The only seat of a splitter stops. `law_of_the_rule` says the same of every visit.
    ///
    /// # Steps
    ///
    /// Two accesses if it goes right, otherwise four, whatever the other seats do.
    pub fn enter(&self, fresh: FreshSplitterSeat) -> (EnteredSplitterSeat, Way)
        requires ours { fresh.splitter ≡ self.now }
        ensures seat { IsVisitOf fresh result.1 result.0 }
        ensures accesses { result.0.accesses ≡ accesses_by result.1 }
        ensures met { MetBy result.0 result.1 }

        // The seat keeps the invariant of the splitter, with all others that enter.
        ensures lawful { IsUnderRule (lone_view self.now.seats (gone_at result.0)) }
        ensures alone { self.now.seats ≡ 1 → result.1 ≡ Stop }
    {
        let FreshSplitterSeat { number, mut seat } = fresh;
        let way = visit(&self.table.shared, &mut seat, number);
        let badge = seat.into_badge();
        (EnteredSplitterSeat { number, way, badge }, way)
    }

    /// Compares two entered seats of this splitter, which stay as they are. They did not both stop.
    ///
    /// If `one` met `other` and went right, `other` did not. If it met `other` and went down, `other` wrote X after it.
    /// The two seats of a pair went neither both right nor both down.
    pub fn meet(&self, one: &mut EnteredSplitterSeat, other: &mut EnteredSplitterSeat)
        requires one { one.old.splitter ≡ self.now }
        requires other { other.old.splitter ≡ self.now }
        ensures one { one.new ≡ one.old }
        ensures other { other.new ≡ other.old }
        ensures apart { one.old.number ≢ other.old.number }
        ensures one_stops { AtMostOneStopped (EitherTook one.old other.old) }
        ensures right { HasMet one.old other.old → one.old.way ≡ Right → other.old.way ≢ Right }
        ensures down { HasMet one.old other.old → one.old.way ≡ Down → one.old.turn < other.old.turn }

        // If the splitter has two seats, the two that are compared are all that entered.
        ensures split { self.now.seats ≡ 2 → IsSplit (IsEither one.old other.old) (EitherTook one.old other.old) }
    {
        let left = mem::replace(&mut one.badge, Badge::blank()).into_seat::<u8>();
        let right = mem::replace(&mut other.badge, Badge::blank()).into_seat::<u8>();
        let (left, right) = look_together(&self.table.shared, left, right);
        one.badge = left.into_badge();
        other.badge = right.into_badge();
    }
}
