//! Laws of desks, which run nothing. Structures over a desk use them.

ghost use Rattle.std.specs.Prelude.{◌≡◌, ℕ, ◌-◌, ◌*◌, ◌≤◌};
ghost use Rattle.text_worlds.specs.desk.Laws.{BeginsDesk, HasFreshDesk, IsOneFreshDesk, DeskGoesOn, DeskKeepsRuns, DeskTellsOwners, DeskRefusesAsSaid, IsDeskDetermined, InEachRun};
ghost use Rattle.text_worlds.specs.desk.NamedAlone.{NamesSoonAlone};
ghost use Rattle.text_worlds.specs.desk.NamedAmong.{NamesSoonAmong};
ghost use Rattle.text_worlds.specs.desk.Names.{WasNamed, begun_in};

/// A law of desks. Structures over a desk use this.
///
/// - A fresh desk is one after no calls, and there is exactly one for each configuration.
/// - Each reply of a desk to an event extends its history by one call, which is this exchange.
/// - The exchanges of every history are a run of the renaming object, the pool and the slots.
/// - After every history, `owner` and `refusal` are right, failed allocations aside.
/// - If no allocation fails, there is one reply and one next desk.
pub fn law_of_desk()
    ensures fresh { BeginsDesk }
    ensures fresh_is { HasFreshDesk }
    ensures one_fresh { IsOneFreshDesk }
    ensures goes_on { DeskGoesOn }
    ensures law { DeskKeepsRuns }
    ensures owner { DeskTellsOwners }
    ensures refusal { DeskRefusesAsSaid }
    ensures determined { IsDeskDetermined }
{}

/// A law of the exchanges of every run.
///
/// - Nobody was given two names, no two were given one, and each name is from 1 to 2b - 1, where b have begun.
/// - Cut a run in two. Take a participant that at the cut has begun, is neither named nor spent, and has two proposals
///   left. If no other makes an accepted step after the cut, it is named within `steps_alone` accepted steps after it,
///   and is not spent before. Others may begin, and compete for the pool.
/// - All together make at most 3(5^b - 1)/4 proposals. A participant that has made `steps_among` accepted steps has a
///   name or is spent. If the round limit is above that number, or above half of it and one, nobody is spent.
pub fn law_of_names()
    ensures one_each { InEachRun (λ r. (p n m : ℕ) → WasNamed p n r → WasNamed p m r → n ≡ m) }
    ensures small { InEachRun (λ r. (p n : ℕ) → WasNamed p n r → (1 ≤ n) × (n ≤ 2 * begun_in r - 1)) }
    ensures soon_alone { NamesSoonAlone }
    ensures soon_among { NamesSoonAmong }
    ensures never_two { InEachRun (λ r. (p q n : ℕ) → WasNamed p n r → WasNamed q n r → p ≡ q) }
{}
