//! A world of `model_steps` run by hand, refusals and views.

ghost use Rattle.std.specs.Prelude.{◌≡◌};
ghost use Rattle.model_steps.specs.declared.note.Note.TheVariants as note;

use crate::common::{holds, lent, same, view_of};
use model_steps::{Access, Answer, Memory, Note, Refusal, StepProgram, World};
use std::alloc::Global;
use std::test::Fail;

/// A program of one access, which ends with its answer.
#[derive(Clone, Copy, Drop)]
struct Once {
    access: Access<usize, u64>,
}

impl StepProgram for Once {
    type Reg = usize;

    type Value = u64;

    type Output = Answer<u64>;

    ghost steps = { record { next = λ p. p.access; resumed = λ p got. p; note = λ p got. note.Ended got } };

    fn next(&self) -> Access<usize, u64> {
        self.access
    }

    fn resume(&mut self, got: Answer<u64>) -> Note<Answer<u64>>
        ensures after { self.new ≡ self.old }
        ensures note { result ≡ note.Ended got }
    {
        Note::Ended(got)
    }
}

/// A world of such programs.
type Worked = World<Once, Memory<u64, Global>, Global>;

/// A new world for two, with two registers of values, which hold 3, and two of bits.
fn world_of_two(alloc: Global) -> Result<Worked, Refusal> {
    let memory = Memory::new(alloc, 3, 2, 2)?;
    Ok(World::new(alloc, memory, 2)?)
}

/// Whether one reads what another wrote, and a bit that is tested is set then.
fn two_step(world: &mut Worked) -> bool {
    let write = Once {
        access: Access::Write(0, 7),
    };
    let read = Once {
        access: Access::Read(0),
    };
    let test = Once {
        access: Access::TestAndSet(1),
    };
    let asked = [world.begin(10, write), world.begin(20, read)];
    let reported = [world.step(10), world.step(20)];
    let set = [world.set(10, test), world.begin(10, test)];
    let tested = [world.step(10), world.step(10)];
    asked == [Ok(()), Ok(())]
        && reported
            == [
                Ok(Note::Ended(Answer::Done)),
                Ok(Note::Ended(Answer::Value(7))),
            ]
        && set == [Ok(()), Err(Refusal::AlreadyBegun)]
        && tested
            == [
                Ok(Note::Ended(Answer::WasSet(false))),
                Err(Refusal::Finished),
            ]
        && (world.memory().value(0), world.memory().bit(1)) == (7, true)
}

#[test]
fn two_share_a_memory(rt: HostRuntime) {
    same(&rt, 2, lent(world_of_two(rt.alloc()), two_step), Ok(true));
}

/// The refusals, by rising number from 1.
const REFUSALS: [Refusal; 14] = [
    Refusal::ZeroIdentity,
    Refusal::AlreadyBegun,
    Refusal::Full,
    Refusal::NotBegun,
    Refusal::Finished,
    Refusal::Spent,
    Refusal::Crowded,
    Refusal::NotCompeting,
    Refusal::AlreadyCompeting,
    Refusal::Holding,
    Refusal::NotHolding,
    Refusal::NoMemory,
    Refusal::HistoryFull,
    Refusal::OutOfRange,
];

#[test]
fn refusals_have_numbers(rt: HostRuntime) -> Result<(), Fail> {
    for (i, refusal) in REFUSALS.iter().enumerate() {
        holds(&rt, i, usize::from(refusal.number()) == i + 1);
    }
    let text = format!(in rt.alloc(); "{}", Refusal::Crowded)?;
    holds(
        &rt,
        14,
        text.as_str() == "as many compete as there are numbers",
    );
    Ok(())
}

/// Put in by any order, and one of them twice.
#[test]
fn views_are_kept_in_order(rt: HostRuntime) {
    let view = view_of(&[(20, 2), (10, 1), (30, 3), (20, 5)]);
    let is_kept = view.pairs() == [(10, 1), (20, 5), (30, 3)].as_slice();
    holds(
        &rt,
        3,
        is_kept && view == view_of(&[(30, 3), (20, 5), (10, 1)]),
    );
}
