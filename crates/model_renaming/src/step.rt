//! A step of a participant whose round may go on: what it does to the snapshot object and to the round.

ghost use Rattle.std.specs.Prelude.{◌≡◌};
ghost use Rattle.model_steps.specs.Participant.{beginner};
ghost use Rattle.model_renaming.specs.Round.{followed};
ghost use Rattle.model_renaming.specs.Reply.{with_view};
ghost use Rattle.model_renaming.specs.RenameWorld.{after_wish};
ghost use Rattle.model_renaming.specs.Taken.{IsTaken};

use crate::places::RenamePlaces;
use crate::reply::Reply;
use crate::round::{Round, Wish};
use model_snapshot::{Known, SnapReply, SnapWorld};
use model_steps::{NoMemory, Participant, Refusal, View};
use std::alloc::Allocator;

/// Begins the operation of the snapshot object that a round needs, with no access. It never fails, since nothing of the
/// identity is pending then.
pub(crate) fn ask<W: RenamePlaces<A> + Drop, A: Allocator>(
    snap: &mut SnapWorld<W, A>,
    id: u64,
    wish: Wish,
)
where
    W::Walker: Copy,
    W::Walk: Copy,
    W::Value: Drop,
    ensures state { snap.new ≡ after_wish snap.old id wish }
    ensures no_access { snap.new.memory ≡ snap.old.memory }
{
    let _asked = match wish {
        Wish::Nothing => Ok(()),
        Wish::Update(number) => snap.update(id, number),
        Wish::Scan => snap.scan(id),
    };
}

/// Takes the reply of the snapshot object: begins what the round needs next, updates the round, and returns the step's
/// reply.
///
/// It is a function of its own, so that a step after which nothing follows clears no room for a view.
#[inline(never)]
fn follow<W: RenamePlaces<A> + Drop, A: Allocator>(
    snap: &mut SnapWorld<W, A>,
    participant: &mut Participant<Round>,
    reported: SnapReply,
    limit: u64,
    view: &mut View,
) -> Reply<()>
where
    W::Walker: Copy,
    W::Walk: Copy,
    W::Value: Drop,
    ensures reply { with_view result view.new ≡ (followed participant.old.program participant.old.identity reported limit).reply }
    ensures asked { snap.new ≡ after_wish snap.old participant.old.identity (followed participant.old.program participant.old.identity reported limit).wish }
    ensures round { participant.new ≡ beginner participant.old.identity (followed participant.old.program participant.old.identity reported limit).round }
{
    let id = participant.identity;
    let follow = participant.program.followed(id, reported, limit);
    ask(snap, id, follow.wish);
    participant.program = follow.round;
    participant.ended = false;
    follow.reply.shorten(view)
}

/// Makes a step that is none of a walk, and takes its reply. It is a function of its own, so that other steps clear no
/// room for a segment.
#[inline(never)]
fn take_other<W: RenamePlaces<A> + Drop, A: Allocator>(
    snap: &mut SnapWorld<W, A>,
    participant: &mut Participant<Round>,
    limit: u64,
    view: &mut View,
) -> Result<Reply<()>, Refusal>
where
    W::Walker: Copy,
    W::Walk: Copy,
    W::Value: Drop,
    ensures { IsTaken ⟦<W as Known>⟧.places snap.old snap.new participant.old participant.new limit result view.new }
{
    match snap.step(participant.identity) {
        Ok(reported) => Ok(follow(snap, participant, reported, limit, view)),
        Err(refusal) => Err(refusal),
    }
}

/// Makes a step that is no read of a scan that goes on, and takes its reply. It is a function of its own, as
/// `take_other` is.
#[inline(never)]
fn take_slow<W: RenamePlaces<A> + Drop, A: Allocator>(
    snap: &mut SnapWorld<W, A>,
    participant: &mut Participant<Round>,
    limit: u64,
    view: &mut View,
) -> Result<Reply<()>, Refusal>
where
    W::Walker: Copy,
    W::Walk: Copy,
    W::Value: Drop,
    ensures { IsTaken ⟦<W as Known>⟧.places snap.old snap.new participant.old participant.new limit result view.new }
{
    match snap.walk_on(participant.identity) {
        Ok(None) => take_other(snap, participant, limit, view),
        Ok(Some(note)) if note.is_quiet() => {
            participant.ended = false;
            Ok(Reply::Quiet)
        }
        Ok(Some(note)) => Ok(follow(snap, participant, SnapReply::of_way(note), limit, view)),
        Err(NoMemory) => Err(Refusal::NoMemory),
    }
}

/// Makes a step of a participant whose round may go on, and takes its reply. One that walks to its place reads in no
/// scan, so it is not asked for a read.
#[inline(always)]
pub(crate) fn take<W: RenamePlaces<A> + Drop, A: Allocator>(
    snap: &mut SnapWorld<W, A>,
    participant: &mut Participant<Round>,
    limit: u64,
    view: &mut View,
) -> Result<Reply<()>, Refusal>
where
    W::Walker: Copy,
    W::Walk: Copy,
    W::Value: Drop,
    ensures { IsTaken ⟦<W as Known>⟧.places snap.old snap.new participant.old participant.new limit result view.new }
{
    if participant.program.is_placing() {
        return take_slow(snap, participant, limit, view);
    }
    if !snap.read_on(participant.identity) {
        return take_slow(snap, participant, limit, view);
    }
    participant.ended = false;
    Ok(Reply::Quiet)
}
