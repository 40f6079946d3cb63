//! Works that write, of which each write fails in turn: a drawn schedule, drawn runs, and a record that is written again.
//!
//! Which steps a seed gives, and that each of many runs is that of its seed alone, is tried on the built program (`tests/program`), and so
//! is what comes of a growth that is refused (`tests/growths`). Other spellings of records, a name by an earlier moment, and records of no run
//! are tried there too (`tests/records`).

ghost use Rattle.std.specs.Prelude.{◌<◌, ◌^◌};

use model_asked::{Config, WorldKind};
use std::alloc::Global;
use std::process::Abort;
use tests_doubles::FaultyWriter;
use text_checker::{Verdict, migrate};
use text_worlds::{Fault, Sink, Tried};
use tool_work::drawn::{draw, play_drawn};

/// How many bytes a writer below takes a write.
const PIECE: usize = 3;

/// What writes: what is drawn from seed 7 for four, the lines of three runs, or a schedule where nothing is played; or a record that is
/// written again.
#[derive(Clone, Copy, Drop)]
enum Work<'a> {
    Draw(Option<Config>),
    Migrate(&'a [u8]),
}

/// Works over any writer that was not called too often: whether a record was one of a run.
fn outcome_of<W: Sink>(alloc: Global, work: Work<'_>, writer: &mut W) -> Result<bool, Fault>
    requires { W.calls writer.old < 2 ^ 64 }
{
    match work {
        Work::Draw(Some(config)) if config.world.gives_names() => {
            play_drawn(alloc, 7, 4, 200, 3, config, writer)?
        }
        Work::Draw(_) => draw(alloc, 7, 4, 200, writer)?,
        Work::Migrate(record) => return Ok(migrate(alloc, record, writer)? == Verdict::Yes),
    }
    Ok(true)
}

/// What a work writes over a writer that fails at this write: how it ends, and what was written.
fn written(
    alloc: Global,
    work: Work<'_>,
    fails_at: u64,
    takes_nothing: bool,
) -> (Result<bool, Fault>, Vec<u8>) {
    let mut writer = Tried::new(FaultyWriter::new(alloc, PIECE, fails_at, takes_nothing));
    let outcome = outcome_of(alloc, work, &mut writer);
    (outcome, writer.into_inner().taken)
}

/// One write fails, by an error or by taking nothing: all that was taken before is a prefix of the whole.
fn one_write_fails(
    rt: &impl Abort,
    alloc: Global,
    work: Work<'_>,
    all: &[u8],
    (at, takes_nothing): (u64, bool),
) {
    let (outcome, taken) = written(alloc, work, at, takes_nothing);
    let before = (at as usize).saturating_sub(1).saturating_mul(PIECE);
    let is_cut = all.starts_with(&taken) && taken.len() == before;
    assert!(rt; outcome == Err(Fault::Write) && is_cut, "at {at}");
}

/// What a work writes, of which each write fails in turn.
fn writes_fail_in_turn(rt: &impl Abort, alloc: Global, work: Work<'_>) -> Vec<u8> {
    let (outcome, all) = written(alloc, work, 0, false);
    assert!(rt; outcome == Ok(true));
    for at in 1..=all.len().div_ceil(PIECE) as u64 {
        one_write_fails(rt, alloc, work, &all, (at, false));
        one_write_fails(rt, alloc, work, &all, (at, true));
    }
    all
}

#[test]
fn each_write_of_a_schedule_and_of_drawn_runs_fails_once(rt: HostRuntime) {
    writes_fail_in_turn(&rt, rt.alloc(), Work::Draw(None));
    for world in [WorldKind::Rename, WorldKind::Tree] {
        let config = Config::new(world, 4, 4, 1000).expect(&rt, "a config in range");
        writes_fail_in_turn(&rt, rt.alloc(), Work::Draw(Some(config)));
    }
}

/// A record of version 1, and the same in version 2.
const OLD: &[u8] =
    b"{\"format\":\"slot-record\",\"k\":4,\"limit\":1000,\"m\":2,\"version\":1,\"world\":\"rename\"}
{\"command\":\"begin 10\",\"reply\":\"ok\"}
{\"command\":\"step 10\",\"reply\":\"proposed 1\"}
{\"command\":\"step 10\",\"reply\":\"named 1\"}
";

const NEW: &[u8] =
    b"{\"format\":\"slot-record\",\"k\":4,\"limit\":1000,\"m\":2,\"version\":2,\"world\":\"rename\"}
{\"command\":\"begin 10\",\"reply\":\"ok\"}
{\"command\":\"step 10\",\"reply\":\"proposed 1\"}
{\"command\":\"step 10\",\"reply\":\"named 1\",\"view\":\"10:1\"}
";

/// A record of version 1 is written in version 2, and that is written as it is.
#[test]
fn each_write_of_a_record_that_is_written_again_fails_once(rt: HostRuntime) {
    for record in [OLD, NEW] {
        let text = writes_fail_in_turn(&rt, rt.alloc(), Work::Migrate(record));
        assert!(rt; text.as_slice() == NEW);
    }
}
