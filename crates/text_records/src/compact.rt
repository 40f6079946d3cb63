//! The compact spelling of the lines of a record, as they are written.

ghost use Rattle.std.specs.Prelude.{◌≡◌, ◌++◌, Bool, OnOk, codes, decimal};
ghost use Rattle.model_asked.specs.declared.exchange.Exchange.{Exchange};
ghost use Rattle.model_asked.specs.Replies.{ShownReply};
ghost use Rattle.text_lines.specs.Events.{event_words};
ghost use Rattle.model_asked.specs.Config.{world_name};
ghost use Rattle.text_lines.specs.Replies.{owner_words, pair_words, reply_words, view_words};
ghost use Rattle.text_player.specs.Records.{exchange_line, header_line, name_view};
ghost use Rattle.text_records.specs.Lines.{IsLineOf, IsShown, reported_of};
ghost use Rattle.text_records.specs.ReportedWords.{reported_words};

use crate::line::Line;
use crate::reported::Reported;
use crate::text::Text;
use itoa::Buffer;
use model_asked::{Config, Event, WorldKind};
use model_steps::Place;
use std::alloc::AllocError;

/// Appends the words of the line that asks for an event.
///
/// # Errors
///
/// `AllocError`: the allocation failed. The text is then of no use.
pub fn put_event(event: Event, out: &mut Text) -> Result<(), AllocError>
    ensures { OnOk result (out.new ≡ out.old ++ event_words event) }
{
    match event {
        Event::Begin(id) => out.put_word(b"begin ", id),
        Event::Step(id) => out.put_word(b"step ", id),
        Event::Enter(id) => out.put_word(b"enter ", id),
        Event::Probe(id) => out.put_word(b"probe ", id),
        Event::Seek(id) => out.put_word(b"seek ", id),
        Event::Leave(id) => out.put_word(b"leave ", id),
        Event::Put(id, value) => {
            out.put_word(b"put ", id)?;
            out.put_word(b" ", value)
        }
        Event::Get(id) => out.put_word(b"get ", id),
        Event::Widen(size) => out.put_word(b"widen ", size),
    }
}

/// Appends the words of a place.
fn put_place(place: Place, out: &mut Text) -> Result<(), AllocError>
    ensures { OnOk result (out.new ≡ out.old ++ (codes "place " ++ decimal place)) }
{
    out.put(b"place ")?;
    out.put(Buffer::new().format(place).as_bytes())
}

/// Appends pairs, each after a space.
fn put_pairs(pairs: &[(u64, u64)], out: &mut Text) -> Result<(), AllocError>
    ensures { OnOk result (out.new ≡ out.old ++ pair_words pairs.now) }
{
    for pair in pairs {
        out.put(b" ")?;
        out.put_pair(*pair)?;
    }
    Ok(())
}

/// Appends `saw` and the pairs of a view.
///
/// # Errors
///
/// `AllocError`: the allocation failed. The text is then of no use.
pub fn put_view(pairs: &[(u64, u64)], out: &mut Text) -> Result<(), AllocError>
    ensures { OnOk result (out.new ≡ out.old ++ (codes "saw" ++ pair_words pairs.now)) }
{
    out.put(b"saw")?;
    put_pairs(pairs, out)
}

/// Appends `owner` and the identity that has a name, or `none`.
///
/// # Errors
///
/// `AllocError`: the allocation failed. The text is then of no use.
pub fn put_owner(owner: Option<u64>, out: &mut Text) -> Result<(), AllocError>
    ensures { OnOk result (out.new ≡ out.old ++ owner_words owner) }
{
    match owner {
        Some(id) => out.put_word(b"owner ", id),
        None => out.put(b"owner none"),
    }
}

/// Appends the words of a reply that is reported.
fn put_words(reported: &Reported, out: &mut Text) -> Result<(), AllocError>
    ensures { OnOk result (out.new ≡ out.old ++ reported_words reported.now) }
{
    match reported {
        Reported::Ok => out.put(b"ok"),
        Reported::Quiet => out.put(b"quiet"),
        Reported::Stop => out.put(b"stop"),
        Reported::Right => out.put(b"right"),
        Reported::Down => out.put(b"down"),
        Reported::Place(place) => put_place(*place, out),
        Reported::Proposed(number) => out.put_word(b"proposed ", *number),
        Reported::Saw(view) => put_view(view.as_slice(), out),
        Reported::Named(name, _) => out.put_word(b"named ", *name),
        Reported::Spent => out.put(b"spent"),
        Reported::Missed => out.put(b"missed"),
        Reported::Got(number) => out.put_word(b"got ", *number),
        Reported::Left(number) => out.put_word(b"left ", *number),
        Reported::Value(value) => out.put_word(b"value ", *value),
        Reported::Owner(owner) => put_owner(*owner, out),
        Reported::Refused(number) => out.put_word(b"refused ", *number),
    }
}

/// Appends the words of a reply that is reported. These are the words of each reply that is reported so.
///
/// # Errors
///
/// `AllocError`: the allocation failed. The text is then of no use.
#[tactic(auto, using(crate::proofs::ReportedWords::spelled))]
pub fn put_reported(reported: &Reported, out: &mut Text) -> Result<(), AllocError>
    ensures words { OnOk result (out.new ≡ out.old ++ reported_words reported.now) }
    ensures spelled { OnOk result ((shows : Bool) (r : ShownReply) → reported_of shows r ≡ reported.now → out.new ≡ out.old ++ reply_words r) }
{
    put_words(reported, out)
}

/// Appends the pairs of a view, with a space between two.
fn put_shown(pairs: &[(u64, u64)], out: &mut Text) -> Result<(), AllocError>
    ensures { OnOk result (out.new ≡ out.old ++ view_words pairs.now) }
{
    match pairs {
        [] => Ok(()),
        [first, more @ ..] => {
            out.put_pair(*first)?;
            put_pairs(more, out)
        }
    }
}

/// Appends the view by which a name was given, or nothing if no name was given.
fn put_named_by(reported: &Reported, view: &[(u64, u64)], out: &mut Text) -> Result<(), AllocError>
    ensures { OnOk result ((shows : Bool) (r : ShownReply) → reported_of shows r ≡ reported.now → IsShown r view.now → out.new ≡ out.old ++ name_view r) }
{
    if !reported.is_name() {
        return Ok(());
    }
    out.put(b",\"view\":\"")?;
    put_shown(view, out)?;
    out.put(b"\"")
}

/// Appends the line of an event with its reply, in version 2. `view` is the view by which a name was given.
///
/// # Errors
///
/// `AllocError`: the allocation failed. The text is then of no use.
pub fn put_line(line: &Line, view: &[(u64, u64)], out: &mut Text) -> Result<(), AllocError>
    ensures { OnOk result ((x : Exchange) → IsLineOf x line.now → IsShown x.reply view.now → out.new ≡ out.old ++ exchange_line x) }
{
    out.put(b"{\"command\":\"")?;
    put_event(line.event, out)?;
    out.put(b"\",\"reply\":\"")?;
    put_reported(&line.reported, out)?;
    out.put(b"\"")?;
    put_named_by(&line.reported, view, out)?;
    out.put(b"}\n")
}

/// Appends the name of a world.
fn put_world(world: WorldKind, out: &mut Text) -> Result<(), AllocError>
    ensures { OnOk result (out.new ≡ out.old ++ world_name world) }
{
    out.put(world.name().as_bytes())
}

/// Appends the first line of a record, in version 2.
///
/// # Errors
///
/// `AllocError`: the allocation failed. The text is then of no use.
pub fn put_header(config: Config, out: &mut Text) -> Result<(), AllocError>
    ensures { OnOk result (out.new ≡ out.old ++ header_line config) }
{
    out.put_word(b"{\"format\":\"slot-record\",\"k\":", config.k)?;
    out.put_word(b",\"limit\":", config.limit)?;
    out.put_word(b",\"m\":", config.m)?;
    out.put(b",\"version\":2,\"world\":\"")?;
    put_world(config.world, out)?;
    out.put(b"\"}\n")
}
