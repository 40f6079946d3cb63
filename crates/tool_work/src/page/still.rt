//! What a page tells of the events where no script runs: they as a list.

ghost use Rattle.std.specs.Prelude.{◌≡◌, ◌++◌, ◌==◌, [], OnOk, if◌then◌else◌, position};
ghost use Rattle.text_records.specs.Reported.{identity_of};
ghost use Rattle.tool_work.specs.page.Still.{beginner_at, begun_after, item_begin, item_of, item_words, lane_of, lane_words};

use crate::page::access::put_access;
use crate::page::done::{Done, access_in, identity_of, is_refused};
use std::alloc::AllocError;
use text_records::{Line, Text, put_event, put_reported};
use text_worlds::desk::Event;

/// Who begins at a line.
fn beginner_at(line: &Line) -> Option<u64>
    ensures { result ≡ beginner_at line.now }
{
    if is_refused(&line.reported) {
        return None;
    }
    match line.event {
        Event::Begin(id) => Some(id),
        Event::Step(_) => None,
        Event::Enter(_) => None,
        Event::Probe(_) => None,
        Event::Seek(_) => None,
        Event::Leave(_) => None,
        Event::Put(_, _) => None,
        Event::Get(_) => None,
        Event::Widen(_) => None,
    }
}

/// Keeps who begins at a line. An error where a growth was refused.
pub(crate) fn keep_beginner(line: &Line, begun: &mut Vec<u64>) -> Result<(), AllocError>
    ensures { OnOk result (begun.new.items ≡ begun_after begun.old.items line.now) }
{
    match beginner_at(line) {
        Some(id) => begun.push(id).map_err(AllocError::from),
        None => Ok(()),
    }
}

/// The lane of whose event it is: where they stand among those who have begun.
fn lane_of(begun: &[u64], event: Event) -> Option<usize>
    ensures { result ≡ lane_of begun.now event }
{
    let id = identity_of(event);
    begun.iter().position(|one| *one == id)
}

/// Appends the lane of an item.
fn put_lane(lane: Option<usize>, out: &mut Text) -> Result<(), AllocError>
    ensures { OnOk result (out.new ≡ out.old ++ lane_words lane) }
{
    match lane {
        None => Ok(()),
        Some(lane) => {
            out.put_word(b" style=\"--lane:", lane as u64)?;
            out.put(b"\"")
        }
    }
}

/// Appends what an item of this number and lane begins with.
fn put_item_begin(number: u64, lane: Option<usize>, out: &mut Text) -> Result<(), AllocError>
    ensures { OnOk result (out.new ≡ out.old ++ item_begin number lane) }
{
    out.put_word(b"<li value=\"", number)?;
    out.put(b"\"")?;
    put_lane(lane, out)?;
    out.put(b">")?;
    Ok(())
}

/// Appends the words of the item of a line, at which a desk did this.
fn put_item_words(line: &Line, done: &Option<Done>, out: &mut Text) -> Result<(), AllocError>
    ensures { OnOk result (out.new ≡ out.old ++ item_words line.now done.now) }
{
    put_event(line.event, out)?;
    out.put(b" <b>")?;
    put_access(access_in(done), out)?;
    out.put(b"</b> ")?;
    put_reported(&line.reported, out)?;
    out.put(b"</li>\n")
}

/// Appends the item of a line, at which a desk did this.
fn put_item(
    begun: &[u64],
    number: u64,
    line: &Line,
    done: &Option<Done>,
    out: &mut Text,
) -> Result<(), AllocError>
    ensures { OnOk result (out.new ≡ out.old ++ item_of begun.now number line.now done.now) }
{
    put_item_begin(number, lane_of(begun, line.event), out)?;
    put_item_words(line, done, out)
}

/// Appends the item of a line, at which a desk did this, where that is shown. An error where a growth was refused.
pub(crate) fn put_item_where_shown(
    begun: &[u64],
    number: u64,
    line: &Line,
    is_shown: bool,
    done: &Option<Done>,
    out: &mut Text,
) -> Result<(), AllocError>
    ensures { OnOk result (out.new ≡ out.old ++ (if is_shown then item_of begun.now number line.now done.now else [])) }
{
    if is_shown {
        put_item(begun, number, line, done, out)?;
    }
    Ok(())
}
