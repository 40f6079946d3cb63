//! The whole record of a hall.

ghost use Rattle.std.specs.Prelude.{◌≡◌, ◌+◌, IfOk, OnOk};
ghost use Rattle.service_journal.specs.WriteAheads.{record_of_hall, hall_after_first};

use crate::write_ahead::put_line;
use model_steps::{NoMemory, View};
use service_hall::Hall;
use std::alloc::{AllocError, Global};
use text_player::{Replies, TURN_ROOM, print_header};

/// Puts the line of the event at a place of a history behind others; an error where there is no such event, or no room.
fn put_event(
    hall: &Hall,
    place: usize,
    line: &mut Replies<Global>,
    lines: &mut Vec<u8>,
) -> Result<(), NoMemory>
    ensures { OnOk result (lines.old.items ≡ record_of_hall (hall_after_first place hall.now) →
        lines.new.items ≡ record_of_hall (hall_after_first (place + 1) hall.now)) }
{
    let Some(exchange) = hall.get(place) else {
        return Err(NoMemory);
    };
    if lines.reserve(TURN_ROOM).is_err() {
        return Err(NoMemory);
    }
    let mut view = View::new();
    let reply = exchange.reply.shorten(&mut view);
    put_line(exchange.event, reply, &view, line, lines);
    Ok(())
}

/// The header of a hall's record.
fn header_of(alloc: Global, hall: &Hall, line: &mut Replies<Global>) -> Result<Vec<u8>, AllocError>
    ensures { IfOk result (λ lines. lines.items ≡ record_of_hall (hall_after_first 0 hall.now)) }
{
    line.clear();
    print_header(hall.config(), line);
    line.as_slice().to_vec(alloc)
}

/// The record of a hall: a header, and a line for each event of its history with its reply.
pub(crate) fn record_of(alloc: Global, hall: &Hall) -> Result<Vec<u8>, NoMemory>
    ensures { IfOk result (λ lines. lines.items ≡ record_of_hall hall.now) }
{
    let mut line = Replies::new(alloc)?;
    let Ok(mut lines) = header_of(alloc, hall, &mut line) else {
        return Err(NoMemory);
    };
    for place in 0..hall.len() {
        put_event(hall, place, &mut line, &mut lines)?;
    }
    Ok(lines)
}
