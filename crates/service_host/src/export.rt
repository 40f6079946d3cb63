//! The history of a hall as commands.

ghost use Rattle.std.specs.Prelude.{◌≡◌, [], OnOk};
ghost use Rattle.std.specs.Io.KnownBytes.{Appends};
ghost use Rattle.service_host.specs.Exports.{command_line, command_lines};

use crate::failure::HostFailure;
use model_asked::Exchange;
use service_hall::Hall;
use std::alloc::Global;
use std::io::Write;
use text_player::{Replies, print_event};

// Writes the line that asks for an event.
fn write_line<W: Write>(
    exchange: Exchange,
    line: &mut Replies<Global>,
    output: &mut W,
) -> Result<(), HostFailure>
    requires { line.old ≡ [] }
    ensures written { OnOk result (Appends (W.contents output.old) (W.contents output.new) (command_line exchange)) }
    ensures empty { line.new ≡ [] }
{
    print_event(exchange.event, line);
    line.put(b"\n");
    let written = output.write_all(line.as_slice());
    line.clear();
    match written {
        Ok(()) => Ok(()),
        Err(_) => Err(HostFailure::Output),
    }
}

/// Writes the accepted events of a hall as the lines of commands that ask for them, in order.
///
/// # Errors
///
/// - `Memory`: an allocation failed. Nothing is written.
/// - `Output`: the writer failed. A part of the lines may be written.
pub fn write_events<W: Write>(alloc: Global, hall: &Hall, output: &mut W) -> Result<(), HostFailure>
    ensures { OnOk result (Appends (W.contents output.old) (W.contents output.new) (command_lines hall.now.history)) }
{
    let mut line = Replies::new(alloc)?;
    for place in 0..hall.len() {
        if let Some(exchange) = hall.get(place) {
            write_line(exchange, &mut line, output)?;
        }
    }
    Ok(())
}
