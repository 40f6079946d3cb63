//! Stays that may have begun by lines whose answers were lost.

ghost use Rattle.std.specs.Prelude.{◌≡◌, Some};
ghost use Rattle.text_lines.specs.Lines.{whole_lines};
ghost use Rattle.text_lines.specs.Meaning.{meaning};
ghost use Rattle.service_loop.specs.Attending.{Hears};
ghost use Rattle.service_loop.specs.Losing.{entered_by, enters, lost_act, lost_acts};

use crate::attended::Attended;
use memchr::memchr;
use model_asked::{Command, Event, WorldKind};
use text_player::parse_line;

/// What ends a line.
const LF: u8 = 10;

// Whose `enter` an event is.
fn enters(event: Event) -> Option<u64>
    ensures { result ≡ enters event }
{
    match event {
        Event::Enter(identity) => Some(identity),
        _ => None,
    }
}

// Whose `enter` a line is.
fn entered_by(line: &[u8], kind: WorldKind) -> Option<u64>
    ensures { result ≡ entered_by (meaning kind line.now) }
{
    match parse_line(line, kind) {
        Ok(Command::Event(event)) => enters(event),
        Ok(Command::Owner(_) | Command::Quit) | Err(_) => None,
    }
}

// Notes what a line whose answer was lost says of stays.
fn note_line<D>(service: &mut Attended<D>, line: &[u8], kind: WorldKind)
    ensures hears { Hears (lost_act service.old.stays (entered_by (meaning kind line.now))) service.old service.new }
    ensures same { service.new.service ≡ service.old.service }
{
    if let Some(identity) = entered_by(line, kind) {
        service.note_lost(identity);
    }
}

/// Notes what these lines say of stays, whose answers were lost: each `enter` among them may have been applied. So nobody keeps the stay from
/// now on, unless a connection keeps it.
pub(crate) fn note_lost<D>(service: &mut Attended<D>, lines: &[u8], kind: WorldKind)
    ensures hears { Hears (lost_acts kind service.old.stays (whole_lines lines.now)) service.old service.new }
    ensures same { service.new.service ≡ service.old.service }
{
    let mut from = 0;
    while from < lines.len() {
        let rest = &lines[from..];
        let Some(end) = memchr(LF, rest) else {
            return;
        };
        note_line(service, &rest[..end], kind);
        from += end + 1;
    }
}
