//! The lines of a record, one after the other.

ghost use Rattle.std.specs.Prelude.{◌≡◌, ◌∷◌, [], ◌≤◌, length, MatchOption, IsTrue, ◌↔◌, None};
ghost use Rattle.std.specs.Option.{option_copied};
ghost use Rattle.text_lines.specs.Lines.{left_length};
ghost use Rattle.text_records.specs.Records.{record_lines, lines_left};

use crate::seals::opened_line;
use text_lines::words::cut;

/// Whether this is what follows the last LF, with nothing in it.
fn is_end(line: &[u8], rest: Option<&[u8]>) -> bool
    ensures { IsTrue result ↔ (line.now ≡ []) × (option_copied rest.entry ≡ None) }
{
    line.is_empty() && rest.is_none()
}

/// Returns the first line of these bytes, without its LF, and the bytes after it, or `None` if there is no line. Of a sealed line the line
/// that it holds is returned.
pub fn next_line(bytes: &[u8]) -> Option<(&[u8], Option<&[u8]>)>
    ensures lines { MatchOption result (record_lines bytes.now ≡ []) (λ r. record_lines bytes.now ≡ r.0.now ∷ lines_left (option_copied r.1)) }
    ensures shorter { MatchOption result (0 ≤ 0) (λ r. left_length (option_copied r.1) ≤ length bytes.now) }
{
    let (line, rest) = cut(bytes, b'\n');
    if is_end(line, rest) {
        return None;
    }
    Some((opened_line(line), rest))
}
