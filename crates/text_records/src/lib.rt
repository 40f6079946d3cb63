//! The lines of a record, read and written.
//!
//! A record is lines of JSON: a header, which has the configuration of the run, and then an event with its reply as
//! each line. There are two versions. In version 2 the view by which a name was given is written beside it, as the key
//! `view` of that line alone. In version 1 it is not written, and there are at most 16 participants.
//!
//! `next_line` cuts the bytes of a record into lines. `read_header` and `read_line` read one line each, and
//! `read_reply` the text of a reply, as the definitions of `specs/` say. `read_row` also tells whether the bytes may be
//! copied. `put_header` and `put_line` write lines of version 2 in the compact spelling, into a `Text`. A `Line` does not
//! depend on the version that it was read in.
//!
//! Which lines may follow one another is not asked here: `text_checker` judges that.
//!
//! From `text_checker/src/record.rt`:
//!
//! ```text
//! let Some((head, rows)) = next_line(bytes) else {
//!     return Ok(None);
//! };
//! match read_header(alloc, head)? {
//!     Some(header) => Ok(Some((header, rows))),
//!     None => Ok(None),
//! }
//! ..
//! let Some(row) = read_row(alloc, header.config.world, header.version, bytes)? else {
//!     return Ok(Err(Verdict::BadRecord(number)));
//! };
//! ```
#![tactic(auto)]

pub mod compact;
pub mod header;
pub mod laws;
pub mod line;
pub mod object;
pub mod pairs;
pub mod plain_line;
mod quick_reply;
pub mod record_line;
pub mod reply_text;
pub mod reported;
pub mod rows;
pub mod seals;
pub mod text;

pub use compact::{put_event, put_header, put_line, put_owner, put_reported, put_view};
pub use header::{Header, Version};
pub use laws::{law_of_lines, law_of_seals, law_of_written_records};
pub use line::{Line, Row};
pub use pairs::Pairs;
pub use record_line::{read_header, read_line, read_row};
pub use reply_text::read_reply;
pub use reported::Reported;
pub use rows::next_line;
pub use seals::{LineForm, crc32c, opened_line, put_lines};
pub use text::Text;
