//! Runs of worlds in the command language, whose lines and replies are `text_player`'s.
//!
//! `play` reads the commands of a reader, one a line, has a world answer them, and writes the replies, one a line. Its
//! theorem (`IsPlayed`) has these parts:
//!
//! - There is a transcript of the configuration: entries for the lines of the input, in order (`IsTranscript`). Its
//!   events with their replies are a run that the world's objects can answer. Each reply to `owner` has the identity
//!   that was given the name.
//! - The writer has gained the text of the replies, however the bytes were cut. The summary counts them.
//! - `quit` ends the reading. The theorem also says what a read fault, a write fault and an allocation failure leave.
//!
//! `record` plays in a world with names and writes the record of the run in place of the replies: a header, and each
//! event with its reply as a line of JSON (`record_of`). It has the same theorem with that text (`IsRecorded`).
//!
//! A world is a service that is opened from a configuration (`World`). `play_in` plays in any world; `play_on` and
//! `record_on` of `text_player`, which all of this calls, play on any service.
//!
//! From `tests_tool/src/playing_tests.rt`:
//!
//! ```text
//! if case.is_kept && case.config.world.gives_names() {
//!     record(heap, reader, writer, case.config).err()
//! } else {
//!     play(heap, reader, writer, case.config).err()
//! }
//! ..
//! let mut reader = Tried::new(FaultyReader::new(case.input, given, bad_read));
//! let mut writer = Tried::new(FaultyWriter::new(alloc, taken, bad_write, takes_nothing));
//! ..
//! (b"begin 7\nquit\nbegin 8", b"ok\nok\n"),
//! ```
#![tactic(auto)]

pub mod desk;
mod desk_world;
mod grid_world;
pub mod laws;
mod outcomes;
pub mod playing;
pub mod recording;
mod splitter_world;
pub mod world;

pub use laws::{law_of_growths, law_of_play, law_of_world};
pub use model_asked::{Bad, Command, Config, Event, Exchange, Reply, WorldKind};
pub use playing::{play, play_in};
pub use recording::record;
pub use text_player::{
    AsRecord, AsReplies, EVENT_ROOM, Fault, Form, HEADER_ROOM, HELD_REPLIES, LineBuffer,
    MOST_READS, READ_BYTES, REPLY_ROOM, Replies, Responder, Service, Sink, Source, Summary,
    TURN_ROOM, Tried, law_of_lines, law_of_sharing, parse_line, play_on, print_bad, print_event,
    print_header, print_reply, print_words, put_number, put_word, quick_command, quick_number,
    record_on,
};
pub use world::{Unshared, World};
