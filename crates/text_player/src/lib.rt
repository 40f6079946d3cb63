//! One side of a transcript in the command language (`text_lines`): it takes lines of text, and returns replies,
//! over any service.
//!
//! A `Service` answers events, and questions for the owner of a name, as its relation `may` allows. A *turn* is a line
//! with its answer. A *transcript* is the list of turns of one side.
//!
//! `Responder` is one side of a transcript. It takes lines, has a service answer them, and appends the replies to a
//! buffer that its caller lends. So many of them can share one service (`law_of_sharing`). `Player` is a responder with
//! its replies. It takes bytes, however they are cut, and writes the answers (`AdvancesWriting`). A type parameter says
//! how a turn is written (`Form`): as a reply (`AsReplies`), or in a record as a line of JSON (`AsRecord`).
//!
//! `play_on` plays a whole input. It reads commands, a line each, has a service answer them, and writes the replies, a
//! line each. Its theorem is `IsPlayed`:
//!
//! - There are turns to the lines of the input, in order. By them the service went from its old state to its new one.
//! - The writer has gained the text of their answers, however the bytes were cut. The summary counts them.
//! - `quit` ends the reading. If the call succeeds, no read and no write failed.
//! - A read fault, a write fault and an allocation failure each leave a state that the theorem states.
//!
//! `record_on` plays as well, and writes the record of the run in place of the replies: a header, and each event with
//! its reply (`record_of`). It has the same theorem with that text (`IsRecordedOn`).
//!
//! From `text_player/src/playing.rt`, of a service that is there:
//!
//! ```text
//! player.feed(rt, world, &chunk[..count], writer)?;
//! if player.is_over() {
//!     return Ok(player.summary());
//! }
//! ```
//!
//! From `text_worlds/src/playing.rt`, which plays an input:
//!
//! ```text
//! let mut world = opened::<D, H, A>(&alloc, config)?;
//! play_on(alloc, rt, &mut world, config.world, reader, writer)
//! ```
#![tactic(auto)]

pub mod as_record;
pub mod as_replies;
pub mod form;
pub mod laws;
pub mod player;
pub mod playing;
pub mod recording;
pub mod responder;
pub mod service;
pub mod source;
pub mod summary;
pub mod tried;

pub use as_record::{AsRecord, HEADER_ROOM, print_header};
pub use as_replies::AsReplies;
pub use form::{Form, TURN_ROOM};
pub use laws::{law_of_fresh_players, law_of_limits, law_of_progress, law_of_sharing};
pub use model_asked::{Bad, Command, Config, Event, Exchange, Reply, WorldKind};
pub use playing::{MOST_READS, READ_BYTES, play_on};
pub use recording::record_on;
pub use responder::Responder;
pub use service::Service;
pub use source::Source;
pub use summary::Summary;
pub use text_lines::{
    EVENT_ROOM, Fault, HELD_REPLIES, LineBuffer, REPLY_ROOM, Replies, Sink, after_front,
    law_of_lines, parse_line, print_bad, print_event, print_reply, print_words, put_number,
    put_word, quick_command, quick_number,
};
pub use tried::Tried;
