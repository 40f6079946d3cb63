//! Laws of a hall, which run nothing.

ghost use Rattle.std.specs.Prelude.{◌≡◌, ◌<◌, ◌≤◌, ◌++◌, [], ◌∷◌, ℕ, List, length, None, true, false};
ghost use Rattle.model_asked.specs.Config.{gives_names};
ghost use Rattle.model_asked.specs.Replies.{ShownReply, is_refusal};
ghost use Rattle.model_asked.specs.declared.config.Config.{Config};
ghost use Rattle.model_asked.specs.declared.event.Event.{Event};
ghost use Rattle.model_asked.specs.declared.exchange.Exchange.{Exchange};
ghost use Rattle.text_worlds.specs.desk.Desk.{desk_reply};
ghost use Rattle.text_worlds.specs.desk.DeskRun.{IsDeskRunOf};
ghost use Rattle.text_worlds.specs.IsTranscript.{IsTranscript};
ghost use Rattle.text_player.specs.Runs.{Runs};
ghost use Rattle.text_player.specs.Turns.{Turn, exchanges};
ghost use Rattle.text_player.specs.Turns.Turn.{Answered};
ghost use Rattle.service_hall.specs.GoesOn.{GoesOn};
ghost use Rattle.service_hall.specs.Halls.{SatisfiesSpec, HallMay, desk_of, hall_of, hall_refusal};
ghost use Rattle.service_hall.specs.HallState.{HallState};
ghost use Rattle.service_hall.specs.Raising.{value_at};
ghost use Rattle.service_hall.specs.Reading.{GaveToken, IsRead, Serves, admitted, stored, way_of};
ghost use Rattle.service_hall.specs.Serving.{HallServes, HasServed, accepted, wants_room, with_room};

use crate::hall::Hall;
use crate::rules::{Rules, Way};
use model_asked::{Event, Reply};
use model_steps::Refusal;

/// A law: the history of a hall is a run of the renaming object, the pool and the slots, each fresh at first.
pub fn law_of_hall(hall: &Hall)
    ensures run { IsDeskRunOf hall.now.config hall.now.history }
{
    let _ = hall.len();
}

/// A law of each event that a hall applies, and of its reply.
///
/// - An accepted event leaves a hall of the same config that satisfies the specification. Its history has gained the
///   event with its reply, and nothing else.
/// - A refused event leaves the hall as it was.
/// - A participant begins with the reply `ok` alone.
/// - If a hall refuses an event for no reason, its history has room for one more.
pub fn law_of_events()
    ensures goes_on { (h u : HallState) (e : Event) (r : ShownReply) → SatisfiesSpec h → HallMay h e r u → GoesOn h e r u }
    ensures refused { (h u : HallState) (e : Event) (r : ShownReply) → SatisfiesSpec h → HallMay h e r u → is_refusal r ≡ true → u ≡ h }
    ensures begins { (h u : HallState) (id : ℕ) (r : ShownReply) → HallMay h (Event.Begin id) r u → is_refusal r ≡ false → r ≡ Reply.Ok }
    ensures room { (h : HallState) (e : Event) → hall_refusal h e ≡ None → length h.history < 1000000 }
{}

/// A law of a hall as a service.
///
/// - `transcript`: the turns from a hall with no event are a transcript of its config. Turns whose reply is `NoMemory`
///   or `HistoryFull` are left out.
/// - `history`: the history gains the accepted events with their replies.
pub fn law_of_serving()
    ensures transcript { (c : Config) → gives_names c.world ≡ true → (u : HallState) (ts : List Turn) → HasServed c ts u → IsTranscript c (with_room ts) }
    ensures history { (h u : HallState) (ts : List Turn) → SatisfiesSpec h → Runs HallServes h ts u → u.history ≡ h.history ++ accepted (exchanges ts) }
{}

/// A law of a hall as a service by rules (`Hall::serve_short`): its reads are logged or plain, and what the rules bar is refused.
///
/// - `transcript`: the turns from a hall with no event are a transcript of its config, with all reads in it. Turns
///   that are barred, or whose reply is `NoMemory` or `HistoryFull`, are left out. A `put` that gave a token stands there as
///   the `put` of the token, and one that gave none is left out.
/// - `without`: the turns without plain reads and what is barred are those of a hall that stores reads, and lead to the same hall.
/// - `history`: the history gains the accepted events with their replies, without plain reads.
/// - `replies`: each plain read has the reply of the desk that the turns before it led to.
/// - `barred`: what is barred is refused with `OutOfRange`, and the turns without it lead to the same hall.
/// - `alike`: a hall that stores a read returns the same reply, unless it is `NoMemory` or `HistoryFull`.
pub fn law_of_reads()
    ensures transcript { (rules : Rules) (c : Config) → gives_names c.world ≡ true → (u : HallState) (ts : List Turn) →
        Runs (Serves rules) (hall_of c []) ts u → IsTranscript c (with_room (admitted rules ts)) }
    ensures without { (rules : Rules) (h u : HallState) (ts : List Turn) → Runs (Serves rules) h ts u → Runs HallServes h (stored rules ts) u }
    ensures history { (rules : Rules) (h u : HallState) (ts : List Turn) → SatisfiesSpec h → Runs (Serves rules) h ts u →
        u.history ≡ h.history ++ accepted (exchanges (stored rules ts)) }
    ensures replies { (rules : Rules) (h u : HallState) (before behind : List Turn) (x : Exchange) (id : ℕ) → way_of rules x.event ≡ Way.Read id →
        Runs (Serves rules) h (before ++ Answered x ∷ behind) u → IsRead rules h before id x.reply }
    ensures barred { (rules : Rules) (h u : HallState) (before behind : List Turn) (x : Exchange) → way_of rules x.event ≡ Way.Barred →
        Runs (Serves rules) h (before ++ Answered x ∷ behind) u → (x.reply ≡ Reply.Refused Refusal.OutOfRange) × Runs (Serves rules) h (before ++ behind) u }
    ensures alike { (h u : HallState) (id : ℕ) (r : ShownReply) → SatisfiesSpec h → HallMay h (Event.Get id) r u → wants_room r ≡ false →
        r ≡ desk_reply (desk_of h) (Event.Get id) }
{}

/// A law of a hall that gives tokens (`Rules::tokens`): a client's `put` puts one more than the slot has, and is told it.
///
/// - `rising`: no slot ever has less than before.
/// - `above`: a token is above all that its slot had since the first turn, and the slot has had no less since.
pub fn law_of_raises()
    ensures rising { (rules : Rules) → rules.tokens ≡ true → (h u : HallState) (ts : List Turn) (number : ℕ) → 1 ≤ number → SatisfiesSpec h →
        Runs (Serves rules) h ts u → value_at h number ≤ value_at u number }
    ensures above { (rules : Rules) → rules.tokens ≡ true → (h u : HallState) (before behind : List Turn) (x : Exchange) (id token : ℕ) → SatisfiesSpec h →
        way_of rules x.event ≡ Way.Raised id → x.reply ≡ Reply.Value token → Runs (Serves rules) h (before ++ Answered x ∷ behind) u →
        GaveToken rules h before id token behind u }
{}
