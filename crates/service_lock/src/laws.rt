//! Laws of the callers of a lock, which run nothing.

ghost use Rattle.std.specs.Prelude.{◌≡◌, ℕ, List, false};
ghost use mathlib.Core.List.{IsPrefix};
ghost use Rattle.model_steps.specs.declared.refusal.Refusal.{Refusal};
ghost use Rattle.model_asked.specs.declared.config.Config.{Config};
ghost use Rattle.model_asked.specs.declared.event.Event.{Event};
ghost use Rattle.model_asked.specs.declared.reply.Reply.{Reply};
ghost use Rattle.model_asked.specs.declared.reply.Reply.TheVariants.{Refused};
ghost use Rattle.model_asked.specs.Replies.{ShownReply, is_refusal, with_view};
ghost use Rattle.service_lock.specs.CallerState.{CallerState};
ghost use Rattle.service_lock.specs.Kepts.{IsSound, IsTaken};
ghost use Rattle.text_player.specs.Runs.{Runs};
ghost use Rattle.text_player.specs.Turns.{Turn, exchanges};
ghost use Rattle.service_lock.specs.Serving.{ClerkServes, KeepsAccepted};

/// A law: a caller that was answered has seen a lawful history that extends what it had seen, and all that it has kept
/// is in it.
///
/// A short reply that is no refusal is accepted.
pub fn law_of_answered_callers()
    ensures sound { (c : Config) (s t : CallerState) (e : Event) (r : ShownReply) → IsTaken c s e r t → IsSound c t }
    ensures seen { (c : Config) (s t : CallerState) (e : Event) (r : ShownReply) → IsTaken c s e r t → IsPrefix s.seen t.seen }
    ensures accepted { (r : Reply (Unit {0})) (view : List (ℕ × ℕ)) → ((why : Refusal) → r ≡ Refused why → ⊥) → is_refusal (with_view r view) ≡ false }
{}

/// A law of a clerk as a service: it keeps the accepted events with their replies, in order.
pub fn law_of_clerks()
    ensures kept { (c : Config) (s t : CallerState) (ts : List Turn) → IsSound c s → Runs (ClerkServes c) s ts t → KeepsAccepted s.kept (exchanges ts) t.kept }
{}
