//! Worlds: services that a configuration opens, whose runs satisfy a trace specification.

ghost use Rattle.std.specs.Prelude.{◌≡◌, ◌≢◌, List, Bool, true, IfOk, IfErr};
ghost use Rattle.model_steps.specs.declared.refusal.Refusal.TheVariants as refusal;
ghost use Rattle.model_asked.specs.declared.exchange.Exchange.{Exchange};
ghost use Rattle.model_asked.specs.Replies.{ShownReply};
ghost use Rattle.model_asked.specs.declared.reply.Reply.TheVariants as reply;
ghost use Rattle.model_asked.specs.declared.config.Config.{Config};
ghost use Rattle.model_asked.specs.declared.kind.WorldKind.{WorldKind};
ghost use Rattle.text_player.specs.Knows.{Knows};
ghost use Rattle.text_worlds.specs.Transcripts.{AreOwnersReported};
ghost use Rattle.model_asked.specs.Requests.{Request};
ghost use Rattle.text_player.specs.Runs.{Runs};
ghost use Rattle.text_player.specs.Turns.{Turn, exchanges};

use model_asked::Config;
use model_steps::Refusal;
use text_player::Service;

/// What a splitter, a grid or a desk waits for: nothing, since one caller owns it.
///
/// This crate implements a trait of `text_player` for types of other crates, and so has to name a type of its own: this one.
#[derive(Clone, Copy)]
pub struct Unshared;

/// A world that a configuration opens, whose runs satisfy a trace specification.
pub trait World<A, R>: Service<R> {
    /// The kinds that it serves.
    ghost serves: { WorldKind → Bool };

    /// It is fresh under a configuration.
    ghost fresh: { Config → Self → Type 0 };

    /// The trace specification: the exchanges are a run of a configuration.
    ghost IsRunIn: { Config → List Exchange → Type 0 };

    /// Makes a fresh world, and allocates all that it needs before its first event.
    ///
    /// # Errors
    ///
    /// `NoMemory`: an allocation failed.
    fn open(alloc: A, config: Config) -> Result<Self, Refusal>
        requires { serves config.world ≡ true }
        ensures fresh { IfOk result (λ w. fresh config w) }
        ensures only { IfErr result (λ r. r ≡ Refusal.NoMemory) };

    /// It knows what lines mean of each kind that it serves.
    ghost meant: { (kind : WorldKind) → serves kind ≡ true → Knows Self.knows kind };

    /// The exchanges of a run satisfy the trace specification.
    ghost lawful: { (c : Config) (w u : Self) (ts : List Turn) → fresh c w → Runs Self.may w ts u → IsRunIn c (exchanges ts) };

    /// Each reply to `owner` has the identity that was given the name.
    ghost tells: { (c : Config) (w u : Self) (ts : List Turn) → fresh c w → Runs Self.may w ts u → AreOwnersReported c.m ts };

    /// All that are fresh under one configuration are equal.
    ghost one_fresh: { (c : Config) (w v : Self) → fresh c w → fresh c v → w ≡ v };

    /// If no allocation fails, there is one reply and one next state.
    ghost one_reply: { (w u v : Self) (q : Request) (a b : ShownReply) → Self.may w q a u → Self.may w q b v →
        a ≢ reply.Refused refusal.NoMemory → b ≢ reply.Refused refusal.NoMemory → (a ≡ b) × (u ≡ v) };
}
