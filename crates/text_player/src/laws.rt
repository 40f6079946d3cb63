//! Laws of transcripts, which run nothing.

ghost use Rattle.std.specs.Prelude.{◌≡◌, ◌++◌, ◌∷◌, [], ℕ, List, Option, Result, true, if◌then◌else◌};
ghost use Rattle.model_asked.specs.declared.bad.Bad.{Bad};
ghost use Rattle.model_asked.specs.declared.command.Command.{Command};
ghost use Rattle.model_asked.specs.declared.kind.WorldKind.{WorldKind};
ghost use Rattle.text_lines.specs.Lines.{lines, whole_lines};
ghost use Rattle.text_player.specs.Asked.{asked_by, asks_quit, until_quit};
ghost use Rattle.text_player.specs.PlayerState.{PlayerState};
ghost use Rattle.text_player.specs.Progress.{Progress, after_bytes, after_end, at_start, ends};
ghost use Rattle.text_player.specs.Shared.{SharedGoesOn};
ghost use Rattle.text_player.specs.Stands.{IsFresh, Stands};
ghost use Rattle.text_player.specs.declared.as_record.TheConstants.{HEADER_ROOM};
ghost use Rattle.text_player.specs.declared.form.TheConstants.{TURN_ROOM};
ghost use Rattle.text_player.specs.declared.playing.TheConstants.{MOST_READS, READ_BYTES};

use crate::form::Form;
use crate::service::Service;

/// A law: if one of the transcripts that share a service goes on, all turns still have one order. In it each transcript
/// has its own turns and no others.
pub fn law_of_sharing<R, D: Service<R>, F: Form>()
    ensures { SharedGoesOn D.may F.text }
{}

/// A law of the requests that bytes make.
///
/// - `joined`: bytes and then more bytes make the requests of both in one list.
/// - `whole`, `quits`, `all`: these are the requests of an input and of its whole lines, up to `quit`.
/// - `begins`: the requests of a prefix of the input are a prefix of its requests.
/// - `ended`, `over`: after `quit` they are all of them, and the end of the input adds none.
pub fn law_of_progress()
    ensures joined { (kind : WorldKind) (p : Progress) (xs ys : List ℕ) → after_bytes kind p (xs ++ ys) ≡ after_bytes kind (after_bytes kind p xs) ys }
    ensures whole { (kind : WorldKind) (bytes : List ℕ) → (after_bytes kind at_start bytes).asked ≡ asked_by kind (whole_lines bytes) }
    ensures quits { (kind : WorldKind) (bytes : List ℕ) → (after_bytes kind at_start bytes).over ≡ asks_quit (asked_by kind (whole_lines bytes)) }
    ensures all { (kind : WorldKind) (bytes : List ℕ) → (after_end kind (after_bytes kind at_start bytes)).asked ≡ asked_by kind (lines bytes) }
    ensures begins { (kind : WorldKind) (bytes xs ys : List ℕ) → bytes ≡ xs ++ ys →
        (more : List (Result Command Bad)) × (asked_by kind (lines bytes) ≡ (after_bytes kind at_start xs).asked ++ more) }
    ensures ended { (kind : WorldKind) (bytes xs ys : List ℕ) → bytes ≡ xs ++ ys → (after_bytes kind at_start xs).over ≡ true →
        asked_by kind (lines bytes) ≡ (after_end kind (after_bytes kind at_start xs)).asked }
    ensures over { (kind : WorldKind) (p : Progress) → p.over ≡ true → after_end kind p ≡ p }
    ensures first { (m : Result Command Bad) (ms : List (Result Command Bad)) → until_quit (m ∷ ms) ≡ m ∷ (if ends m then [] else until_quit ms) }
{}

/// A law: a fresh player has answered nothing, and its writer has gained nothing.
pub fn law_of_fresh_players<R, D: Service<R>, F: Form>()
    ensures { (start : D) (kind : WorldKind) (s : PlayerState) (before : Option (List ℕ)) →
        IsFresh kind s → Stands D.may F.text start start s at_start before before }
{}

/// A law, which runs nothing: how often `play` reads at most, how many bytes a read gives, and how many a header and an answered line have.
pub fn law_of_limits()
    ensures reads { MOST_READS ≡ 1099511627776 }
    ensures read { READ_BYTES ≡ 65536 }
    ensures header { HEADER_ROOM ≡ 135 }
    ensures turn { TURN_ROOM ≡ 5460 }
{}
