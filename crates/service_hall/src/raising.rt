//! Tokens that are told to those who put them.

ghost use Rattle.std.specs.Prelude.{◌≡◌, ℕ, List};
ghost use Rattle.model_asked.specs.Replies.{with_view};
ghost use Rattle.service_hall.specs.Raising.{token_reply};

use model_asked::Reply;

/// Returns what a client is told whose `put` of a token was answered so: the token, if it was put.
pub fn token_reply(token: u64, reply: Reply<()>) -> Reply<()>
    ensures { (view : List (ℕ × ℕ)) → with_view result view ≡ token_reply token (with_view reply view) }
{
    match reply {
        Reply::Ok => Reply::Value(token),
        other => other,
    }
}
