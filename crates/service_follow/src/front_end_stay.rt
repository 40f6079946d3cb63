//! Who keeps a stay in the pool, as a log tells.

ghost use Rattle.std.specs.Prelude.{◌≡◌, ℕ, List, true};
ghost use Rattle.model_asked.specs.Replies.{with_view};
ghost use Rattle.service_follow.specs.Kept.{enters, heard, leaves, token_of};

use model_asked::Reply;
use model_steps::Refusal;

/// How many bytes the token of a front end has, with which its entries begin.
pub const TOKEN: usize = 32;

/// A stay in the pool, and which front end keeps it.
#[derive(Clone, Copy, Debug, Drop)]
pub struct FrontEndStay {
    /// The identity that stays.
    pub identity: u64,
    /// The token of the front end at which `enter` was said of it last, and was answered `ok` or `refused 9`.
    pub token: [u8; 32],
    /// How many entries had been applied before the last one of that front end.
    pub last: u64,
}

impl FrontEndStay {
    /// An entry of a front end was applied behind so many others.
    pub(crate) fn hear(&mut self, token: &[u8; 32], place: u64)
        ensures { self.new ≡ heard token.now place self.old }
    {
        if self.token == *token {
            self.last = place;
        }
    }
}

/// Returns the first bytes of an entry, the token of its front end; zeros of one that is shorter.
pub(crate) fn token_of(entry: &[u8]) -> [u8; 32]
    ensures { result ≡ token_of entry.now }
{
    let mut token = [0u8; 32];
    if TOKEN <= entry.len() {
        token.copy_from_slice(&entry[..TOKEN]);
    }
    token
}

// Returns true only if two stays are the same.
fn is_same(stay: &FrontEndStay, other: &FrontEndStay) -> bool
    ensures { result ≡ true → stay.now ≡ other.now }
{
    if stay.token != other.token {
        return false;
    }
    if stay.identity != other.identity {
        return false;
    }
    stay.last == other.last
}

/// Returns true only if two lists of stays are the same.
pub(crate) fn are_same(kept: &[FrontEndStay], other: &[FrontEndStay]) -> bool
    ensures { result ≡ true → kept.now ≡ other.now }
{
    if kept.len() != other.len() {
        return false;
    }
    for (i, stay) in kept.iter().enumerate() {
        if !is_same(stay, &other[i]) {
            return false;
        }
    }
    true
}

/// Returns true if and only if the reply to `enter` says that the identity competes.
pub(crate) fn enters(reply: Reply<()>) -> bool
    ensures { (view : List (ℕ × ℕ)) → result ≡ enters (with_view reply view) }
{
    matches!(reply, Reply::Ok | Reply::Refused(Refusal::AlreadyCompeting))
}

/// Returns true if and only if the reply to `leave` says that the identity competes no more.
pub(crate) fn leaves(reply: Reply<()>) -> bool
    ensures { (view : List (ℕ × ℕ)) → result ≡ leaves (with_view reply view) }
{
    matches!(reply, Reply::Left(_))
}
