//! Lines that name an identity with its secret: `take ID SECRET`, and the same behind every other word.

ghost use Rattle.std.specs.Prelude.{◌≡◌, ◌++◌, ◌∷◌, OnOk};
ghost use Rattle.std.specs.List.{list_all};
ghost use Rattle.std.specs.Option.{option_copied};
ghost use Rattle.sha2.specs.Sha256.{sha256};
ghost use Rattle.text_lines.specs.Lines.{pieces_left};
ghost use Rattle.service_loop.specs.OwnerLines.{behind, is_secret, is_of_secret, owned_identity, owned_line, with_secret};

use itoa::Buffer;
use sha2::{Digest, Sha256};
use std::alloc::AllocError;
use text_lines::words::{cut, number};

/// What stands between two words.
const SPACE: u8 = 32;

/// The first of the identities that secrets give.
pub const FIRST_OWNED: u64 = 1 << 63;

/// The fewest bytes of a secret: more than a number has.
pub const LEAST_SECRET: usize = 22;

/// The most bytes of a secret.
pub const MOST_SECRET: usize = 64;

// Whether a byte may stand in a secret: letters, digits, `-` and `_`.
fn is_of_secret(byte: u8) -> bool
    ensures { result ≡ is_of_secret byte }
{
    byte.is_ascii_alphanumeric() || matches!(byte, b'-' | b'_')
}

// Whether all bytes of a word may stand in a secret.
fn is_all_of_secret(word: &[u8]) -> bool
    ensures { result ≡ list_all is_of_secret word.now }
{
    word.iter().all(|byte| is_of_secret(*byte))
}

// Whether a word is a secret.
fn is_secret(word: &[u8]) -> bool
    ensures { result ≡ is_secret word.now }
{
    LEAST_SECRET <= word.len() && word.len() <= MOST_SECRET && is_all_of_secret(word)
}

// The digest of an identity, as a line writes it, and its secret.
fn digest_of(id: &[u8], secret: &[u8]) -> [u8; 32]
    ensures { result ≡ sha256 (id.now ++ 32 ∷ secret.now) }
{
    let mut hasher = Sha256::new();
    hasher.update(id);
    hasher.update(b" ");
    hasher.update(secret);
    hasher.finalize()
}

/// Returns the identity by which the service knows one that has a secret: from 2^63 on, by the first eight bytes of SHA-256 of `ID SECRET`.
pub(crate) fn owned_identity(id: &[u8], secret: &[u8]) -> u64
    ensures { result ≡ owned_identity id.now secret.now }
{
    let digest = digest_of(id, secret);
    let mut first = [0u8; 8];
    first.copy_from_slice(&digest[..8]);
    u64::from_be_bytes(first) % FIRST_OWNED + FIRST_OWNED
}

// Appends a line of these words, with what stands behind them.
#[tactic(auto, using(crate::proofs::OwnerLemmas::behind_rest))]
fn put_words(
    command: &[u8],
    word: &[u8],
    rest: Option<&[u8]>,
    out: &mut Vec<u8>,
) -> Result<(), AllocError>
    ensures { OnOk result (out.new.items ≡ out.old.items ++ (command.now ++ 32 ∷ word.now ++ behind (pieces_left 32 (option_copied rest.entry)))) }
{
    out.extend_from_slice(command)?;
    out.push(SPACE)?;
    out.extend_from_slice(word)?;
    if let Some(rest) = rest {
        out.push(SPACE)?;
        out.extend_from_slice(rest)?;
    }
    Ok(())
}

// Appends a line whose second word is an identity below 2^63: where a secret stands behind that, by the identity that it gives.
fn put_named(
    line: &[u8],
    command: &[u8],
    id: &[u8],
    rest: Option<&[u8]>,
    out: &mut Vec<u8>,
) -> Result<(), AllocError>
    ensures { OnOk result (out.new.items ≡ out.old.items ++ with_secret line.now command.now id.now (pieces_left 32 (option_copied rest.entry))) }
{
    let Some(rest) = rest else {
        return Ok(out.extend_from_slice(line)?);
    };
    let (secret, others) = cut(rest, SPACE);
    if !is_secret(secret) {
        return Ok(out.extend_from_slice(line)?);
    }
    let identity = owned_identity(id, secret);
    put_words(
        command,
        Buffer::new().format(identity).as_bytes(),
        others,
        out,
    )
}

/// Appends a line, without its LF, as it goes to the service: where it names an identity with its secret, the identity that the secret gives stands in
/// their place; and where it names such an identity itself, a word that is no number.
///
/// # Errors
///
/// `AllocError`: an allocation failed. A part of the line may be appended.
pub(crate) fn put_owned(line: &[u8], out: &mut Vec<u8>) -> Result<(), AllocError>
    ensures { OnOk result (out.new.items ≡ out.old.items ++ owned_line line.now) }
{
    let (command, Some(others)) = cut(line, SPACE) else {
        return Ok(out.extend_from_slice(line)?);
    };
    let (word, rest) = cut(others, SPACE);
    match number(word) {
        None => Ok(out.extend_from_slice(line)?),
        Some(id) if FIRST_OWNED <= id => put_words(command, b"-", rest, out),
        Some(_) => put_named(line, command, word, rest, out),
    }
}
