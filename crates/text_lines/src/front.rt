//! The bytes after a prefix.

ghost use Rattle.std.specs.Prelude.{◌≡◌, ◌≢◌, ◌++◌, ◌≤◌, true, false, length, take, IfSome, IfNone};
ghost use Rattle.text_lines.specs.Front.{AreAlike, BeginsOtherwise};

use crate::quick::first_four;

/// Whether the first four bytes of both are the same. `false` means nothing if one of them has fewer.
#[inline(always)]
fn begin_alike(bytes: &[u8], front: &[u8]) -> bool
    ensures yes { result ≡ true → take 4 bytes.now ≡ take 4 front.now }
    ensures no { result ≡ false → 4 ≤ length bytes.now → 4 ≤ length front.now → take 4 bytes.now ≢ take 4 front.now }
{
    let Some(one) = first_four(bytes) else {
        return false;
    };
    let Some(other) = first_four(front) else {
        return false;
    };
    one == other
}

/// Compares four bytes at once, up to the last four of the prefix. Returns how many bytes it compared, or `None` if two
/// differ.
#[inline(always)]
fn alike_by_fours(bytes: &[u8], front: &[u8]) -> Option<usize>
    requires { length front.now ≤ length bytes.now }
    ensures alike { IfSome result (λ at. AreAlike bytes.now front.now at) }
    ensures none { IfNone result (BeginsOtherwise bytes.now front.now) }
{
    let mut at = 0;
    while 4 <= front.len() - at {
        if !begin_alike(&bytes[at..], &front[at..]) {
            return None;
        }
        at += 4;
    }
    Some(at)
}

/// Returns the bytes after a prefix, or `None` if they do not begin with it.
///
/// It compares four bytes at once: a few instructions, and no call, if the prefix is a text of the program.
#[inline(always)]
pub fn after_front<'a>(bytes: &'a [u8], front: &[u8]) -> Option<&'a [u8]>
    ensures rest { IfSome result (λ rest. bytes.now ≡ front.now ++ rest.now) }
    ensures none { IfNone result (BeginsOtherwise bytes.now front.now) }
{
    if bytes.len() < front.len() {
        return None;
    }
    let mut at = alike_by_fours(bytes, front)?;
    while at < front.len() {
        if bytes[at] != front[at] {
            return None;
        }
        at += 1;
    }
    Some(&bytes[at..])
}
