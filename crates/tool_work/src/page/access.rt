//! The accesses of a run, in words, and what follows of them.

ghost use Rattle.std.specs.Prelude.{◌≡◌, ◌++◌, ◌==◌, OnOk, Some, decimal, position};
ghost use Rattle.tool_work.specs.page.Access.{access_words, held_at, place_in, register_at, register_words, with_place, with_reached};

use itoa::Buffer;
use model_steps::Place;
use std::alloc::{AllocError, Global};
use text_records::Text;
use text_worlds::desk::{Coming, Desk, Register};

/// Appends a word with its space, and the number of a place.
pub(crate) fn put_word_of_place(word: &[u8], place: Place, out: &mut Text) -> Result<(), AllocError>
    ensures { OnOk result (out.new ≡ out.old ++ (word.now ++ decimal place)) }
{
    out.put(word)?;
    out.put(Buffer::new().format(place).as_bytes())
}

/// Appends the words of a register.
pub(crate) fn put_register(register: Register, out: &mut Text) -> Result<(), AllocError>
    ensures { OnOk result (out.new ≡ out.old ++ register_words register) }
{
    match register {
        Register::X(place) => put_word_of_place(b"X ", place, out),
        Register::Y(place) => put_word_of_place(b"Y ", place, out),
        Register::Mark(place) => put_word_of_place(b"mark ", place, out),
        Register::Segment(place) => put_word_of_place(b"segment ", place, out),
    }
}

/// Appends the words of an access, and nothing where there is none.
pub(crate) fn put_access(access: Option<Coming>, out: &mut Text) -> Result<(), AllocError>
    ensures { OnOk result (out.new ≡ out.old ++ access_words access) }
{
    match access {
        None => Ok(()),
        Some(Coming::Nothing) => Ok(()),
        Some(Coming::Read(register)) => {
            out.put(b"read ")?;
            put_register(register, out)
        }
        Some(Coming::Write(register, word)) => {
            out.put(b"write ")?;
            put_register(register, out)?;
            out.put_word(b" ", word)
        }
    }
}

/// The register that an access reaches.
fn register_at(access: Option<Coming>) -> Option<Register>
    ensures { result ≡ register_at access }
{
    match access {
        None => None,
        Some(Coming::Nothing) => None,
        Some(Coming::Read(register)) => Some(register),
        Some(Coming::Write(register, _)) => Some(register),
    }
}

/// What stands in the register that an access reaches.
pub(crate) fn held_at(desk: &Desk<Global>, access: Option<Coming>) -> Option<u64>
    ensures { result ≡ held_at desk.now access }
{
    desk.held(register_at(access)?)
}

/// The place of a register.
fn place_in(register: Register) -> Place
    ensures { result ≡ place_in register }
{
    match register {
        Register::X(place) => place,
        Register::Y(place) => place,
        Register::Mark(place) => place,
        Register::Segment(place) => place,
    }
}

/// Where a place stands among these.
fn find_place(places: &[Place], place: Place) -> Option<usize>
    ensures { result ≡ position (λ one. one == place) places.now }
{
    places.iter().position(|one| *one == place)
}

/// Keeps a place, once. An error where a growth was refused.
fn keep_place(place: Place, places: &mut Vec<Place>) -> Result<(), AllocError>
    ensures { OnOk result (places.new.items ≡ with_place places.old.items (Some place)) }
{
    if find_place(places.as_slice(), place).is_some() {
        return Ok(());
    }
    places.push(place).map_err(AllocError::from)
}

/// Keeps the place that an access reaches, once. An error where a growth was refused.
pub(crate) fn keep_reached(
    access: Option<Coming>,
    places: &mut Vec<Place>,
) -> Result<(), AllocError>
    ensures { OnOk result (places.new.items ≡ with_reached places.old.items access) }
{
    match register_at(access) {
        None => Ok(()),
        Some(register) => keep_place(place_in(register), places),
    }
}
