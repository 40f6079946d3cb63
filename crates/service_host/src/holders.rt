//! Who holds numbers by the record of a hall.

ghost use Rattle.std.specs.Prelude.{IfOk, IfSome, OnOk, ◌≡◌, ◌++◌, ◌≤◌, ◌+◌, []};
ghost use Rattle.text_lines.specs.Lines.{rest_of};
ghost use Rattle.text_records.specs.Seals.{lines_in};
ghost use Rattle.text_records.specs.declared.seals.LineForm.TheVariants.{Plain};
ghost use Rattle.std.specs.Io.KnownBytes.{Appends};
ghost use Rattle.text_lines.specs.held.Held.{all_held, lines_behind};
ghost use Rattle.text_worlds.specs.desk.Held.{slots_of};
ghost use Rattle.service_hall.specs.Halls.{desk_of};
ghost use Rattle.service_host.specs.Holders.{IsOfHall, TellsHolders};

use crate::failure::HostFailure;
use model_asked::Config;
use model_pool::slots::Slots;
use service_hall::Hall;
use service_journal::opening::recovered;
use std::alloc::Global;
use std::io::{Read, Write};
use text_player::{Replies, print_header};
use text_records::{LineForm, Text, put_lines, read_header};

/// What ends a line.
const LF: u8 = 10;

// All that a reader gives.
fn read_all<R: Read>(alloc: Global, input: &mut R) -> Result<Vec<u8>, HostFailure>
    ensures { IfOk result (λ bytes. IfSome (R.remaining input.old) (λ xs. bytes.items ≡ xs)) }
{
    let mut bytes = Vec::new(alloc);
    match input.read_to_end(&mut bytes) {
        Ok(_) => Ok(bytes),
        Err(_) => Err(HostFailure::Input),
    }
}

/// Returns the config that the first line of a record says.
///
/// # Errors
///
/// - `BadRecord`: it is no first line of a record.
/// - `Memory`: an allocation failed.
pub(crate) fn config_of(alloc: Global, bytes: &[u8]) -> Result<Config, HostFailure> {
    let end = bytes.iter().position(|byte| *byte == LF).unwrap_or(0);
    match read_header(alloc, &bytes[..end.min(bytes.len())]) {
        Ok(Some(header)) => Ok(header.config),
        Ok(None) => Err(HostFailure::BadRecord(1)),
        Err(_) => Err(HostFailure::Memory),
    }
}

// The lines of a record, each without its checksum, and what follows the last of them.
fn plain_text(alloc: Global, bytes: &[u8]) -> Result<Text, HostFailure>
    ensures { IfOk result (λ text. text ≡ lines_in Plain bytes.now ++ rest_of bytes.now) }
{
    let mut text = Text::new(alloc);
    let rest = put_lines(LineForm::Plain, bytes, &mut text)?;
    text.put(rest)?;
    Ok(text)
}

// The hall whose record these bytes are, once a torn last line is cut.
fn recorded_hall(alloc: Global, bytes: &[u8]) -> Result<Hall, HostFailure>
    ensures { IfOk result (λ h. IsOfHall h bytes.now) }
{
    let text = plain_text(alloc, bytes)?;
    let bytes = text.as_slice();
    let config = config_of(alloc, bytes)?;
    let mut header = Replies::new(alloc)?;
    print_header(config, &mut header);
    match recovered(alloc, config, header.as_slice(), bytes) {
        Ok((hall, _)) => Ok(hall),
        Err(fault) => Err(HostFailure::from(fault)),
    }
}

// Writes the lines of so many numbers behind this one that are held.
fn write_page<W: Write>(
    slots: &Slots<u64, Global>,
    before: u32,
    count: u32,
    text: &mut Replies<Global>,
    output: &mut W,
) -> Result<(), HostFailure>
    requires few { (count ≤ 64) × (before + count ≤ 65536) }
    requires empty { text.old ≡ [] }
    ensures empty { text.new ≡ [] }
    ensures written { OnOk result (Appends (W.contents output.old) (W.contents output.new) (lines_behind slots.now before count)) }
{
    text_lines::held::put_lines(slots, before, count, text);
    let written = output.write_all(text.as_slice());
    text.clear();
    match written {
        Ok(()) => Ok(()),
        Err(_) => Err(HostFailure::Output),
    }
}

// Writes who holds numbers in a hall.
fn write_held<W: Write>(alloc: Global, hall: &Hall, output: &mut W) -> Result<(), HostFailure>
    ensures { OnOk result (Appends (W.contents output.old) (W.contents output.new) (all_held (slots_of (desk_of hall.now)))) }
{
    let slots = hall.slots();
    let size = slots.pool().size() as u32;
    let mut text = Replies::new(alloc)?;
    let mut told = 0;
    while told < size {
        let count = (size - told).min(64);
        write_page(slots, told, count, &mut text, output)?;
        told += count;
    }
    match output.write_all(b"ok\n") {
        Ok(()) => Ok(()),
        Err(_) => Err(HostFailure::Output),
    }
}

/// Writes who holds numbers in the hall whose record a reader gives, as `held` is answered of that hall, all in one page: a last line that was cut off is dropped,
/// as at the opening of a journal.
///
/// # Errors
///
/// Nothing was written where it is another than `HostFailure::Output`: `Input` where the reader failed, `BadRecord`, `No` and the others of
/// an opening (`OpenFault`) where what it gave is no record that a server writes, `Memory` where a growth was refused.
pub fn write_holders<R: Read, W: Write>(
    alloc: Global,
    input: &mut R,
    output: &mut W,
) -> Result<(), HostFailure>
    ensures { OnOk result (TellsHolders (R.remaining input.old) (W.contents output.old) (W.contents output.new)) }
{
    let bytes = read_all(alloc, input)?;
    let hall = recorded_hall(alloc, &bytes)?;
    write_held(alloc, &hall, output)
}
