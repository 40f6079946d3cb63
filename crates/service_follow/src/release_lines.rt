//! The lines by which stays end.

ghost use Rattle.std.specs.Prelude.{◌≡◌, ◌++◌, OnOk, IfOk};
ghost use Rattle.std.specs.String.{string_bytes};
ghost use Rattle.service_follow.specs.Releases.{leave_line, lines_of, release_of, search_line, search_lines, searches_for};

use service_hall::Hall;
use std::alloc::{AllocError, Global};

// The line that has an identity leave.
fn leave_line(alloc: Global, id: u64) -> Result<String, AllocError>
    ensures { IfOk result (λ line. string_bytes line ≡ leave_line id) }
{
    format!(in alloc; "leave {id}\n")
}

// The line that has an identity look for a number, in the wide world or in another.
fn search_line(alloc: Global, wide: bool, id: u64) -> Result<String, AllocError>
    ensures { IfOk result (λ line. string_bytes line ≡ search_line wide id) }
{
    if wide {
        format!(in alloc; "seek {id}\n")
    } else {
        format!(in alloc; "probe {id}\n")
    }
}

// How many such lines have an identity hold a number, if it competes.
fn searches_for(hall: &Hall, id: u64) -> u64
    ensures { result ≡ searches_for hall.now id }
{
    let pool = hall.slots().pool();
    match pool.number_of(id) {
        Ok(_) => 0,
        Err(_) => {
            if hall.config().world.is_wide() {
                1
            } else {
                pool.size()
            }
        }
    }
}

// Appends a line so many times.
fn push_searches(lines: &mut Vec<u8>, line: &[u8], count: u64) -> Result<(), AllocError>
    ensures { OnOk result (lines.new.items ≡ lines.old.items ++ search_lines count line.now) }
{
    if count == 0 {
        return Ok(());
    }
    lines.extend_from_slice(line)?;
    push_searches(lines, line, count - 1)
}

// Appends the lines by which the stay of an identity ends.
fn push_release(alloc: Global, lines: &mut Vec<u8>, hall: &Hall, id: u64) -> Result<(), AllocError>
    ensures { OnOk result (lines.new.items ≡ lines.old.items ++ release_of hall.now id) }
{
    let search = search_line(alloc, hall.config().world.is_wide(), id)?;
    push_searches(lines, search.as_bytes(), searches_for(hall, id))?;
    let leave = leave_line(alloc, id)?;
    lines.extend_from_slice(leave.as_bytes())?;
    Ok(())
}

/// Returns the lines by which the stays of these identities end: `leave`, and before it `seek`, or as many `probe` as the pool has
/// numbers, where the identity holds none.
///
/// # Errors
///
/// `AllocError`: an allocation failed.
pub(crate) fn lines_of(alloc: Global, hall: &Hall, ids: &[u64]) -> Result<Vec<u8>, AllocError>
    ensures { IfOk result (λ lines. lines.items ≡ lines_of hall.now ids.now) }
{
    let mut lines = Vec::new(alloc);
    for id in ids {
        push_release(alloc, &mut lines, hall, *id)?;
    }
    Ok(lines)
}
