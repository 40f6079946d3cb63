//! Judges a list of lines.

ghost use Rattle.std.specs.Prelude.{◌≡◌, ◌≤◌, ◌↔◌, length, IfOk, None};
ghost use Rattle.text_worlds.specs.desk.Start.{pool_start};
ghost use Rattle.text_checker.specs.Config.{terms_of};
ghost use Rattle.text_checker.specs.Lines.{AreLinesOfRun};
ghost use Rattle.text_checker.specs.Judged.{IsFirstFaultOrNone};

use crate::checker::Checker;
use crate::reason::Reason;
use model_asked::Config;
use std::alloc::{AllocError, Global};
use text_records::Line;

/// Returns the index, from 0, of the first line that cannot follow those before it, with the least reason that fits.
///
/// Returns `None` if and only if the lines are those of a run of this configuration. There are at most a million lines.
///
/// # Errors
///
/// `AllocError`: the allocation failed.
pub fn first_fault(
    alloc: Global,
    config: Config,
    lines: &[Line],
) -> Result<Option<(usize, Reason)>, AllocError>
    requires { length lines.now ≤ 1000000 }
    ensures fault { IfOk result (IsFirstFaultOrNone (terms_of config) (pool_start config) lines.now) }

    // None is found if and only if the lines are those of a run.
    ensures none { IfOk result (λ r. (r ≡ None) ↔ AreLinesOfRun (terms_of config) (pool_start config) lines.now) }
{
    let mut checker = Checker::new(alloc, config, lines.len())?;
    for (i, line) in lines.iter().enumerate() {
        if let Some(reason) = checker.judge(line)? {
            return Ok(Some((i, reason)));
        }
    }
    Ok(None)
}
