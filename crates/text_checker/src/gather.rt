//! What is built of the lines that were taken.

ghost use Rattle.std.specs.Prelude.{◌≡◌, true, List, OnOk};
ghost use Rattle.model_asked.specs.declared.config.Config.{Config};
ghost use Rattle.text_records.specs.declared.line.Line.{Line};
ghost use Rattle.text_records.specs.Lines.{IsCanonical};
ghost use Rattle.text_checker.specs.Gathered.{Gathers};

use std::alloc::AllocError;
use text_records::Row;

/// What is built of the lines that can follow those before them.
pub trait Gather {
    /// It is built of these lines, of a record of this configuration.
    ghost is_of: { Config → List Line → Self → Type 0 };

    /// Adds a line, which can follow those before it. It was read of these bytes.
    ///
    /// # Errors
    ///
    /// `AllocError`: the allocation failed. What is built is then of no use.
    fn take(&mut self, row: &Row, bytes: &[u8]) -> Result<(), AllocError>
        requires { row.now.is_canonical ≡ true → IsCanonical bytes.now row.now.line }
        ensures { OnOk result (Gathers is_of row.now.line self.old self.new) };
}

/// Builds nothing.
#[derive(Drop)]
pub struct Nothing;

impl Gather for Nothing {
    ghost is_of = { λ c lines n. Unit {0} };

    #[inline(always)]
    fn take(&mut self, _row: &Row, _bytes: &[u8]) -> Result<(), AllocError> {
        Ok(())
    }
}
