//! Judges the event lines of a record one by one.

ghost use Rattle.std.specs.Prelude.{◌≡◌, [], IfOk};
ghost use Rattle.text_checker.specs.Stages.{HasJudged, JudgesRow};

use crate::Checker;
use crate::record::taken;
use crate::verdict::Verdict;
use std::alloc::{AllocError, Global};
use text_records::Header;

/// Judges the event lines of a record one by one.
#[derive(Drop)]
pub struct RowJudge {
    header: Header,
    checker: Checker,
    number: u64,
}

impl RowJudge {
    /// Makes a judge that has judged no event line of a record with this header.
    ///
    /// # Errors
    ///
    /// `AllocError`: the allocation failed.
    pub fn new(alloc: Global, header: Header) -> Result<RowJudge, AllocError>
        ensures { IfOk result (λ j. (j.header ≡ header) × HasJudged j []) }
    {
        let checker = Checker::new(alloc, header.config, 0)?;
        Ok(RowJudge {
            header,
            checker,
            number: 2,
        })
    }

    /// Judges one more line, without its LF. Returns the verdict on the record if this line is the first at fault.
    ///
    /// After a verdict or an error the judge is of no use.
    ///
    /// # Errors
    ///
    /// `AllocError`: the allocation failed.
    pub fn take(&mut self, alloc: Global, row: &[u8]) -> Result<Option<Verdict>, AllocError>
        ensures { IfOk result (λ said. JudgesRow self.old row.now said self.new) }
    {
        match taken(alloc, self.header, self.number, row, &mut self.checker)? {
            Ok(_) => {}
            Err(verdict) => return Ok(Some(verdict)),
        }
        self.number += 1;
        Ok(None)
    }
}
