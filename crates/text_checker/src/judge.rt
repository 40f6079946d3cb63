//! Judges a record whose bytes are given part by part.

ghost use Rattle.std.specs.Prelude.{◌≡◌, ℕ, List, [], ◌∷◌, ◌++◌, IfOk, OnOk, map};
ghost use Rattle.text_records.specs.Seals.{opened_line};
ghost use Rattle.text_checker.specs.Stages.{HasTakenAll, StandsAfter};
ghost use Rattle.text_records.specs.Records.{record_lines};
ghost use Rattle.text_lines.specs.Lines.{unless_empty};
ghost use Rattle.text_checker.specs.Verdict.{IsSaid};

use crate::row_judge::RowJudge;
use crate::verdict::Verdict;
use std::alloc::{AllocError, Global};
use text_lines::words::cut;
use text_records::{opened_line, read_header};

/// How far the lines of a record are judged.
#[derive(Drop)]
pub enum JudgeStage {
    /// There is no line yet.
    Opening,
    /// The lines so far can follow one another.
    Judging(RowJudge),
    /// The verdict is known, whatever lines follow.
    Over(Verdict),
}

/// Judges a record whose bytes are given part by part. It holds the state of the objects and the bytes of the present
/// line.
#[derive(Drop)]
pub struct Judge {
    alloc: Global,
    held: Vec<u8>,
    stage: JudgeStage,
}

// The stage after the first line.
fn opened(alloc: Global, line: &[u8]) -> Result<JudgeStage, AllocError>
    ensures { IfOk result (StandsAfter (line.now ∷ [])) }
{
    match read_header(alloc, line)? {
        Some(header) => Ok(JudgeStage::Judging(RowJudge::new(alloc, header)?)),
        None => Ok(JudgeStage::Over(Verdict::BadRecord(1))),
    }
}

// Takes the first line. It is a function of its own, since the new stage is a kilobyte, for which each line would clear room.
#[inline(never)]
fn take_first(alloc: Global, stage: &mut JudgeStage, line: &[u8]) -> Result<(), AllocError>
    ensures { OnOk result (StandsAfter (line.now ∷ []) stage.new) }
{
    *stage = opened(alloc, line)?;
    Ok(())
}

// Stores a verdict. It is a function of its own for the same reason.
#[inline(never)]
fn conclude(stage: &mut JudgeStage, verdict: Verdict)
    ensures { stage.new ≡ JudgeStage.Over verdict }
{
    *stage = JudgeStage::Over(verdict);
}

// Judges one more line, without its LF.
fn judge_line(alloc: Global, stage: &mut JudgeStage, line: &[u8]) -> Result<(), AllocError>
    ensures { OnOk result ((lines : List (List ℕ)) → StandsAfter lines stage.old → StandsAfter (lines ++ line.now ∷ []) stage.new) }
{
    match stage {
        JudgeStage::Opening => take_first(alloc, stage, line),
        JudgeStage::Judging(judge) => match judge.take(alloc, line)? {
            Some(verdict) => {
                conclude(stage, verdict);
                Ok(())
            }
            None => Ok(()),
        },
        JudgeStage::Over(_) => Ok(()),
    }
}

// The same of a line as it stands in the record, which may be sealed.
#[inline(always)]
fn judge_row(alloc: Global, stage: &mut JudgeStage, line: &[u8]) -> Result<(), AllocError>
    ensures { OnOk result ((lines : List (List ℕ)) → StandsAfter lines stage.old → StandsAfter (lines ++ opened_line line.now ∷ []) stage.new) }
{
    judge_line(alloc, stage, opened_line(line))
}

// The verdict if no line follows.
fn verdict_of(stage: &JudgeStage) -> Verdict
    ensures { (lines : List (List ℕ)) → StandsAfter lines stage.now → IsSaid lines result }
{
    match stage {
        JudgeStage::Opening => Verdict::BadRecord(1),
        JudgeStage::Judging(_) => Verdict::Yes,
        JudgeStage::Over(verdict) => *verdict,
    }
}

impl Judge {
    /// Makes a judge that has taken no byte. This allocates nothing.
    pub fn new(alloc: Global) -> Judge
        ensures { HasTakenAll [] result }
    {
        Judge {
            alloc,
            held: Vec::new(alloc),
            stage: JudgeStage::Opening,
        }
    }

    // Judges a line at its end.
    fn end_line(&mut self, line: &[u8]) -> Result<(), AllocError>
        ensures held { OnOk result (self.new.held.items ≡ []) }
        ensures stands { OnOk result ((lines : List (List ℕ)) → StandsAfter lines self.old.stage →
            StandsAfter (lines ++ opened_line (self.old.held.items ++ line.now) ∷ []) self.new.stage) }
    {
        if self.held.is_empty() {
            return judge_row(self.alloc, &mut self.stage, line);
        }
        self.held.extend_from_slice(line)?;
        let judged = judge_row(self.alloc, &mut self.stage, &self.held);
        self.held.clear();
        judged
    }

    /// Takes more bytes of the record, and judges the lines that end in them.
    ///
    /// # Errors
    ///
    /// `AllocError`: the allocation failed. The judge is then of no use.
    pub fn take(&mut self, bytes: &[u8]) -> Result<(), AllocError>
        ensures { OnOk result ((seen : List ℕ) → HasTakenAll seen self.old → HasTakenAll (seen ++ bytes.now) self.new) }
    {
        let mut left = Some(bytes);
        while let Some(bytes) = left {
            let (line, rest) = cut(bytes, b'\n');
            match rest {
                Some(_) => self.end_line(line)?,
                None => self.held.extend_from_slice(line)?,
            }
            left = rest;
        }
        Ok(())
    }

    // Judges the end of the record: the bytes before it with no LF are a line too, if there are any.
    fn end_last(&mut self) -> Result<(), AllocError>
        ensures { OnOk result ((lines : List (List ℕ)) → StandsAfter lines self.old.stage →
            StandsAfter (lines ++ map opened_line (unless_empty self.old.held.items)) self.new.stage) }
    {
        if self.held.is_empty() {
            return Ok(());
        }
        judge_row(self.alloc, &mut self.stage, &self.held)
    }

    /// Returns the verdict on all bytes that were taken.
    ///
    /// # Errors
    ///
    /// `AllocError`: the allocation failed.
    pub fn verdict(self) -> Result<Verdict, AllocError>
        ensures { IfOk result (λ v. (seen : List ℕ) → HasTakenAll seen self → IsSaid (record_lines seen) v) }
    {
        let mut judge = self;
        judge.end_last()?;
        Ok(verdict_of(&judge.stage))
    }
}
