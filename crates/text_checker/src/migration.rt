//! From the lines of a record to those of its version 2.

ghost use Rattle.std.specs.Prelude.{◌≡◌, true, [], IfOk, OnOk};
ghost use Rattle.text_records.specs.Lines.{IsCanonical};
ghost use Rattle.text_checker.specs.Migrated.{first_of, proposal_of, shown_in, GoesOn, HasMigrated, PutsLine};

use crate::gather::Gather;
use crate::judges::Firsts;
use model_asked::{Config, Event};
use std::alloc::{AllocError, Global};
use text_records::{Line, Reported, Row, Text, put_header, put_line};

/// The lines of a record in version 2, with the first moments by which names may have been given.
#[derive(Drop)]
pub struct Migration {
    firsts: Firsts,
    text: Text,
}

/// The identity that proposes in a line, and the number.
fn proposal(line: &Line) -> Option<(u64, u64)>
    ensures { result ≡ proposal_of line.now.event line.now.reported }
{
    let Event::Step(id) = line.event else {
        return None;
    };
    match &line.reported {
        Reported::Proposed(number) => Some((id, *number)),
        _ => None,
    }
}

/// The view that is kept of the identity that steps in an event.
fn first_view(firsts: &Firsts, event: Event) -> &[(u64, u64)]
    ensures { result.now ≡ first_of firsts.now event }
{
    let Event::Step(id) = event else {
        return &[];
    };
    match firsts.view_of(id) {
        Some(view) => view.as_slice(),
        None => &[],
    }
}

/// The view by which a line's name was given: the one that is written, or the first that there was.
fn shown<'a>(firsts: &'a Firsts, line: &'a Line) -> &'a [(u64, u64)]
    ensures { result.now ≡ shown_in firsts.now line.now.event line.now.reported }
{
    match &line.reported {
        Reported::Named(_, Some(view)) => view.as_slice(),
        Reported::Named(_, None) => first_view(firsts, line.event),
        _ => &[],
    }
}

/// Updates the first moments by a line.
fn follow(firsts: &mut Firsts, line: &Line) -> Result<(), AllocError>
    ensures { OnOk result (GoesOn (proposal_of line.now.event line.now.reported) firsts.old firsts.new) }
{
    match proposal(line) {
        Some((id, number)) => firsts.propose(id, number),
        None => Ok(()),
    }
}

impl Migration {
    /// Makes the text of the header alone.
    ///
    /// # Errors
    ///
    /// `AllocError`: the allocation failed.
    pub fn new(alloc: Global, config: Config) -> Result<Migration, AllocError>
        ensures { IfOk result (HasMigrated config []) }
    {
        let mut text = Text::new(alloc);
        put_header(config, &mut text)?;
        Ok(Migration {
            firsts: Firsts::new(alloc),
            text,
        })
    }

    /// Returns the text of all lines.
    pub fn into_text(self) -> Text
        ensures { result ≡ self.text }
    {
        let Migration { firsts: _, text } = self;
        text
    }
}

/// Appends a line. If its bytes are what would be written, they are copied.
fn put_row(firsts: &Firsts, row: &Row, bytes: &[u8], text: &mut Text) -> Result<(), AllocError>
    requires { row.now.is_canonical ≡ true → IsCanonical bytes.now row.now.line }
    ensures { OnOk result (PutsLine firsts.now row.now.line text.old text.new) }
{
    if row.is_canonical {
        return text.put_row(bytes);
    }
    put_line(&row.line, shown(firsts, &row.line), text)
}

impl Gather for Migration {
    ghost is_of = { HasMigrated };

    fn take(&mut self, row: &Row, bytes: &[u8]) -> Result<(), AllocError> {
        put_row(&self.firsts, row, bytes, &mut self.text)?;
        follow(&mut self.firsts, &row.line)?;
        Ok(())
    }
}
