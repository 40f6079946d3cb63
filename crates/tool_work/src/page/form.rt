//! How what a desk holds is written.

ghost use Rattle.std.specs.Prelude.{◌≡◌};
ghost use Rattle.tool_work.specs.page.Form.{begin_of, colon_of, end_of, gap_of};

/// How what a desk holds is written: for the script, or for readers without one.
#[derive(Clone, Copy, Debug, Drop, PartialEq, Eq)]
pub enum Form {
    /// As a list of texts in JSON.
    Data,
    /// As an item of a list in HTML.
    Item,
}

impl Form {
    /// What it begins with.
    pub(crate) fn begin(self) -> &'static [u8]
        ensures { result.now ≡ begin_of self }
    {
        match self {
            Form::Data => b"[\"",
            Form::Item => b"<li>",
        }
    }

    /// What stands after that of which it is.
    pub(crate) fn colon(self) -> &'static [u8]
        ensures { result.now ≡ colon_of self }
    {
        match self {
            Form::Data => b"\",\"",
            Form::Item => b": ",
        }
    }

    /// What stands between two parts.
    pub(crate) fn gap(self) -> &'static [u8]
        ensures { result.now ≡ gap_of self }
    {
        match self {
            Form::Data => b"\",\"",
            Form::Item => b" ",
        }
    }

    /// What it ends with.
    pub(crate) fn end(self) -> &'static [u8]
        ensures { result.now ≡ end_of self }
    {
        match self {
            Form::Data => b"\"],\n",
            Form::Item => b"</li>\n",
        }
    }
}
