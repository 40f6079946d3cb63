//! The first line of a record.

ghost use Rattle.std.specs.Prelude.{◌≡◌, ◌↔◌, IsTrue};
ghost use Rattle.text_records.specs.Json.{version_of, FitsVersion};

use model_asked::Config;

/// The most participants of a record of version 1.
const MOST_OF_ONE: u64 = 16;

/// The version of a record.
#[derive(Clone, Copy, Debug, Drop, PartialEq, Eq)]
pub enum Version {
    /// The view by which a name was given is not written, and there are at most 16 participants.
    One,
    /// This view is written, beside each reply that is a name.
    Two,
}

impl Version {
    /// Returns the version with this number, or `None` if there is none.
    pub fn of_number(number: u64) -> Option<Version>
        ensures { result ≡ version_of number }
    {
        match number {
            1 => Some(Version::One),
            2 => Some(Version::Two),
            _ => None,
        }
    }

    /// Whether a record of this version may have `most` participants.
    pub fn fits(self, most: u64) -> bool
        ensures { IsTrue result ↔ FitsVersion self most }
    {
        match self {
            Version::One => most <= MOST_OF_ONE,
            Version::Two => true,
        }
    }
}

/// The first line of a record: its version, and the configuration of its run.
#[derive(Clone, Copy, Debug, Drop)]
pub struct Header {
    /// The version, which fixes how lines are spelled.
    pub version: Version,
    /// The configuration of its run.
    pub config: Config,
}
