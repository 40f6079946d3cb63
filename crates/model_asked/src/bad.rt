//! Why a line is no command.

ghost use Rattle.std.specs.Prelude.{◌≡◌};
ghost use Rattle.model_asked.specs.Bad.{bad_number};

/// Why a line is no command: the first of these that fits.
#[derive(Clone, Copy, Debug, Drop, PartialEq, Eq)]
pub enum Bad {
    /// It is longer than 100 bytes.
    TooLong = 1,
    /// A byte of it is outside 0x20..=0x7E.
    NotPrintable = 2,
    /// Its first word is unknown.
    UnknownWord = 3,
    /// It has another count of words than its command.
    WrongCount = 4,
    /// A number in it is not `0` or digits without a leading zero, or is above 18446744073709551615.
    BadNumber = 5,
}

impl Bad {
    /// Returns the number, from 1 to 5, that is written after `bad`.
    pub fn number(self) -> u8
        ensures { result ≡ bad_number self }
    {
        self as u8
    }
}
