//! A text that grows.

ghost use Rattle.std.specs.Prelude.{◌≡◌, List, ℕ, [], ◌∷◌, ◌++◌, OnOk, decimal};
ghost use Rattle.text_lines.specs.Replies.{pair_word};

use itoa::Buffer;
use std::alloc::{AllocError, Global};
use std::marker::Model;

/// A growing buffer of bytes. Contracts see the list.
#[derive(Drop)]
pub struct Text {
    bytes: Vec<u8>,
}

impl Model for Text {
    ghost Value = { List ℕ };

    ghost view = { λ t. t.bytes.items };
}

impl Text {
    /// Makes an empty buffer. This allocates nothing.
    pub fn new(alloc: Global) -> Text
        ensures { result ≡ [] }
    {
        Text {
            bytes: Vec::new(alloc),
        }
    }

    /// Returns the bytes.
    pub fn as_slice(&self) -> &[u8]
        ensures { result.now ≡ self.now }
    {
        &self.bytes
    }

    /// Returns the bytes, and ends the buffer.
    pub fn into_bytes(self) -> Vec<u8>
        ensures { result.items ≡ self }
    {
        let Text { bytes } = self;
        bytes
    }

    /// Appends bytes.
    ///
    /// # Errors
    ///
    /// `AllocError`: the allocation failed. The text is then of no use.
    pub fn put(&mut self, bytes: &[u8]) -> Result<(), AllocError>
        ensures { OnOk result (self.new ≡ self.old ++ bytes.now) }
    {
        self.bytes.extend_from_slice(bytes)?;
        Ok(())
    }

    /// Appends a line, with its LF.
    ///
    /// # Errors
    ///
    /// Those of `put`.
    pub fn put_row(&mut self, line: &[u8]) -> Result<(), AllocError>
        ensures { OnOk result (self.new ≡ self.old ++ (line.now ++ 10 ∷ [])) }
    {
        self.put(line)?;
        self.put(b"\n")
    }

    /// Appends a number in decimal.
    ///
    /// # Errors
    ///
    /// Those of `put`.
    pub fn put_number(&mut self, number: u64) -> Result<(), AllocError>
        ensures { OnOk result (self.new ≡ self.old ++ decimal number) }
    {
        self.put(Buffer::new().format(number).as_bytes())
    }

    /// Appends a word with its space, and a number in decimal.
    ///
    /// # Errors
    ///
    /// Those of `put`.
    pub fn put_word(&mut self, word: &[u8], number: u64) -> Result<(), AllocError>
        ensures { OnOk result (self.new ≡ self.old ++ (word.now ++ decimal number)) }
    {
        self.put(word)?;
        self.put_number(number)
    }

    /// Appends an identity and its number, with a colon between them.
    ///
    /// # Errors
    ///
    /// Those of `put`.
    pub fn put_pair(&mut self, pair: (u64, u64)) -> Result<(), AllocError>
        ensures { OnOk result (self.new ≡ self.old ++ pair_word pair) }
    {
        self.put_number(pair.0)?;
        self.put(b":")?;
        self.put_number(pair.1)
    }
}
