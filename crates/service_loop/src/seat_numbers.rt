//! The numbers of connections.

ghost use Rattle.std.specs.Prelude.{◌≡◌, ◌<◌, ◌^◌, ◌+◌, ◌++◌, ◌∷◌, [], length, IfOk, OnOk};
ghost use Rattle.service_loop.specs.Attending.{number_at};
ghost use Rattle.service_loop.specs.Table.{AreNumbered};

use std::alloc::{AllocError, Global};
use std::marker::Model;

/// The number of the connection at each seat, which no other connection ever has. That of a seat in which nobody sat is 0.
#[derive(Drop)]
pub struct SeatNumbers {
    numbers: Vec<u64>,
    /// The number of the next connection.
    next: u64,
}

impl Model for SeatNumbers {
    ghost use Rattle.service_loop.specs.Table.{AreNumbered, Numbering};

    ghost Value = { Numbering };

    ghost view = { λ n. record { items = n.numbers.items; next = n.next } };

    ghost invariant = { λ n. AreNumbered n.numbers.items n.next };
}

impl SeatNumbers {
    /// No seats, with room for a few.
    ///
    /// # Errors
    ///
    /// `AllocError`: an allocation failed.
    #[tactic(auto, using(crate::proofs::TableLemmas::numbered_empty))]
    pub fn new(alloc: Global, few: usize) -> Result<SeatNumbers, AllocError>
        ensures { IfOk result (λ n. n.items ≡ []) }
    {
        Ok(SeatNumbers {
            numbers: Vec::with_capacity(alloc, few)?,
            next: 1,
        })
    }

    /// The numbers, seat by seat.
    pub fn all(&self) -> &[u64]
        ensures items { result.now ≡ self.now.items }
        ensures own { AreNumbered result.now self.now.next }
    {
        &self.numbers
    }

    /// One seat more, in which nobody sat.
    ///
    /// # Errors
    ///
    /// `AllocError`: an allocation failed.
    #[tactic(auto, using(crate::proofs::TableLemmas::numbered_more))]
    pub fn add_seat(&mut self) -> Result<(), AllocError>
        ensures { OnOk result (self.new.items ≡ self.old.items ++ 0 ∷ []) }
    {
        match self.numbers.push(0) {
            Ok(()) => Ok(()),
            Err(_) => Err(AllocError),
        }
    }

    /// The connection that is given this seat has the next number, which is returned; or 0, where 2^64 connections had one or there is no such seat.
    #[tactic(auto, using(crate::proofs::TableLemmas::numbered_at, crate::proofs::TableLemmas::numbered_none, crate::proofs::TableLemmas::cleared, crate::proofs::TableLemmas::unnumbered))]
    pub fn number(&mut self, key: usize) -> u64
        ensures given { result ≡ number_at self.new.items key }
        ensures next { key < length self.old.items → self.old.next + 1 < 2 ^ 64 → result ≡ self.old.next }
    {
        if key >= self.numbers.len() {
            return 0;
        }
        let Some(later) = self.next.checked_add(1) else {
            self.numbers[key] = 0;
            return 0;
        };
        let number = self.next;
        self.numbers[key] = number;
        self.next = later;
        number
    }
}
