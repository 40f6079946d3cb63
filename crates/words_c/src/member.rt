//! One thread's part in a shared pool.

ghost use Rattle.std.specs.Prelude.{◌≡◌, ◌≢◌, ◌≤◌, ◌+◌, ◌⊎◌, IfSome, IsSome, IsSomeAnd, None};
ghost use Rattle.std.specs.Arc.{arc_value};
ghost use Rattle.words_c.specs.Refused.{IsReceiptOf, MetAllInTime, WasSought};
ghost use Rattle.std.proofs.Props.{props};

use std::alloc::Global;
use std::sync::Arc;
use words_pool::{AllHeld, Held, Released, WordPool};

/// The pool, which all members share, what this one holds, what its last walk met, where that got no number, and the receipt for the
/// number that it gave back last.
#[derive(Drop)]
pub struct Member {
    pub(crate) pool: Arc<WordPool<Global>, Global>,
    pub(crate) held: Option<Held>,
    pub(crate) refused: Option<AllHeld>,
    pub(crate) released: Option<Released>,
    ghost ours: { IfSome held (λ h. h.pool ≡ (arc_value pool).table) } by { Prim.hlevel props },
}

impl Member {
    /// A member that holds no number.
    pub(crate) fn of(pool: Arc<WordPool<Global>, Global>) -> Member
        ensures pool { arc_value result.pool ≡ arc_value pool }
        ensures none { result.held ≡ None }
    {
        Member {
            pool,
            held: None,
            refused: None,
            released: None,
        }
    }

    /// Takes the first number that a walk finds free, from the hint up and then from 1 up to the hint, and holds it. 0 where
    /// the walk met each number held, and where one is held already.
    pub fn acquire(&mut self, hint: u64) -> u64
        ensures pool { arc_value self.new.pool ≡ arc_value self.old.pool }
        ensures one { IsSome self.old.held → result ≡ 0 }
        ensures held { result ≢ 0 → IsSomeAnd self.new.held (λ h. (h.number ≡ result) × WasSought hint (arc_value self.new.pool) h) }
        ensures range { result ≢ 0 → result ≤ (arc_value self.new.pool).numbers }
        ensures kept { result ≡ 0 → self.new.held ≡ self.old.held }
        ensures none { result ≡ 0 → IsSome self.old.held ⊎ IsSomeAnd self.new.refused (MetAllInTime hint (arc_value self.new.pool)) }
    {
        if self.held.is_some() {
            return 0;
        }
        match self.pool.acquire_near(hint) {
            Ok(held) => {
                let number = held.number();
                self.held = Some(held);
                self.refused = None;
                number
            }
            Err(all_held) => {
                self.refused = Some(all_held);
                0
            }
        }
    }

    /// Gives back the number that is held, keeps the receipt, and tells the number. 0 where none is.
    pub fn release(&mut self) -> u64
        ensures pool { arc_value self.new.pool ≡ arc_value self.old.pool }
        ensures none { self.new.held ≡ None }
        ensures number { result ≢ 0 → IsSomeAnd self.old.held (λ h. h.number ≡ result) }
        ensures zero { result ≡ 0 → self.old.held ≡ None }
        ensures receipt { IfSome self.old.held (λ h. IsSomeAnd self.new.released (IsReceiptOf h)) }
    {
        match self.held.take() {
            Some(held) => {
                let number = held.number();
                self.released = Some(self.pool.release(held));
                number
            }
            None => 0,
        }
    }
}
