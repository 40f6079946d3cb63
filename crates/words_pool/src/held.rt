//! What a call of a pool returns: a held number, that all were found held, the receipt of a number given back, and what was
//! held at the end.

ghost use Rattle.std.specs.Prelude.{◌≡◌, ◌≤◌, ◌<◌, suc, [], ◌∷◌};
ghost use Rattle.words_pool.specs.PoolRule.{word_of};
ghost use Rattle.words_pool.specs.Pools.{IsHeldAt, call_id};

use crate::pool_view::PoolView;
use atomic_table::{Badge, Seat};
use std::marker::Model;

/// A number of a pool that no other thread holds. It takes no bytes but the number's.
///
/// Give it to `release`: if it is dropped, the number stays held.
#[derive(Drop)]
pub struct Held {
    pub(crate) place: u64,
    pub(crate) badge: Badge<PoolView>,
}

impl Model for Held {
    ghost use Rattle.std.specs.Prelude.{◌≡◌, ◌<◌, suc};
    ghost use Rattle.words_pool.specs.PoolRule.{word_of};
    ghost use Rattle.words_pool.specs.Pools.{CallId, IsHeldAt, call_id};

    ghost Value = { CallId };

    ghost view = { λ h. call_id h.badge.table_id h.badge.id (suc h.place) h.badge.views };

    ghost invariant = { λ h. IsHeldAt h.place h.badge.views × (h.place < 4096) × (word_of h.place < h.badge.table_id.words) };
}

impl Held {
    /// The number of a seat whose call holds this place.
    pub(crate) fn of(seat: Seat<u8, PoolView>, place: u64) -> Held
        requires held { IsHeldAt place (seat.me.0 ∷ []) × (seat.me.1 ≡ []) }
        requires range { (place < 4096) × (word_of place < seat.table_id.words) }
        ensures { result ≡ call_id seat.table_id seat.id (suc place) (seat.me.0 ∷ []) }
    {
        Held {
            place,
            badge: seat.into_badge(),
        }
    }

    /// Returns the number: from 1 to 4096.
    pub fn number(&self) -> u64
        ensures number { result ≡ self.now.number }
        ensures range { (1 ≤ result) × (result ≤ 4096) }
    {
        self.place + 1
    }
}

/// A call found each number of a pool held, one after another. It takes no bytes.
#[derive(Drop)]
pub struct AllHeld {
    pub(crate) badge: Badge<PoolView>,
}

impl Model for AllHeld {
    ghost use Rattle.words_pool.specs.Pools.{CallId, call_id};

    ghost Value = { CallId };

    ghost view = { λ a. call_id a.badge.table_id a.badge.id 0 a.badge.views };
}

/// What the last call of a pool found as it read each number's word once. It takes no bytes.
#[derive(Drop)]
pub struct LastLook {
    pub(crate) badge: Badge<PoolView>,
}

impl Model for LastLook {
    ghost use Rattle.words_pool.specs.Pools.{CallId, call_id};

    ghost Value = { CallId };

    ghost view = { λ l. call_id l.badge.table_id l.badge.id 0 l.badge.views };
}

/// The receipt of a number that was given back. It takes no bytes.
#[derive(Drop)]
pub struct Released {
    pub(crate) badge: Badge<PoolView>,
}

impl Model for Released {
    ghost use Rattle.words_pool.specs.PoolView.{past_in};
    ghost use Rattle.words_pool.specs.Pools.{CallId, ended_id};

    ghost Value = { CallId };

    ghost view = { λ r. ended_id r.badge.table_id r.badge.id (past_in r.badge.views) };
}
