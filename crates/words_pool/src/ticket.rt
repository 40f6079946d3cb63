//! The tickets with which threads take numbers.

ghost use Rattle.std.specs.Prelude.{◌≡◌};

use crate::pool_view::PoolView;
use atomic_table::{Badge, Seat};
use std::marker::Model;

/// A ticket of a line, with which a thread takes one number. It takes no bytes.
///
/// If it is dropped, the line has one ticket fewer.
#[derive(Drop)]
pub struct Ticket {
    pub(crate) badge: Badge<PoolView>,
}

impl Model for Ticket {
    ghost use Rattle.std.specs.Prelude.{◌≡◌, [], ◌∷◌};
    ghost use Rattle.words_pool.specs.PoolView.{resting, past_in};
    ghost use Rattle.words_pool.specs.Pools.{TicketId, ticket_id};

    ghost Value = { TicketId };

    ghost view = { λ t. ticket_id t.badge.table_id t.badge.id (past_in t.badge.views) };

    ghost invariant = { λ t. t.badge.views ≡ resting (past_in t.badge.views) ∷ [] };
}

/// The tickets of a line that are not dealt yet.
#[derive(Drop)]
pub struct Tickets {
    pub(crate) left: u64,
    pub(crate) seat: Seat<u8, PoolView>,
}

impl Model for Tickets {
    ghost use Rattle.std.specs.Prelude.{◌≡◌, []};
    ghost use Rattle.words_pool.specs.PoolView.{view_of};
    ghost use Rattle.words_pool.specs.LineRule.{undealt};
    ghost use Rattle.words_pool.specs.Pools.{PoolId, pool_of};

    ghost Value = { PoolId };

    ghost view = { λ t. pool_of t.seat.table_id t.left };

    ghost invariant = { λ t. t.seat.me ≡ (view_of (undealt t.left) [], []) };
}

impl Tickets {
    /// Returns how many there are.
    pub fn count(&self) -> u64
        ensures { result ≡ self.now.numbers }
    {
        self.left
    }
}
