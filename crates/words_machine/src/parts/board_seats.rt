//! The seats of a name board: readers and grants.

ghost use Rattle.std.specs.Prelude.{◌≡◌, ◌≢◌, ◌≤◌};

use crate::parts::board_view::BoardView;
use atomic_table::{Badge, Seat};
use std::marker::Model;

/// A seat of a board, with which one thread posts and confirms.
#[derive(Drop)]
pub struct ReaderSeat {
    pub(crate) seat: Seat<u8, BoardView>,
}

impl Model for ReaderSeat {
    ghost use Rattle.std.specs.Prelude.{◌≡◌, []};
    ghost use Rattle.words_machine.specs.parts.BoardView.{no_claim_after};
    ghost use Rattle.words_machine.specs.parts.Boards.{ReaderId, reader_of};

    ghost Value = { ReaderId };

    ghost view = { λ r. reader_of r.seat.table_id r.seat.me.0.accesses r.seat.me.0.found };

    ghost invariant = { λ r. r.seat.me ≡ (no_claim_after r.seat.me.0.accesses r.seat.me.0.found, []) };
}

/// What the last seat of a board read in each word, one after another. It takes no bytes.
#[derive(Drop)]
pub struct LastRead {
    pub(crate) badge: Badge<BoardView>,
}

impl Model for LastRead {
    ghost use Rattle.words_machine.specs.parts.Boards.{LastReading, reading_of};

    ghost Value = { LastReading };

    ghost view = { λ l. reading_of l.badge.table_id l.badge.views };
}

/// A grant: the word of this name holds this identity, and always will.
#[derive(Drop)]
pub struct Grant {
    pub(crate) word: u64,
    pub(crate) identity: u64,
    pub(crate) badge: Badge<BoardView>,
}

impl Model for Grant {
    ghost use Rattle.std.specs.Prelude.{◌≡◌, ◌≢◌, ◌<◌, suc, [], ◌∷◌};
    ghost use Rattle.words_machine.specs.parts.BoardView.{lone_claim};
    ghost use Rattle.words_machine.specs.parts.Boards.{GrantId, grant_of};

    ghost Value = { GrantId };

    ghost view = { λ g. grant_of g.badge.table_id (suc g.word) g.identity };

    ghost invariant = { λ g. (g.badge.views ≡ lone_claim g.word g.identity ∷ []) × (g.word < 127) × (g.identity ≢ 0) × (g.word < g.badge.table_id.words) };
}

impl Grant {
    /// Returns the name: from 1 to 127.
    pub fn name(&self) -> u64
        ensures name { result ≡ self.now.name }
        ensures range { (1 ≤ result) × (result ≤ 127) }
    {
        self.word + 1
    }

    /// Returns the identity that has the name, which is not 0.
    pub fn identity(&self) -> u64
        ensures identity { result ≡ self.now.identity }
        ensures some { result ≢ 0 }
    {
        self.identity
    }
}
