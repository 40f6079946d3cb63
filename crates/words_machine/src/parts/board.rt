//! The name board.

ghost use Rattle.std.specs.Prelude.{[], ◌≡◌, ◌≢◌, ◌<◌, ◌≤◌, ◌+◌, ◌-◌, ◌⊎◌, ◌↔◌, ℕ, Err, IfErr, IfOk, IfSome, IfNone, IsOk, IsSome, vec_len, slice_index, reverse};
ghost use lib.ListN.{get_elem?};
ghost use mathlib.Core.Option.{some};
ghost use Rattle.words_machine.specs.declared.parts.board_view.BoardClaim.{BoardClaim};
ghost use Rattle.words_machine.specs.parts.BoardRule.{IsClaimed};
ghost use Rattle.words_machine.specs.parts.BoardView.{lone_claim};
ghost use Rattle.words_machine.specs.parts.Boards.{IsBoardTable, FindsClaims, GrantId, HasClaimOf, HasReadAll, MayHold, grant_of, look_cost, post_cost, reader_of};

use crate::parts::board_seats::{Grant, LastRead, ReaderSeat};
use crate::parts::board_steps::{Boarding, Find, Hand, LookAtBoard, Part, Post, Read, UniteGrants};
use crate::parts::board_view::BoardView;
use atomic_table::{Badge, Seat, Shared, Table};
use model_steps::Refusal;
use std::alloc::{AllocError, Allocator};
use std::marker::Model;
use std::mem;

/// The most names of a board, as many as 64 participants may get.
const MOST_NAMES: u64 = 127;

/// The words of a board. It has no slots: their type means nothing.
type Words = Shared<u8, BoardView, u64, Boarding>;

/// Joins two seats with a claim each, reads a word, and parts them again: so both claims are true of the same words.
fn look_together(
    table: &Words,
    mut left: Seat<u8, BoardView>,
    right: Seat<u8, BoardView>,
    _one: (u64, u64),
    _other: (u64, u64),
) -> (Seat<u8, BoardView>, Seat<u8, BoardView>)
    requires board { IsBoardTable table.now.table_id table.now.key }
    requires ours { (left.table_id ≡ table.now.table_id) × (right.table_id ≡ table.now.table_id) }
    requires left { left.me ≡ (lone_claim _one.0 _one.1, []) }
    requires right { right.me ≡ (lone_claim _other.0 _other.1, []) }
    ensures ours { (result.0.table_id ≡ table.now.table_id) × (result.1.table_id ≡ table.now.table_id) }
    ensures left { result.0.me ≡ left.me }
    ensures right { result.1.me ≡ right.me }
    ensures met { _one.0 ≡ _other.0 → _one.1 ≡ _other.1 }
{
    table.join_seat::<UniteGrants>(&mut left, right);
    table.load::<LookAtBoard>(&mut left, 0);
    let right = table.split_seat::<Part>(&mut left);
    (left, right)
}

/// Returns the seat of a grant, which has its claim and has made no access.
fn claimed_by(grant: Grant) -> Seat<u8, BoardView>
    ensures ours { (result.table_id ≡ grant.board) × (result.me.1 ≡ []) }
    ensures claim { HasClaimOf result.me.0 grant }
    ensures none { (result.me.0.accesses ≡ 0) × (result.me.0.read ≡ []) }
{
    let Grant {
        word: _,
        identity: _,
        badge,
    } = grant;
    badge.into_seat::<u8>()
}

/// Adds the claim of a grant to a seat, by one access.
fn gather(table: &Words, seat: &mut Seat<u8, BoardView>, grant: Grant)
    requires board { IsBoardTable table.now.table_id table.now.key }
    requires ours { (seat.old.table_id ≡ table.now.table_id) × (seat.old.me.1 ≡ []) }
    requires grant { grant.board ≡ table.now.table_id }
    ensures ours { (seat.new.table_id ≡ table.now.table_id) × (seat.new.me.1 ≡ []) }
    ensures same { (seat.new.me.0.accesses ≡ seat.old.me.0.accesses + 1) × (seat.new.me.0.read ≡ seat.old.me.0.read) }
    ensures more { (c : BoardClaim) → IsClaimed c seat.old.me.0.claims → IsClaimed c seat.new.me.0.claims }
    ensures claim { HasClaimOf seat.new.me.0 grant }
{
    table.join_seat::<UniteGrants>(seat, claimed_by(grant));
}

/// Adds the claims of some grants to a seat, by one access each.
fn gather_all<C: Allocator>(table: &Words, seat: &mut Seat<u8, BoardView>, mut out: Vec<Grant, C>)
    requires board { IsBoardTable table.now.table_id table.now.key }
    requires ours { (seat.old.table_id ≡ table.now.table_id) × (seat.old.me.1 ≡ []) }
    requires out { (i : ℕ) (g : GrantId) → get_elem? out.items i ≡ some g → g.board ≡ table.now.table_id }
    ensures ours { (seat.new.table_id ≡ table.now.table_id) × (seat.new.me.1 ≡ []) }
    ensures same { (seat.new.me.0.accesses ≡ seat.old.me.0.accesses + vec_len out) × (seat.new.me.0.read ≡ seat.old.me.0.read) }
    ensures claims { (i : ℕ) (g : GrantId) → get_elem? out.items i ≡ some g → HasClaimOf seat.new.me.0 g }
{
    while let Some(grant) = out.pop() {
        gather(table, seat, grant);
    }
}

/// Reads each word once, with a seat that has read none.
fn read_all<B: Allocator>(
    table: &Words,
    count: usize,
    alloc: B,
    seat: &mut Seat<u8, BoardView>,
) -> Result<Vec<u64, B>, AllocError>
    requires board { IsBoardTable table.now.table_id table.now.key }
    requires ours { (seat.old.table_id ≡ table.now.table_id) × (seat.old.me.1 ≡ []) }
    requires count { count ≡ table.now.table_id.words }
    requires none { seat.old.me.0.read ≡ [] }
    ensures ours { (seat.new.table_id ≡ table.now.table_id) × (seat.new.me.1 ≡ []) }
    ensures count { IfOk result (λ v. vec_len v ≡ table.now.table_id.words) }
    ensures claims { IfOk result (λ v. FindsClaims seat.old.me.0 table.now.table_id.words v.items) }
    ensures read { IfOk result (λ v. seat.new.me.0.read ≡ reverse v.items) }
    ensures accesses { IsOk result → seat.new.me.0.accesses ≡ seat.old.me.0.accesses + table.now.table_id.words }
{
    let mut words = Vec::with_capacity(alloc, count)?;
    for word in 0..count {
        let found = table.load::<Read>(seat, word);
        words.push_reserved(found);
    }
    Ok(words)
}

/// A name board: a word for each name from 1 on, with 0 or the identity that was first posted there, which never
/// changes.
///
/// Any number of threads with a seat may post and confirm at the same time. No call waits.
#[derive(Drop)]
pub struct Board<A: Allocator> {
    alloc: A,
    // It has no slots: their type means nothing.
    table: Table<u8, BoardView, u64, Boarding, A>,
}

impl<A: Allocator> Model for Board<A> {
    ghost use Rattle.atomic_table.specs.Seated.{TableId};
    ghost use Rattle.words_machine.specs.parts.Boards.{IsBoardTable};

    ghost Value = { TableId };

    ghost view = { λ b. b.table.shared.table_id };

    ghost invariant = { λ b. IsBoardTable b.table.shared.table_id b.table.shared.key };
}

impl<A: Allocator + Clone> Board<A> {
    /// Makes a board of `names` names, on which nothing was posted, and a seat.
    ///
    /// # Errors
    ///
    /// - `OutOfRange`: `names` is not from 1 to 127.
    /// - `NoMemory`: an allocation failed.
    pub fn new(alloc: A, names: u64) -> Result<(Board<A>, ReaderSeat), Refusal>
        ensures board { IfOk result (λ r. r.0.words ≡ names) }
        ensures seat { IfOk result (λ r. r.1 ≡ reader_of r.0 0 0) }
        ensures range { IsOk result → (1 ≤ names) × (names ≤ 127) }
        ensures out_of_range { result ≡ Err Refusal.OutOfRange ↔ ((names < 1) ⊎ (127 < names)) }
        ensures only { IfErr result (λ r. (r ≡ Refusal.NoMemory) ⊎ (r ≡ Refusal.OutOfRange)) }
    {
        if names < 1 || MOST_NAMES < names {
            return Err(Refusal::OutOfRange);
        }
        Ok(Board::open(alloc, names)?)
    }

    /// A board on which nothing was posted, and a seat.
    fn open(alloc: A, names: u64) -> Result<(Board<A>, ReaderSeat), AllocError>
        requires { (1 ≤ names) × (names ≤ 127) }
        ensures board { IfOk result (λ r. r.0.words ≡ names) }
        ensures seat { IfOk result (λ r. r.1 ≡ reader_of r.0 0 0) }
    {
        let words = &[0; MOST_NAMES as usize][..names as usize];
        let (table, seat) = Table::of_words(alloc.clone()?, words, &names)?;
        Ok((Board { alloc, table }, ReaderSeat { seat }))
    }

    /// Ends the board and returns its words, by rising name, in the board's own allocator.
    ///
    /// The word of the grant's name is the grant's identity. Nothing is proved of the other words: for them, call
    /// `close_all`.
    ///
    /// # Errors
    ///
    /// `NoMemory`: an allocation failed. The board is gone.
    ///
    /// # Steps
    ///
    /// One load for each name.
    pub fn close(self, grant: Grant) -> Result<Vec<u64, A>, Refusal>
        requires { grant.board ≡ self }
        ensures count { IfOk result (λ v. vec_len v ≡ self.words) }
        ensures grant { IfOk result (λ v. slice_index v.items (grant.name - 1) ≡ grant.identity) }
        ensures range { (1 ≤ grant.name) × (grant.name ≤ self.words) }
        ensures only { IfErr result (λ r. r ≡ Refusal.NoMemory) }
    {
        let alloc = self.alloc.clone()?;
        let mut seat = claimed_by(grant);
        match read_all(
            &self.table.shared,
            self.table.word_count(),
            alloc,
            &mut seat,
        ) {
            Ok(words) => Ok(words),
            Err(AllocError) => Err(Refusal::NoMemory),
        }
    }
}

impl<A: Allocator> Board<A> {
    /// Returns the number of names: from 1 to 127.
    pub fn names(&self) -> u64
        ensures count { result ≡ self.now.words }
        ensures range { (1 ≤ result) × (result ≤ 127) }
    {
        self.table.word_count() as u64
    }

    /// The word of a name, or `None` if there is no such name. Names begin at 1, words at 0.
    fn word_of(&self, name: u64) -> Option<u64>
        ensures word { IfSome result (λ word. (word + 1 ≡ name) × (word < self.now.words)) }
        ensures none { IfNone result ((name ≡ 0) ⊎ (self.now.words < name)) }
    {
        if name < 1 || self.names() < name {
            None
        } else {
            Some(name - 1)
        }
    }

    /// The word of a name, or `None` if there is no such name or the identity is 0.
    fn word_for(&self, name: u64, identity: u64) -> Option<u64>
        ensures word { IfSome result (λ word. (word + 1 ≡ name) × (word < self.now.words) × (identity ≢ 0)) }
        ensures none { IfNone result ((name ≡ 0) ⊎ (self.now.words < name) ⊎ (identity ≡ 0)) }
    {
        if identity == 0 {
            None
        } else {
            self.word_of(name)
        }
    }

    /// Makes a further seat of this board, for another thread, by one access of `seat`.
    pub fn reader(&self, seat: &mut ReaderSeat) -> ReaderSeat
        requires { seat.old.board ≡ self.now }
        ensures seat { seat.new ≡ reader_of self.now (seat.old.accesses + 1) seat.old.found }
        ensures new { result ≡ reader_of self.now 0 0 }
    {
        let ReaderSeat { seat } = seat;
        ReaderSeat {
            seat: self.table.shared.split_seat::<Hand>(seat),
        }
    }

    /// Posts an identity at a name: one compare-exchange from 0 to the identity. Returns the grant of this name and
    /// identity.
    ///
    /// Returns `None` if the word holds another identity, which `found` of the seat shows. It returns `None`, with no
    /// access, if the identity is 0 or there is no such name.
    ///
    /// # Steps
    ///
    /// At most two accesses: the compare-exchange, and one more for a grant.
    pub fn post(&self, seat: &mut ReaderSeat, name: u64, identity: u64) -> Option<Grant>
        requires { seat.old.board ≡ self.now }
        ensures asked { MayHold self.now name identity →
            seat.new ≡ reader_of self.now (seat.old.accesses + post_cost seat.new.found identity) seat.new.found }
        ensures unasked { (name ≡ 0) ⊎ (self.now.words < name) ⊎ (identity ≡ 0) → seat.new ≡ seat.old }
        ensures seat { seat.new.board ≡ self.now }
        ensures grant { IfSome result (λ g. g ≡ grant_of self.now name identity) }
        ensures due { MayHold self.now name identity → IsSome result ↔ ((seat.new.found ≡ 0) ⊎ (seat.new.found ≡ identity)) }
        ensures range { IfSome result (λ g. MayHold self.now name identity) }
    {
        let word = self.word_for(name, identity)?;
        let ReaderSeat { seat } = seat;
        let found = self
            .table
            .shared
            .compare_exchange::<Post>(seat, word as usize, 0, identity);
        if found != 0 && found != identity {
            return None;
        }
        let given = self.table.shared.split_seat::<Hand>(seat);
        Some(Grant {
            word,
            identity,
            badge: given.into_badge(),
        })
    }

    /// Reads the word of a name, and returns the grant of this name and identity if the word holds the identity.
    ///
    /// Returns `None` if it does not; `found` of the seat shows what it holds. It returns `None`, with no access, if
    /// the identity is 0 or there is no such name.
    ///
    /// # Steps
    ///
    /// At most two accesses: one load, and one more if the word is not 0.
    pub fn confirm(&self, seat: &mut ReaderSeat, name: u64, identity: u64) -> Option<Grant>
        requires { seat.old.board ≡ self.now }
        ensures asked { MayHold self.now name identity → seat.new ≡ reader_of self.now (seat.old.accesses + look_cost seat.new.found) seat.new.found }
        ensures unasked { (name ≡ 0) ⊎ (self.now.words < name) ⊎ (identity ≡ 0) → seat.new ≡ seat.old }
        ensures seat { seat.new.board ≡ self.now }
        ensures grant { IfSome result (λ g. g ≡ grant_of self.now name identity) }
        ensures due { MayHold self.now name identity → IsSome result ↔ (seat.new.found ≡ identity) }
        ensures range { IfSome result (λ g. MayHold self.now name identity) }
    {
        let word = self.word_for(name, identity)?;
        let ReaderSeat { seat } = seat;
        let found = self.table.shared.load::<Find>(seat, word as usize);
        if found == 0 {
            return None;
        }
        // Split off before the test, whatever was found: otherwise the seat would still claim it, and it must claim
        // nothing again.
        let given = self.table.shared.split_seat::<Hand>(seat);
        if found != identity {
            return None;
        }
        Some(Grant {
            word,
            identity,
            badge: given.into_badge(),
        })
    }

    /// Returns the identity that one load finds at a name, or `None` if it finds 0 or there is no such name.
    ///
    /// It has no seat. Not proved: that the word holds this identity.
    pub fn owner(&self, name: u64) -> Option<u64>
        ensures { IfSome result (λ id. (id ≢ 0) × (1 ≤ name) × (name ≤ self.now.words)) }
    {
        match self.table.shared.peek(self.word_of(name)? as usize) {
            0 => None,
            identity => Some(identity),
        }
    }

    /// Compares two grants of this board, which stay as they are. Two identities have two names, and one name has one
    /// identity.
    pub fn meet(&self, one: &mut Grant, other: &mut Grant)
        requires one { one.old.board ≡ self.now }
        requires other { other.old.board ≡ self.now }
        ensures one { one.new ≡ one.old }
        ensures other { other.new ≡ other.old }
        ensures apart { one.old.identity ≢ other.old.identity → one.old.name ≢ other.old.name }
        ensures same { one.old.name ≡ other.old.name → one.old.identity ≡ other.old.identity }
    {
        let left = mem::replace(&mut one.badge, Badge::blank()).into_seat::<u8>();
        let right = mem::replace(&mut other.badge, Badge::blank()).into_seat::<u8>();
        let (left, right) = look_together(
            &self.table.shared,
            left,
            right,
            (one.word, one.identity),
            (other.word, other.identity),
        );
        one.badge = left.into_badge();
        other.badge = right.into_badge();
    }

    /// Ends the board and returns its words, by rising name. Each grant in `out` finds its identity at its name.
    ///
    /// `LastRead` shows that the words are those that the seat read, each once, after it took over each grant.
    ///
    /// # Errors
    ///
    /// `AllocError`: the allocation failed. The board is gone.
    ///
    /// # Steps
    ///
    /// One access for each grant in `out`, and one load for each name.
    pub fn close_all<B: Allocator, C: Allocator>(
        self,
        seat: ReaderSeat,
        alloc: B,
        out: Vec<Grant, C>,
    ) -> Result<(Vec<u64, B>, LastRead), AllocError>
        requires seat { seat.board ≡ self }
        requires ours { (i : ℕ) (g : GrantId) → get_elem? out.items i ≡ some g → g.board ≡ self }
        ensures count { IfOk result (λ r. vec_len r.0 ≡ self.words) }
        ensures grants { IfOk result (λ r. (i : ℕ) (g : GrantId) → get_elem? out.items i ≡ some g →
            slice_index r.0.items (g.name - 1) ≡ g.identity) }
        ensures read { IfOk result (λ r. HasReadAll seat (vec_len out) r.0.items r.1) }
    {
        let ReaderSeat { mut seat } = seat;
        gather_all(&self.table.shared, &mut seat, out);
        let words = read_all(
            &self.table.shared,
            self.table.word_count(),
            alloc,
            &mut seat,
        )?;
        let badge = seat.into_badge();
        Ok((words, LastRead { badge }))
    }
}
