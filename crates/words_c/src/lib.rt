//! Pools of numbers, a grid of splitters and names over shared atomic words as a static library, for threads that are not
//! Rattle's, with no lock.
//!
//! Each thread has a handle of its own. The first is made by `word_pool_new`, a further one by `word_pool_join` of another;
//! all share one pool. A handle holds at most one number at a time. A thread that takes a number from 1 to the pool's size
//! may use slot `number` of an array as long as the pool, until it gives the number back; nobody else holds it meanwhile.
//!
//! What a caller has to see to, since nothing checks it: a handle is used by one call at a time, is given to
//! `word_pool_new`, or as the second to `word_pool_join`, only while it holds no pool, and to the other calls only while it
//! holds one; a handle of zero bytes holds none. Nothing is passed for a parameter of type `Global`, which takes no bytes.
//!
//! A grid's handles are of the same kind: the first is made by `word_grid_new`, the others by `word_grid_join` of it, one for
//! each seat. C can share no handle by `&`, since nothing that holds atomic words may cross to it so.
//!
//! A line's handles are as a grid's: the first is made by `line_pool_new`, the others by `line_pool_join` of it, one for each
//! ticket. A handle of a line always gets a number, and the number is small where few hold or seek one.
//!
//! Of the handles of names the first, made by `word_names_new`, deals the seats and has none; the others are made by
//! `word_names_join` of it, one for each identity. Where `b` of them have begun, a name is at most `2b - 1`.
#![tactic(auto)]

ghost use Rattle.std.specs.Prelude.{◌≡◌, ◌≢◌, ◌≤◌, ◌⊎◌, IfSome, IsSome, IsSomeAnd, None, Some, true, false};
ghost use Rattle.std.specs.Arc.{arc_value};
ghost use Rattle.words_c.specs.Reported.{HasReceiptOf, HoldsNumber, WasRefused};
ghost use Rattle.words_c.specs.Parts.{IsPoolAnd};
ghost use Rattle.words_c.specs.declared.member.Member.{Member};
ghost use Rattle.words_c.specs.declared.part.Part.TheVariants.{Pool};

pub mod grid;
pub mod grid_member;
pub mod handle;
pub mod line;
pub mod line_member;
pub mod member;
pub mod names;
pub mod names_member;
pub mod part;
pub mod parts;

pub use handle::Handle;
use member::Member;
use part::Part;
use std::alloc::Global;
use std::mem;
use std::sync::Arc;
use words_pool::WordPool;

fn open_pool(alloc: Global, size: u64) -> Option<Member>
    ensures size { IsSome result → (1 ≤ size) × (size ≤ 4096) }
    ensures pool { IfSome result (λ m. ((arc_value m.pool).numbers ≡ size) × (m.held ≡ None)) }
{
    let pool = WordPool::new(alloc, size).ok()?;
    let pool = Arc::new(alloc, pool).ok()?;
    Some(Member::of(pool))
}

/// Makes a pool of the numbers from 1 to `size`, which is from 1 to 4096, at a handle that holds none. False, with nothing
/// made, where the size is outside that range or memory was refused.
#[unsafe(no_mangle)]
pub extern "C" fn word_pool_new(alloc: Global, handle: &mut Handle, size: u64) -> bool
    requires empty { handle.old.part ≡ None }
    ensures made { result ≡ true → IsSomeAnd handle.new.part (IsPoolAnd (λ m. ((arc_value m.pool).numbers ≡ size) × (m.held ≡ None))) }
    ensures range { result ≡ true → (1 ≤ size) × (size ≤ 4096) }
    ensures none { result ≡ false → handle.new.part ≡ None }
{
    match open_pool(alloc, size) {
        Some(member) => handle.fill(alloc, Part::Pool(member)),
        None => false,
    }
}

/// A handle for one more thread. False, with none made, where memory was refused.
#[unsafe(no_mangle)]
pub extern "C" fn word_pool_join(alloc: Global, handle: &mut Handle, other: &mut Handle) -> bool
    ghost pool: { Member }
    requires held { handle.old.part ≡ Some (Pool pool) }
    requires empty { other.old.part ≡ None }
    ensures held { handle.new.part ≡ Some (Pool pool) }
    ensures joined { result ≡ true → IsSomeAnd other.new.part (IsPoolAnd (λ m. (arc_value m.pool ≡ arc_value pool.pool) × (m.held ≡ None))) }
    ensures none { result ≡ false → other.new.part ≡ None }
{
    let whole = mem::replace(handle, Handle::blank(alloc)).into_box();
    let theirs = match &*whole {
        Part::Pool(member) => Arc::try_clone(&member.pool).ok(),
        _ => None,
    };
    *handle = Handle::of(whole);
    match theirs {
        Some(pool) => other.fill(alloc, Part::Pool(Member::of(pool))),
        None => false,
    }
}

/// Takes the least number that a walk from 1 upward finds free, by at most one access more than the number says. 0 where it
/// met each number held, by at most one access more than there are numbers, and where the handle holds one already.
#[unsafe(no_mangle)]
pub extern "C" fn word_pool_acquire(alloc: Global, handle: &mut Handle) -> u64
    ghost pool: { Member }
    requires held { handle.old.part ≡ Some (Pool pool) }
    ensures pool { IsSomeAnd handle.new.part (IsPoolAnd (λ m. arc_value m.pool ≡ arc_value pool.pool)) }
    ensures one { IsSome pool.held → result ≡ 0 }
    ensures number { result ≢ 0 → IsSomeAnd handle.new.part (IsPoolAnd (HoldsNumber 1 result)) }
    ensures kept { result ≡ 0 → IsSomeAnd handle.new.part (IsPoolAnd (λ m. m.held ≡ pool.held)) }
    ensures none { result ≡ 0 → IsSome pool.held ⊎ IsSomeAnd handle.new.part (IsPoolAnd (WasRefused 1)) }
{
    let mut whole = mem::replace(handle, Handle::blank(alloc)).into_box();
    let number = match &mut *whole {
        Part::Pool(member) => member.acquire(1),
        _ => 0,
    };
    *handle = Handle::of(whole);
    number
}

/// Takes the first number that a walk finds free: from a hint up to the greatest, and then from 1 up to the hint. It tries each
/// number once. A hint that is no number of the pool is as good as 1.
#[unsafe(no_mangle)]
pub extern "C" fn word_pool_acquire_near(alloc: Global, handle: &mut Handle, hint: u64) -> u64
    ghost pool: { Member }
    requires held { handle.old.part ≡ Some (Pool pool) }
    ensures pool { IsSomeAnd handle.new.part (IsPoolAnd (λ m. arc_value m.pool ≡ arc_value pool.pool)) }
    ensures one { IsSome pool.held → result ≡ 0 }
    ensures number { result ≢ 0 → IsSomeAnd handle.new.part (IsPoolAnd (HoldsNumber hint result)) }
    ensures kept { result ≡ 0 → IsSomeAnd handle.new.part (IsPoolAnd (λ m. m.held ≡ pool.held)) }
    ensures none { result ≡ 0 → IsSome pool.held ⊎ IsSomeAnd handle.new.part (IsPoolAnd (WasRefused hint)) }
{
    let mut whole = mem::replace(handle, Handle::blank(alloc)).into_box();
    let number = match &mut *whole {
        Part::Pool(member) => member.acquire(hint),
        _ => 0,
    };
    *handle = Handle::of(whole);
    number
}

/// Gives back the number that the handle holds, by one access, and tells it. 0 where it holds none.
#[unsafe(no_mangle)]
pub extern "C" fn word_pool_release(alloc: Global, handle: &mut Handle) -> u64
    ghost pool: { Member }
    requires held { handle.old.part ≡ Some (Pool pool) }
    ensures none { IsSomeAnd handle.new.part (IsPoolAnd (λ m. (arc_value m.pool ≡ arc_value pool.pool) × (m.held ≡ None))) }
    ensures number { result ≢ 0 → IsSomeAnd pool.held (λ h. h.number ≡ result) }
    ensures zero { result ≡ 0 → pool.held ≡ None }
    ensures receipt { IfSome pool.held (λ h. IsSomeAnd handle.new.part (IsPoolAnd (HasReceiptOf h))) }
{
    let mut whole = mem::replace(handle, Handle::blank(alloc)).into_box();
    let number = match &mut *whole {
        Part::Pool(member) => member.release(),
        _ => 0,
    };
    *handle = Handle::of(whole);
    number
}

/// Ends a handle: its number is given back, and with the last handle the pool's memory.
#[unsafe(no_mangle)]
pub extern "C" fn word_pool_free(alloc: Global, handle: &mut Handle)
    ghost pool: { Member }
    requires held { handle.old.part ≡ Some (Pool pool) }
    ensures none { handle.new.part ≡ None }
{
    let mut whole = mem::replace(handle, Handle::blank(alloc)).into_box();
    if let Part::Pool(member) = &mut *whole {
        member.release();
    }
    drop(whole);
}
