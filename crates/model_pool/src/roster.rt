//! The competitors, and an index of their identities.

ghost use Rattle.std.specs.Prelude.{◌≡◌, ◌<◌, ◌≤◌, ◌+◌, ◌*◌, [], ◌∷◌, ◌++◌, true, false, length, replicate, IfOk, IfSome, IfNone, None, Some, slice_index, slice_set, vec_len, vec_capacity};
ghost use Rattle.model_pool.specs.declared.entry.Entry.{Entry};
ghost use Rattle.model_pool.specs.Competitors.{stay_of, with_stay, without, holder_in};
ghost use Rattle.model_pool.specs.Roster.{AreIndexed, AreDistinct, IsEntry, live, noted, bucket};
ghost use Rattle.std.specs.Prelude.{List, ℕ, is_some};

use crate::competitor::Competitor;
use crate::entry::Entry;
use crate::stay::Stay;
use model_steps::NoMemory;
use std::alloc::Allocator;
use std::marker::Model;

/// Mixes the bits of an identity: 2^64 over the golden ratio.
const MIX: u64 = 11_400_714_819_323_198_485;

/// Returns the bucket of an identity, of `width`.
#[inline(always)]
fn bucket_of(width: usize, id: u64) -> usize
    requires range { (1 ≤ width) × (width ≤ 131072) }
    ensures bucket { result ≡ bucket width id }
    ensures inside { result < width }
{
    let mixed = id.wrapping_mul(MIX) / 4_294_967_296;
    (mixed * width as u64 / 4_294_967_296) as usize
}

/// Whether this is a competitor with this identity.
#[inline(always)]
fn is_of(entry: &Entry, id: u64) -> bool
    ensures found { result ≡ true → (entry.now.identity ≡ id) × (is_some entry.now.stay ≡ true) }
    ensures other { result ≡ false → entry.now.identity ≡ id → entry.now.stay ≡ None }
{
    entry.identity == id && entry.stay.is_some()
}

/// Finds the entry of a competitor: goes through the identities of its bucket, from the last on.
fn walk(entries: &[Entry], heads: &[u32], links: &[u32], id: u64) -> Option<usize>
    requires indexed { AreIndexed heads.now links.now (noted entries.now) }
    requires width { (1 ≤ length heads.now) × (length heads.now ≤ 131072) }
    ensures found { IfSome result (λ at. IsEntry entries.now id at) }
    ensures absent { IfNone result (stay_of id (live entries.now) ≡ None) }
{
    let mut at = heads[bucket_of(heads.len(), id)];
    while at > 0 {
        let i = (at - 1) as usize;
        if is_of(&entries[i], id) {
            return Some(i);
        }
        at = links[i];
    }
    None
}

/// Notes one more identity, which stands after those that are noted.
fn note<A: Allocator>(heads: &mut Vec<u32, A>, links: &mut Vec<u32, A>, id: u64)
    requires room { vec_len links.old < vec_capacity links.old }
    requires many { vec_len links.old < 131072 }
    requires width { (1 ≤ vec_len heads.old) × (vec_len heads.old ≤ 131072) }
    ensures indexed { (ids : List ℕ) → AreIndexed heads.old.items links.old.items ids → AreIndexed heads.new.items links.new.items (ids ++ id ∷ []) }
    ensures width { vec_len heads.new ≡ vec_len heads.old }
    ensures room { vec_capacity links.new ≡ vec_capacity links.old }
    ensures more { vec_len links.new ≡ vec_len links.old + 1 }
{
    let b = bucket_of(heads.len(), id);
    links.push_reserved(heads[b]);
    heads[b] = links.len() as u32;
}

/// Clears the heads of all buckets.
fn clear<A: Allocator>(heads: &mut Vec<u32, A>)
    ensures clear { (b : ℕ) → b < vec_len heads.old → slice_index heads.new.items b ≡ 0 }
    ensures width { vec_len heads.new ≡ vec_len heads.old }
{
    for b in 0..heads.len() {
        heads[b] = 0;
    }
}

/// Notes the identities of all these entries anew.
fn note_all<A: Allocator>(heads: &mut Vec<u32, A>, links: &mut Vec<u32, A>, entries: &[Entry])
    requires room { length entries.now ≤ vec_capacity links.old }
    requires many { length entries.now ≤ 131072 }
    requires width { (1 ≤ vec_len heads.old) × (vec_len heads.old ≤ 131072) }
    ensures indexed { AreIndexed heads.new.items links.new.items (noted entries.now) }
    ensures width { vec_len heads.new ≡ vec_len heads.old }
    ensures room { vec_capacity links.new ≡ vec_capacity links.old }
{
    clear(heads);
    links.clear();
    for entry in entries {
        note(heads, links, entry.identity);
    }
}

/// Returns the competitor that holds this number.
fn holder(entries: &[Entry], number: u32) -> Option<u64>
    ensures { result ≡ holder_in number (live entries.now) }
{
    for entry in entries {
        if let Some(stay) = entry.stay {
            if stay.holds(number) {
                return Some(entry.identity);
            }
        }
    }
    None
}

/// Appends the competitors among these entries.
fn copy<A: Allocator>(entries: &[Entry], out: &mut Vec<Competitor, A>) -> Result<(), NoMemory>
    ensures { IfOk result (λ done. out.new.items ≡ out.old.items ++ live entries.now) }
{
    for entry in entries {
        if let Some(stay) = entry.stay {
            let competitor = Competitor {
                identity: entry.identity,
                stay,
            };
            if out.push(competitor).is_err() {
                return Err(NoMemory);
            }
        }
    }
    Ok(())
}

/// Drops the entries that have left.
fn drop_left<A: Allocator>(entries: &mut Vec<Entry, A>)
    ensures same { live entries.new.items ≡ live entries.old.items }
    ensures few { vec_len entries.new ≡ length (live entries.new.items) }
    ensures room { vec_capacity entries.new ≡ vec_capacity entries.old }
{
    entries.retain(|entry| entry.stay.is_some());
}

/// Makes room for one more entry: where there is none, drops those that have left, and notes the others anew.
fn make_room<A: Allocator>(
    entries: &mut Vec<Entry, A>,
    heads: &mut Vec<u32, A>,
    links: &mut Vec<u32, A>,
    most: usize,
)
    requires range { (1 ≤ most) × (most ≤ 65536) }
    requires few { length (live entries.old.items) < most }
    requires indexed { AreIndexed heads.old.items links.old.items (noted entries.old.items) }
    requires width { (1 ≤ vec_len heads.old) × (vec_len heads.old ≤ 131072) }
    requires room { 2 * most ≤ vec_capacity links.old }
    ensures same { live entries.new.items ≡ live entries.old.items }
    ensures indexed { AreIndexed heads.new.items links.new.items (noted entries.new.items) }
    ensures fewer { vec_len entries.new < 2 * most }
    ensures width { vec_len heads.new ≡ vec_len heads.old }
    ensures entries { vec_capacity entries.new ≡ vec_capacity entries.old }
    ensures links { vec_capacity links.new ≡ vec_capacity links.old }
{
    if entries.len() < 2 * most {
        return;
    }
    drop_left(entries);
    note_all(heads, links, entries);
}

/// A vector of `n` zeros.
fn zeros<A: Allocator>(alloc: A, n: usize) -> Result<Vec<u32, A>, NoMemory>
    ensures { IfOk result (λ xs. xs.items ≡ replicate n 0) }
{
    let Ok(mut xs) = Vec::with_capacity(alloc, n) else {
        return Err(NoMemory);
    };
    for _i in 0..n {
        xs.push_reserved(0);
    }
    Ok(xs)
}

/// The competitors, in the order in which they entered, with room for `most`.
///
/// An entry of one who leaves stays until there are twice `most`. Then those that have left are dropped, and the
/// identities of the others are noted anew. So each call goes through those of one bucket, and of two times `most` calls
/// one goes through all.
#[derive(Drop)]
pub(crate) struct Roster<A: Allocator> {
    most: usize,
    many: usize,
    entries: Vec<Entry, A>,
    heads: Vec<u32, A>,
    links: Vec<u32, A>,
}

impl<A: Allocator> Model for Roster<A> {
    ghost use Rattle.std.specs.Prelude.{◌≡◌, ◌≤◌, ◌*◌, length, vec_len, vec_capacity};
    ghost use Rattle.model_pool.specs.Roster.{RosterState, AreDistinct, AreIndexed, live, noted};

    ghost Value = { RosterState };

    ghost view = { λ r. record { most = r.most; competitors = live r.entries.items } };

    ghost invariant = { λ r. AreDistinct (live r.entries.items) × AreIndexed r.heads.items r.links.items (noted r.entries.items)
        × (r.many ≡ length (live r.entries.items)) × (1 ≤ r.most) × (r.most ≤ 65536) × (vec_len r.heads ≡ 2 * r.most)
        × (vec_capacity r.entries ≡ 2 * r.most) × (vec_capacity r.links ≡ 2 * r.most) };
}

impl<A: Allocator + Clone> Roster<A> {
    /// Makes a roster with no competitor, and allocates room for `most`.
    pub(crate) fn new(alloc: A, most: usize) -> Result<Self, NoMemory>
        requires { (1 ≤ most) × (most ≤ 65536) }
        ensures { IfOk result (λ r. r ≡ record { most = most; competitors = [] }) }
    {
        let Ok(first) = alloc.clone() else {
            return Err(NoMemory);
        };
        let Ok(second) = alloc.clone() else {
            return Err(NoMemory);
        };
        let heads = zeros(first, 2 * most)?;
        let Ok(links) = Vec::with_capacity(second, 2 * most) else {
            return Err(NoMemory);
        };
        let Ok(entries) = Vec::with_capacity(alloc, 2 * most) else {
            return Err(NoMemory);
        };
        Ok(Roster {
            most,
            many: 0,
            entries,
            heads,
            links,
        })
    }
}

impl<A: Allocator> Roster<A> {
    /// Returns the most competitors.
    #[inline(always)]
    pub(crate) fn most(&self) -> usize
        ensures most { result ≡ self.now.most }
        ensures range { (1 ≤ result) × (result ≤ 65536) }
    {
        self.most
    }

    /// Returns how many compete.
    #[inline(always)]
    pub(crate) fn len(&self) -> usize
        ensures { result ≡ length self.now.competitors }
    {
        self.many
    }

    /// Appends the competitors to a list.
    pub(crate) fn copy<B: Allocator>(&self, out: &mut Vec<Competitor, B>) -> Result<(), NoMemory>
        ensures { IfOk result (λ done. out.new.items ≡ out.old.items ++ self.now.competitors) }
    {
        copy(self.entries.as_slice(), out)
    }

    /// Returns the competitor that holds this number.
    pub(crate) fn holder(&self, number: u32) -> Option<u64>
        ensures { result ≡ holder_in number self.now.competitors }
    {
        holder(self.entries.as_slice(), number)
    }

    /// Returns the state of the competitor with identity `id`, or `None` if it does not compete.
    pub(crate) fn stay_of(&self, id: u64) -> Option<Stay>
        ensures { result ≡ stay_of id self.now.competitors }
    {
        let Some(at) = walk(&self.entries, &self.heads, &self.links, id) else {
            return None;
        };
        self.entries[at].stay
    }

    /// Adds a competitor, which did not compete.
    pub(crate) fn add(&mut self, id: u64, stay: Stay)
        requires room { length self.old.competitors < self.old.most }
        requires new { stay_of id self.old.competitors ≡ None }
        ensures { self.new ≡ record self.old { competitors = self.old.competitors ++ record { identity = id; stay = stay } ∷ [] } }
    {
        make_room(
            &mut self.entries,
            &mut self.heads,
            &mut self.links,
            self.most,
        );
        note(&mut self.heads, &mut self.links, id);
        self.entries.push_reserved(Entry {
            identity: id,
            stay: Some(stay),
        });
        self.many += 1;
    }

    /// Replaces the state of the competitor with identity `id`.
    pub(crate) fn put(&mut self, id: u64, stay: Stay)
        ensures { self.new ≡ record self.old { competitors = with_stay id stay self.old.competitors } }
    {
        if let Some(at) = walk(&self.entries, &self.heads, &self.links, id) {
            self.entries[at] = Entry {
                identity: id,
                stay: Some(stay),
            };
        }
    }

    /// Removes the competitor with identity `id`.
    pub(crate) fn remove(&mut self, id: u64)
        ensures { self.new ≡ record self.old { competitors = without id self.old.competitors } }
    {
        if let Some(at) = walk(&self.entries, &self.heads, &self.links, id) {
            self.entries[at] = Entry {
                identity: id,
                stay: None,
            };
            self.many -= 1;
        }
    }
}
