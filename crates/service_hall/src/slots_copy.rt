//! A copy of a pool and its slots, as plain values.

ghost use Rattle.std.specs.Prelude.{ℕ, ◌+◌, ◌≡◌, ◌≤◌, ◌<◌, true, false, length, replicate, is_some, if◌then◌else◌, ◌++◌, ◌-◌, vec_len, IfOk, IfSome, OnOk, slice_index_or, slice_set};
ghost use Rattle.model_steps.specs.Registers.{answer_of, after_access};
ghost use Rattle.model_pool.specs.Competitors.{index_of, stay_of, with_stay, without, holder_in, holds_at};
ghost use Rattle.model_pool.specs.Pool.{fresh_pool};
ghost use Rattle.model_pool.specs.Stay.{probe_access, stay_probed, leave_access, held_at};
ghost use Rattle.model_pool.specs.declared.stay.Stay.TheVariants.{Seeking, Settled};
ghost use Rattle.model_steps.specs.declared.access.Access.TheVariants.{TestAndSet, Nothing};
ghost use Rattle.model_pool.specs.Sought.{sought_on};
ghost use Rattle.model_steps.specs.RegisterState.{Registers};
ghost use Rattle.model_pool.specs.Widening.{widen_refusal};
ghost use Rattle.model_asked.specs.declared.event.Event.TheVariants.{Probe, Seek, Leave, Put, Widen};
ghost use Rattle.service_hall.specs.Copies.{bits_in, slots_in};
ghost use Rattle.service_hall.specs.Slots.{LetsIn, slots_after};

use crate::stuck::Stuck;
use model_asked::Event;
use model_pool::{Competitor, Stay};
use std::alloc::Global;

/// A copy of a pool and its slots, which follows accepted events.
#[derive(Drop)]
pub(crate) struct SlotsCopy {
    /// The most numbers that the pool may get.
    most: u32,
    pub(crate) size: u32,
    pub(crate) bits: Vec<bool>,
    pub(crate) competitors: Vec<Competitor>,
    pub(crate) values: Vec<u64>,
}

/// Returns the index of the competitor with an identity.
fn find(competitors: &[Competitor], id: u64) -> Option<usize>
    ensures answer { result ≡ index_of id competitors.now }
    ensures inside { IfSome result (λ i. i < length competitors.now) }
{
    for (i, competitor) in competitors.iter().enumerate() {
        if competitor.identity == id {
            return Some(i);
        }
    }
    None
}

/// Returns the state of a competitor, or `None` if the identity does not compete.
fn stay_of(competitors: &[Competitor], id: u64) -> Option<Stay>
    ensures { result ≡ stay_of id competitors.now }
{
    for competitor in competitors {
        if competitor.identity == id {
            return Some(competitor.stay);
        }
    }
    None
}

/// Replaces the state of an identity that competes.
fn put_stay(competitors: &mut [Competitor], id: u64, stay: Stay)
    ensures { competitors.new ≡ with_stay id stay competitors.old }
{
    if let Some(i) = find(competitors, id) {
        let was = competitors[i];
        competitors[i] = Competitor {
            identity: was.identity,
            stay,
        };
    }
}

/// Whether a competitor in this state holds a number.
fn holds(stay: Stay, number: u32) -> bool
    ensures { result ≡ holds_at number (held_at stay) }
{
    match stay {
        Stay::Seeking(_) => false,
        Stay::Settled(held) => held == number,
    }
}

/// Returns true only if the two competitors are equal.
fn is_one(one: Competitor, other: Competitor) -> bool
    ensures { result ≡ true → one ≡ other }
{
    if one.identity != other.identity {
        return false;
    }
    match (one.stay, other.stay) {
        (Stay::Seeking(next), Stay::Seeking(beside)) => next == beside,
        (Stay::Settled(number), Stay::Settled(beside)) => number == beside,
        (Stay::Seeking(_), Stay::Settled(_)) => false,
        (Stay::Settled(_), Stay::Seeking(_)) => false,
    }
}

/// Returns true only if the two rows of competitors are equal.
fn is_one_row(row: &[Competitor], other: &[Competitor]) -> bool
    ensures { result ≡ true → row.now ≡ other.now }
{
    if row.len() != other.len() {
        return false;
    }
    for (i, competitor) in row.iter().enumerate() {
        if !is_one(*competitor, other[i]) {
            return false;
        }
    }
    true
}

/// Removes the competitor with an identity.
fn remove(competitors: &mut Vec<Competitor>, id: u64)
    ensures { competitors.new.items ≡ without id competitors.old.items }
{
    competitors.retain(|competitor| competitor.identity != id);
}

/// Whether a competitor holds this number.
fn is_held(competitors: &[Competitor], number: u32) -> bool
    ensures { result ≡ is_some (holder_in number competitors.now) }
{
    for competitor in competitors {
        if holds(competitor.stay, number) {
            return true;
        }
    }
    false
}

/// Sets a bit, and returns whether it was set.
fn set(bits: &mut [bool], number: u32) -> bool
    ensures was { result ≡ slice_index_or bits.old number false }
    ensures bits { bits.new ≡ slice_set bits.old number true }
{
    let at = number as usize;
    if at >= bits.len() {
        return false;
    }
    let was = bits[at];
    bits[at] = true;
    was
}

/// Clears the bit of a number that is given back, in a pool of this size.
fn release(bits: &mut [bool], size: u32, number: u32)
    ensures { bits_in bits.new ≡ after_access (bits_in bits.old) (leave_access size (Settled number)) }
{
    let at = number as usize;
    if number < size && at < bits.len() {
        bits[at] = false;
    }
}

/// Sets the bit of the number that was the last one of a pool, if it is held.
fn keep_last(bits: &mut [bool], competitors: &[Competitor], size: u32)
    ensures { bits_in bits.new ≡ after_access (bits_in bits.old) (if is_some (holder_in size competitors.now) then TestAndSet size else Nothing) }
{
    if is_held(competitors, size) {
        let _ = set(bits, size);
    }
}

/// Puts a value into the slot of a number.
fn put_value(values: &mut [u64], number: u32, value: u64)
    ensures { values.new ≡ slice_set values.old (number - 1) value }
{
    let at = (number as usize).saturating_sub(1);
    if at < values.len() {
        values[at] = value;
    }
}

/// Appends zeros to the values until there are `count`.
fn lengthen(values: &mut Vec<u64>, count: usize) -> Result<(), Stuck>
    ensures { OnOk result (values.new.items ≡ values.old.items ++ replicate (count - vec_len values.old) 0) }
{
    let more = count.saturating_sub(values.len());
    for _i in 0..more {
        values.push(0)?;
    }
    Ok(())
}

/// Returns the state of a competitor after a probe of this number, whose bit is then set.
fn probed(bits: &mut [bool], size: u32, next: u32) -> Stay
    ensures stay { result ≡ stay_probed size (Seeking next) (answer_of (bits_in bits.old) (probe_access size (Seeking next))) }
    ensures bits { bits_in bits.new ≡ after_access (bits_in bits.old) (probe_access size (Seeking next)) }
{
    if size <= next {
        return Stay::Settled(size);
    }
    if !set(bits, next) {
        return Stay::Settled(next);
    }
    if next + 1 < size {
        Stay::Seeking(next + 1)
    } else {
        Stay::Settled(size)
    }
}

/// Returns the number that probes from this one on give, whose bit is then set.
fn sought(bits: &mut [bool], size: u32, next: u32) -> u32
    ensures number { result ≡ (sought_on size size (Seeking next) (bits_in bits.old)).0 }
    ensures bits { bits_in bits.new ≡ (sought_on size size (Seeking next) (bits_in bits.old)).1 }
{
    let mut stay = Stay::Seeking(next);
    let mut left = size;
    while left > 0 {
        stay = probed_on(bits, size, stay);
        left -= 1;
    }
    number_at(stay, size)
}

/// Returns the state of a competitor after a probe, which it makes while it seeks.
fn probed_on(bits: &mut [bool], size: u32, stay: Stay) -> Stay
    ensures { (probes : ℕ) → sought_on (probes + 1) size stay (bits_in bits.old) ≡ sought_on probes size result (bits_in bits.new) }
{
    match stay {
        Stay::Seeking(next) => probed(bits, size, next),
        Stay::Settled(number) => Stay::Settled(number),
    }
}

/// Returns the number that is held, or the last where none is.
fn number_at(stay: Stay, size: u32) -> u32
    ensures { (bits : Registers (Unit {0})) → sought_on 0 size stay bits ≡ (result, bits) }
{
    match stay {
        Stay::Seeking(_) => size,
        Stay::Settled(number) => number,
    }
}

impl SlotsCopy {
    /// Makes a copy of a fresh pool of `size` numbers, which may get up to `most`. Each slot holds 0.
    pub(crate) fn new(alloc: Global, most: u64, size: u64) -> Result<SlotsCopy, Stuck>
        requires { (size ≤ most) × (most ≤ 65536) }
        ensures { IfOk result (λ c. slots_in c ≡ record { pool = fresh_pool (record { most = most; size = size }); values = replicate size 0 }) }
    {
        Ok(SlotsCopy {
            most: most as u32,
            size: size as u32,
            bits: Vec::from_elem(alloc, false, most as usize + 1)?,
            competitors: Vec::new(alloc),
            values: Vec::from_elem(alloc, 0u64, size as usize)?,
        })
    }

    /// Follows a probe.
    fn probe(&mut self, id: u64)
        ensures { slots_in self.new ≡ slots_after (slots_in self.old) (Probe id) }
    {
        if let Some(Stay::Seeking(next)) = stay_of(&self.competitors, id) {
            let stay = probed(&mut self.bits, self.size, next);
            put_stay(&mut self.competitors, id, stay);
        }
    }

    /// Follows probes until a number is had.
    fn seek(&mut self, id: u64)
        ensures { slots_in self.new ≡ slots_after (slots_in self.old) (Seek id) }
    {
        if let Some(Stay::Seeking(next)) = stay_of(&self.competitors, id) {
            let number = sought(&mut self.bits, self.size, next);
            put_stay(&mut self.competitors, id, Stay::Settled(number));
        }
    }

    /// Follows a holder that leaves.
    fn leave(&mut self, id: u64)
        ensures { slots_in self.new ≡ slots_after (slots_in self.old) (Leave id) }
    {
        if let Some(Stay::Settled(number)) = stay_of(&self.competitors, id) {
            release(&mut self.bits, self.size, number);
            remove(&mut self.competitors, id);
        }
    }

    /// Follows a holder that puts a value.
    fn put(&mut self, id: u64, value: u64)
        ensures { slots_in self.new ≡ slots_after (slots_in self.old) (Put id value) }
    {
        if let Some(Stay::Settled(number)) = stay_of(&self.competitors, id) {
            put_value(&mut self.values, number, value);
        }
    }

    /// Follows a pool that gets more numbers.
    fn widen(&mut self, size: u64) -> Result<(), Stuck>
        ensures { OnOk result (widen_refusal self.old.most self.old.size size ≡ None → slots_in self.new ≡ slots_after (slots_in self.old) (Widen size)) }
    {
        if size > u64::from(self.most) {
            return Err(Stuck);
        }
        lengthen(&mut self.values, size as usize)?;
        keep_last(&mut self.bits, &self.competitors, self.size);
        self.size = size as u32;
        Ok(())
    }

    /// Changes as the pool and the slots do by an accepted event.
    pub(crate) fn follow(&mut self, event: Event) -> Result<(), Stuck>
        ensures { OnOk result (LetsIn (slots_in self.old) event → slots_in self.new ≡ slots_after (slots_in self.old) event) }
    {
        match event {
            Event::Begin(_) => {}
            Event::Step(_) => {}
            Event::Enter(id) => self.competitors.push(Competitor {
                identity: id,
                stay: Stay::Seeking(1),
            })?,
            Event::Probe(id) => self.probe(id),
            Event::Seek(id) => self.seek(id),
            Event::Leave(id) => self.leave(id),
            Event::Put(id, value) => self.put(id, value),
            Event::Get(_) => {}
            Event::Widen(size) => self.widen(size)?,
        }
        Ok(())
    }

    /// Whether a competitor holds this number. Not proved: it only chooses events.
    pub(crate) fn holds(&self, number: u32) -> bool {
        is_held(&self.competitors, number)
    }

    /// Returns true only if the two copies are equal.
    pub(crate) fn is_same(&self, other: &SlotsCopy) -> bool
        ensures { result ≡ true → slots_in self.now ≡ slots_in other.now }
    {
        let bits = self.bits == other.bits;
        let competitors = is_one_row(&self.competitors, &other.competitors);
        let values = self.values == other.values;
        if !bits || !competitors || !values {
            return false;
        }
        if self.most != other.most {
            return false;
        }
        self.size == other.size
    }
}
