//! Registers.

ghost use Rattle.std.specs.Prelude.{◌≡◌, OnOk, OnErr, IfOk, IsOk, IfSome, true, false, replicate};
ghost use Rattle.model_steps.specs.Steps.{MemorySteps, answer_from, Spares};
ghost use Rattle.model_steps.specs.Registers.{memory_steps, register_of, answer_of, after_access};
ghost use Rattle.model_steps.specs.declared.access.Access.{Access};
ghost use Rattle.model_steps.specs.declared.access.Access.TheVariants.{Read};
ghost use Rattle.model_steps.specs.lemmas.RegisterProofs.{others_kept};

use crate::access::{Access, Answer};
use crate::refusal::NoMemory;
use std::alloc::Allocator;
use std::marker::Model;

/// A memory of registers, which participants reach by one atomic access at a time.
pub trait StepMemory {
    /// What names a register.
    type Reg: Copy;

    /// What a register holds.
    type Value;

    /// What the registers hold, what an access leaves, and whether it may fail.
    ghost steps: { MemorySteps Self Self.Reg Self.Value };

    /// Makes one access, and returns its answer: what the register held before it.
    ///
    /// # Errors
    ///
    /// `NoMemory`: the access needed memory and the allocation failed. The memory is unchanged.
    fn access(&mut self, a: Access<Self::Reg, Self::Value>) -> Result<Answer<Self::Value>, NoMemory>
        ensures answer { IfOk result (λ got. got ≡ answer_from (steps.register self.old) a) }
        ensures after { OnOk result (self.new ≡ steps.after self.old a) }
        ensures unchanged_on_error { OnErr result (self.new ≡ self.old) }
        ensures no_memory { OnErr result (steps.may_refuse self.old a ≡ true) };

    /// Lends the value of a register, for a `Read` that copies nothing.
    ///
    /// Returns `None` if the memory lends no value of this register. `access` then answers the `Read`.
    fn look(&self, _register: &Self::Reg) -> Option<&Self::Value>
        ensures value { IfSome result (λ value. value.now ≡ (steps.register self.now _register.now).0) }
        ensures kept { IfSome result (λ value. steps.after self.now (Read _register.now) ≡ self.now) }
    {
        None
    }

    /// An access changes no register but the one that it names.
    ghost others: { (m : Self) (a : Access Self.Reg Self.Value) (r : Self.Reg) → Spares a r → steps.register (steps.after m a) r ≡ steps.register m r };
}

/// Registers of values and registers of bits, each numbered from 0. All are made by `new`, so no access fails.
///
/// A read of a number that is out of range returns the first value, or a clear bit. A write there changes nothing.
#[derive(Drop)]
pub struct Memory<V, A: Allocator> {
    first: V,
    values: Vec<V, A>,
    bits: Vec<bool, A>,
}

impl<V, A: Allocator> Model for Memory<V, A> {
    ghost use Rattle.model_steps.specs.RegisterState.{Registers};

    ghost Value = { Registers V };

    ghost view = { λ m. record { first = m.first; values = m.values.items; bits = m.bits.items } };
}

/// A vector of `n` copies of `x`.
fn filled<T: Copy, A: Allocator>(alloc: A, x: T, n: usize) -> Result<Vec<T, A>, NoMemory>
    ensures { IfOk result (λ xs. xs.items ≡ replicate n x) }
{
    let Ok(mut xs) = Vec::with_capacity(alloc, n) else {
        return Err(NoMemory);
    };
    for _i in 0..n {
        xs.push_reserved(x);
    }
    Ok(xs)
}

impl<V: Copy, A: Allocator + Clone> Memory<V, A> {
    /// Makes `values` registers that hold `first`, and `bits` bits that are clear.
    ///
    /// # Errors
    ///
    /// `NoMemory`: an allocation failed.
    pub fn new(alloc: A, first: V, values: usize, bits: usize) -> Result<Self, NoMemory>
        ensures { IfOk result (λ m. m ≡ record { first = first; values = replicate values first; bits = replicate bits false }) }
    {
        let Ok(other) = alloc.clone() else {
            return Err(NoMemory);
        };
        Ok(Memory {
            first,
            values: filled(alloc, first, values)?,
            bits: filled(other, false, bits)?,
        })
    }
}

impl<V: Copy, A: Allocator> Memory<V, A> {
    /// Returns the value of a register. This is no access: it is for observers of a world.
    pub fn value(&self, r: usize) -> V
        ensures { result ≡ (register_of self.now r).0 }
    {
        if r < self.values.len() {
            self.values[r]
        } else {
            self.first
        }
    }

    /// Returns whether a bit is set. This is no access: it is for observers of a world.
    pub fn bit(&self, r: usize) -> bool
        ensures { result ≡ (register_of self.now r).1 }
    {
        r < self.bits.len() && self.bits[r]
    }
}

impl<V: Copy, A: Allocator> StepMemory for Memory<V, A> {
    type Reg = usize;

    type Value = V;

    ghost steps = { memory_steps };

    fn access(&mut self, a: Access<usize, V>) -> Result<Answer<V>, NoMemory>
        ensures answer { IfOk result (λ got. got ≡ answer_of self.old a) }
        ensures after { OnOk result (self.new ≡ after_access self.old a) }
        ensures sure { IsOk result }
    {
        Ok(match a {
            Access::Read(r) => Answer::Value(self.value(r)),
            Access::Write(r, v) => {
                if r < self.values.len() {
                    self.values[r] = v;
                }
                Answer::Done
            }
            Access::TestAndSet(r) => {
                if r < self.bits.len() {
                    let was = self.bits[r];
                    self.bits[r] = true;
                    Answer::WasSet(was)
                } else {
                    Answer::WasSet(false)
                }
            }
            Access::Clear(r) => {
                if r < self.bits.len() {
                    self.bits[r] = false;
                }
                Answer::Done
            }
            Access::Nothing => Answer::Done,
        })
    }

    fn look(&self, register: &usize) -> Option<&V>
        ensures value { IfSome result (λ value. value.now ≡ (register_of self.now register.now).0) }
        ensures kept { IfSome result (λ value. after_access self.now (Read register.now) ≡ self.now) }
    {
        self.values.get(*register)
    }

    ghost others = { others_kept };
}
