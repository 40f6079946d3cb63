//! A segment, stored as the value of its register.

ghost use Rattle.std.specs.Prelude.{◌≡◌};
ghost use Rattle.model_splitter.specs.declared.tree.register.TreeValue.TheVariants as value;

use crate::tree::register::TreeValue;
use model_steps::Segment;
use std::marker::Model;

/// A segment, stored as the value of its register, so that it can be lent. Contracts see the segment.
#[derive(Clone, Copy, Debug, Drop)]
pub struct KeptSegment {
    value: TreeValue,
}

impl Model for KeptSegment {
    ghost use Rattle.std.specs.Prelude.{◌≡◌, Option};
    ghost use Rattle.model_steps.specs.declared.record.Record.{Record};
    ghost use Rattle.model_splitter.specs.declared.tree.register.TreeValue.TheVariants.{Contents};
    ghost use Rattle.model_splitter.specs.tree.TreeMemory.{segment_in};

    ghost Value = { Option Record };

    ghost view = { λ k. segment_in k.value };

    ghost invariant = { λ k. Contents (segment_in k.value) ≡ k.value };

    ghost inverse = { λ s. record { value = Contents s } };

    ghost inverse_ok = { λ k h i. record { value = h i } };
}

impl KeptSegment {
    /// Stores a segment.
    pub fn of(segment: Segment) -> Self
        ensures { result ≡ segment }
    {
        KeptSegment {
            value: TreeValue::Contents(segment),
        }
    }

    /// Returns the value of its register.
    pub fn value(&self) -> &TreeValue
        ensures { result.now ≡ value.Contents self.now }
    {
        &self.value
    }
}
