//! What a node holds.

ghost use Rattle.std.specs.Prelude.{◌≡◌, Some, IfSome};
ghost use Rattle.model_splitter.specs.declared.tree.register.TreeValue.TheVariants as value;
ghost use Rattle.model_splitter.specs.tree.TreeSteps.{fresh_registers, value_in, value_of, registers_after_write};

use crate::tree::kept_segment::KeptSegment;
use crate::tree::register::{MARKED, TreeRegister, TreeValue, WrittenValue};

/// The registers of a node: its splitter's X and Y, and its segment. Its mark is set as long as the node exists.
#[derive(Clone, Copy, Debug, Drop)]
pub struct NodeRegisters {
    /// X: 0 at first, then an identity.
    pub x: u64,
    /// Y: 0 at first, and 1 once it is set.
    pub y: u64,
    /// The segment of the participant whose place the node is.
    pub segment: KeptSegment,
}

impl NodeRegisters {
    /// Makes a splitter that no participant has entered, and an empty segment.
    pub fn new() -> NodeRegisters
        ensures { result ≡ fresh_registers }
    {
        NodeRegisters {
            x: 0,
            y: 0,
            segment: KeptSegment::of(None),
        }
    }

    /// Returns the value of a register of this node.
    pub fn read(&self, register: TreeRegister) -> TreeValue
        ensures { result ≡ value_in register (Some self.now) }
    {
        match register {
            TreeRegister::Mark(_) => TreeValue::Word(MARKED),
            TreeRegister::X(_) => TreeValue::Word(self.x),
            TreeRegister::Y(_) => TreeValue::Word(self.y),
            TreeRegister::Contents(_) => *self.segment.value(),
        }
    }

    /// Returns the word in a register of this node, or `None` if the register is the segment.
    pub fn word(&self, register: TreeRegister) -> Option<u64>
        ensures { IfSome result (λ word. value_in register (Some self.now) ≡ value.Word word) }
    {
        match register {
            TreeRegister::Mark(_) => Some(MARKED),
            TreeRegister::X(_) => Some(self.x),
            TreeRegister::Y(_) => Some(self.y),
            TreeRegister::Contents(_) => None,
        }
    }

    /// Writes into a register of this node. A mark that is set stays set. A value of the wrong kind changes nothing.
    pub fn write(&mut self, register: TreeRegister, value: WrittenValue)
        ensures { self.new ≡ registers_after_write register (value_of value.entry) self.old }
    {
        match (register, value) {
            (TreeRegister::X(_), WrittenValue::Word(word)) => self.x = word,
            (TreeRegister::Y(_), WrittenValue::Word(word)) => self.y = word,
            (TreeRegister::Contents(_), WrittenValue::Contents(segment)) => {
                self.segment = KeptSegment::of(*segment);
            }
            (TreeRegister::Mark(_), WrittenValue::Word(_)) => {}
            (TreeRegister::Mark(_), WrittenValue::Contents(_)) => {}
            (TreeRegister::X(_), WrittenValue::Contents(_)) => {}
            (TreeRegister::Y(_), WrittenValue::Contents(_)) => {}
            (TreeRegister::Contents(_), WrittenValue::Word(_)) => {}
        }
    }
}
