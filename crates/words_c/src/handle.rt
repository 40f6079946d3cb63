//! A boxed part as an opaque pointer.

ghost use Rattle.std.specs.Prelude.{◌≡◌, Option, None, Some, true, false};
ghost use Rattle.words_c.specs.declared.part.Part.{Part};
ghost use Rattle.words_c.specs.Held.{held_owns, held_coded, part_row};

use crate::part::Part;
use crate::parts::Parts;
use std::alloc::Global;
use std::marker::Model;
use std::ptr;

/// One thread's part that a caller holds, or nothing.
#[repr(C)]
#[derive(Drop)]
pub struct Handle {
    at: *mut u8,
    alloc: Global,
    pub ghost part: { Option Part } by { held_coded part_row },
}

impl Model for Handle {
    ghost also_owns = { λ h. held_owns part_row h.alloc h.at h.part };
}

impl Handle {
    pub fn blank(alloc: Global) -> Handle
        ensures { result.part ≡ None }
    {
        Handle {
            at: ptr::null_mut(),
            alloc,
        }
    }

    fn of_parts(parts: Parts<Part, Global>) -> Handle
        ensures { result.part ≡ Some parts.value }
    {
        let Parts { ptr, alloc } = parts;
        Handle {
            at: ptr as *mut u8,
            alloc,
        }
    }

    fn into_parts(self) -> Parts<Part, Global>
        ghost part: { Part }
        requires { self.part ≡ Some part }
        ensures { result.value ≡ part }
    {
        let Handle { at, alloc } = self;
        Parts {
            ptr: at as *mut Part,
            alloc,
        }
    }

    /// A handle of a boxed part.
    pub fn of(whole: Box<Part, Global>) -> Handle
        ensures { result.part ≡ Some whole.value }
    {
        Handle::of_parts(Parts::of(whole))
    }

    /// The boxed part of a handle that holds one.
    pub fn into_box(self) -> Box<Part, Global>
        ghost part: { Part }
        requires { self.part ≡ Some part }
        ensures { result.value ≡ part }
    {
        self.into_parts().into_box()
    }

    /// Has a handle that holds nothing hold a part; `false`, and it holds nothing, if memory was refused.
    pub fn fill(&mut self, alloc: Global, part: Part) -> bool
        requires empty { self.old.part ≡ None }
        ensures made { result ≡ true → self.new.part ≡ Some part }
        ensures none { result ≡ false → self.new.part ≡ None }
    {
        match Box::new(alloc, part) {
            Ok(whole) => {
                *self = Handle::of(whole);
                true
            }
            Err(_) => false,
        }
    }
}

// What it holds is plain data on the heap.
unsafe impl Send for Handle {}
