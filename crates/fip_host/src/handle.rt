// A machine after a pointer, which a C program holds.
ghost use Rattle.std.specs.Prelude.{◌≡◌, Option, Some};
ghost use Rattle.std.specs.Coded.{coded_option};
ghost use Rattle.fip_host.specs.declared.hosted.Hosted.{Hosted};
ghost use Rattle.fip_host.specs.HandleOwns.{handle_owns, hosted_coded, slot_owns};

mod parts;

use crate::hosted::Hosted;
use parts::Parts;
use std::alloc::Global;
use std::marker::Model;

/// What a C program holds of a machine: a pointer that it neither follows nor copies.
#[repr(C)]
pub struct Handle {
    at: *mut u8,
    alloc: Global,
    pub ghost held: { Hosted } by { hosted_coded },
}

impl Model for Handle {
    ghost also_owns = { λ h. handle_owns h.alloc h.at h.held };
}

impl Handle {
    ghost use Rattle.std.specs.Borrow.{sem};
    ghost use Rattle.fip_host.specs.HandleFollows.{handle_follows};

    /// The machine, to be used in place.
    pub fn machine(&mut self) -> &mut Hosted
        ensures* writes_back { sem 𝓛 (handle_follows self.entry result) }
        ensures value { result.now ≡ self.old.held }
    {
        unsafe { &mut *(self.at as *mut Hosted) }
    }

    /// The machine, which the handle gives up.
    pub fn into_box(self) -> Box<Hosted>
        ensures { result.value ≡ self.held }
    {
        self.into_parts().into_box()
    }

    fn into_parts(self) -> Parts<Hosted, Global>
        ensures { result.value ≡ self.held }
    {
        let Handle { at, alloc } = self;
        Parts {
            ptr: at as *mut Hosted,
            alloc,
        }
    }
}

/// Where a C program is handed a machine: a handle of it, or nothing yet. What is put there takes the place of what was
/// there, which isn't ended.
#[repr(C)]
#[derive(Drop)]
pub struct Slot {
    at: *mut u8,
    alloc: Global,
    pub ghost held: { Option Hosted } by { coded_option hosted_coded },
}

impl Model for Slot {
    ghost also_owns = { λ s. slot_owns s.alloc s.at s.held };
}

impl Slot {
    /// A slot with the machine of a box.
    pub fn of(machine: Box<Hosted>) -> Slot
        ensures { result.held ≡ Some machine.value }
    {
        Slot::of_parts(Parts::of(machine))
    }

    fn of_parts(parts: Parts<Hosted, Global>) -> Slot
        ensures { result.held ≡ Some parts.value }
    {
        let Parts { ptr, alloc } = parts;
        Slot {
            at: ptr as *mut u8,
            alloc,
        }
    }
}
