//! The handle that C keeps. In C it is `struct { void *at; bool full; }`, and it begins with zeros.
ghost use Rattle.std.specs.Prelude.{◌≡◌, is_some, IsNone, Some, None, box_value, if◌then◌else◌, option_map};
ghost use Rattle.pmg_daemon.specs.declared.codes.TheConstants.{DONE, WRONG_HANDLE};

use crate::loose::Loose;
use crate::place::Place;
use pmg_daemon::{DONE, Daemon, WRONG_HANDLE};
use std::alloc::Global;
use std::mem;

/// A place, and whether it has a node: null and false is the empty handle. No code can lose a handle that may have a node.
#[repr(C)]
pub struct Handle {
    place: Place,
    alloc: Global,
    pub full: bool,
    ghost said: { full ≡ is_some place.value },
}

impl Handle {
    /// Makes a handle without a node.
    fn empty(alloc: Global) -> Handle
        ensures { result.place.value ≡ None }
    {
        Handle {
            place: Place::empty(alloc),
            alloc,
            full: false,
        }
    }

    /// Makes a handle with that node.
    fn with(node: Box<Daemon>, alloc: Global) -> Handle
        ensures { result.place.value ≡ Some node.value }
    {
        Handle {
            place: Place::with(Loose::of(node)),
            alloc,
            full: true,
        }
    }

    /// Takes the node out, and then the handle has no node. Returns `None` if it had no node, and then it is unchanged.
    pub fn take(&mut self) -> Option<Box<Daemon>>
        ensures taken { option_map box_value result ≡ self.old.place.value }
        ensures left { self.new.place.value ≡ None }
        ensures kept { IsNone result → self.new ≡ self.old }
    {
        if !self.full {
            return None;
        }
        let alloc = self.alloc;
        let Handle {
            place,
            alloc: _,
            full: _,
        } = mem::replace(self, Handle::empty(alloc));
        Some(place.into_loose().into_box())
    }

    /// Puts a node into an empty handle.
    pub fn put(&mut self, node: Box<Daemon>)
        requires { self.old.place.value ≡ None }
        ensures { self.new.place.value ≡ Some node.value }
    {
        let alloc = self.alloc;
        let Handle {
            place,
            alloc: _,
            full: _,
        } = mem::replace(self, Handle::with(node, alloc));
        place.discard();
    }

    /// Closes its node: done, and then the handle is empty; or it was empty before.
    pub fn close(&mut self) -> u32
        ensures code { result ≡ (if is_some self.old.place.value then DONE else WRONG_HANDLE) }
        ensures closed { IsNone self.new.place.value }
    {
        match self.take() {
            Some(node) => {
                drop(node);
                DONE
            }
            None => WRONG_HANDLE,
        }
    }
}
