//! The place of a node that C holds: a pointer.
ghost use Rattle.std.specs.Prelude.{◌≡◌, IsSome, Option, Some, None};
ghost use Rattle.std.specs.Coded.{coded_option};
ghost use Rattle.pmg_daemon.specs.declared.daemon.Daemon.{Daemon as Held};
ghost use Rattle.pmg_daemon.specs.contracts.daemon.Daemon.{the_row};

use crate::loose::Loose;
use pmg_daemon::Daemon;
use std::alloc::Global;
use std::marker::Model;
use std::ptr::null_mut;

/// An optional boxed node as its pointer: the pointer owns the node if `value` is one, and nothing if `value` is empty. It is made and
/// taken apart only here. It has no drop, so that no code can lose a node.
#[repr(C)]
pub struct Place {
    at: *mut u8,
    alloc: Global,
    ghost value: { Option Held } by { coded_option the_row.coded },
}

impl Model for Place {
    ghost use Rattle.pmg_daemon.specs.contracts.daemon.Daemon.{the_row};
    ghost use Rattle.pmg_handle.specs.BoxedAt.{boxed_at};

    ghost also_owns = { λ p. boxed_at the_row p.alloc p.at p.value };
}

impl Place {
    /// Makes a place without a node: null.
    pub fn empty(alloc: Global) -> Place
        ensures { result.value ≡ None }
    {
        Place {
            at: null_mut(),
            alloc,
        }
    }

    /// Makes a place with that node.
    pub fn with(loose: Loose<Daemon, Global>) -> Place
        ensures { result.value ≡ Some loose.value }
    {
        let Loose { at, alloc } = loose;
        Place {
            at: at as *mut u8,
            alloc,
        }
    }

    /// Returns the node of a place that has one.
    pub fn into_loose(self) -> Loose<Daemon, Global>
        requires { IsSome self.value }
        ensures { self.value ≡ Some result.value }
    {
        let Place { at, alloc } = self;
        Loose {
            at: at as *mut Daemon,
            alloc,
        }
    }

    /// Discards an empty place.
    pub fn discard(self)
        requires { self.value ≡ None }
    {
        let Place { at: _, alloc: _ } = self;
    }
}
