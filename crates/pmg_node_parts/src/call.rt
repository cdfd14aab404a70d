//! The call that a process is in, and its completion.
ghost use Rattle.std.specs.Prelude.{◌≡◌, IfOk};
ghost use Rattle.std.specs.Option.{option_map};
ghost use Rattle.pmg_node_parts.specs.Calls.{anew_in, answered_in, get_of, found_outcome, released_by_fence, standing_of, standing_by};

use pmg_frame::FenceName;
use pmg_value::{Key, Proc, Value, copy_all};
use std::alloc::AllocError;

/// The answer to a get that waited (PMIx Standard 5.0, PMIx_Get).
#[derive(Drop)]
pub enum Found {
    /// The value.
    Value(Value),
    /// There is no value, and there will be no value.
    NotFound,
    /// There is a value, but its scope keeps it from the asking process.
    OutsideScope,
}

/// The call that an own process is in (PMIx Standard 5.0, PMIx_Fence, PMIx_Get).
pub enum Call {
    /// The process is in the fence, and not released.
    InFence(FenceName),
    /// The process is released from the fence, with the gone participants, and has not left it.
    Released(FenceName, Vec<Proc>),
    /// The process's get waits for the key of the other process.
    Parked(Proc, Key),
    /// The process's get of the key of the other process is answered, and the process has not taken the answer.
    Answered(Proc, Key, Found),
    /// The process's get of the key of the other process asks anew, and waits for the reply to the node's request of that number.
    Refreshing(Proc, Key, u64),
    /// This reply came and answered the get, and the process has not taken the answer.
    Refreshed(Proc, Key, Found),
}

impl Drop for Call {
    fn drop(self) {
        match self {
            Call::InFence(_) => {}
            Call::Released(_, _) => {}
            Call::Parked(_, _) => {}
            Call::Answered(_, _, _) => {}
            Call::Refreshing(_, _, _) => {}
            Call::Refreshed(_, _, _) => {}
        }
    }
}

/// The completion of a call that waited: it waits no longer, and its process has yet to take the answer.
pub enum Completion {
    /// The process is released from the fence, with the gone participants.
    Released(FenceName, Vec<Proc>),
    /// The get of the key of the process is answered.
    Answered(Proc, Key, Found),
    /// The get of the key of the process, which asks anew, is answered.
    Refreshed(Proc, Key, Found),
}

impl Drop for Completion {
    fn drop(self) {
        match self {
            Completion::Released(_, _) => {}
            Completion::Answered(_, _, _) => {}
            Completion::Refreshed(_, _, _) => {}
        }
    }
}

impl Found {
    /// Returns a copy, an equal answer.
    fn copy(&self) -> Result<Found, AllocError>
        ensures { IfOk result (λ copy. found_outcome copy ≡ found_outcome self.now) }
    {
        Ok(match self {
            Found::Value(value) => Found::Value(value.copy()?),
            Found::NotFound => Found::NotFound,
            Found::OutsideScope => Found::OutsideScope,
        })
    }
}

impl Call {
    /// Returns a copy, an equal call.
    pub fn copy(&self) -> Result<Call, AllocError>
        ensures { IfOk result (λ copy. standing_of copy ≡ standing_of self.now) }
    {
        Ok(match self {
            Call::InFence(name) => Call::InFence(name.copy()?),
            Call::Released(name, gone) => Call::Released(name.copy()?, copy_all(gone)?),
            Call::Parked(target, key) => Call::Parked(target.copy()?, key.copy()?),
            Call::Answered(target, key, found) => {
                Call::Answered(target.copy()?, key.copy()?, found.copy()?)
            }
            Call::Refreshing(target, key, number) => {
                Call::Refreshing(target.copy()?, key.copy()?, *number)
            }
            Call::Refreshed(target, key, found) => {
                Call::Refreshed(target.copy()?, key.copy()?, found.copy()?)
            }
        })
    }

    /// Returns the fence that released the process, and the gone participants, if the process is released.
    pub fn into_released(self) -> Option<(FenceName, Vec<Proc>)>
        ensures { option_map (λ r. (r.0, r.1.items)) result ≡ released_by_fence (standing_of self) }
    {
        match self {
            Call::Released(name, gone) => Some((name, gone)),
            Call::InFence(_) | Call::Parked(_, _) | Call::Answered(_, _, _) => None,
            Call::Refreshing(_, _, _) | Call::Refreshed(_, _, _) => None,
        }
    }

    /// Returns the answer to the process's get, if there is one.
    pub fn into_found(self) -> Option<Found>
        ensures { option_map found_outcome result ≡ answered_in (standing_of self) }
    {
        match self {
            Call::Answered(_, _, found) => Some(found),
            Call::Refreshed(_, _, found) => Some(found),
            Call::InFence(_) | Call::Released(_, _) | Call::Parked(_, _) => None,
            Call::Refreshing(_, _, _) => None,
        }
    }

    /// Returns the target and the key of the get that asks anew, and the number of its request, if the call is such a get.
    pub fn refreshing(&self) -> Option<(&Proc, &Key, u64)>
        ensures { option_map (λ g. (get_of g.0.now g.1.now, g.2)) result ≡ anew_in (standing_of self.now) }
    {
        match self {
            Call::Refreshing(target, key, number) => Some((target, key, *number)),
            Call::InFence(_) | Call::Released(..) | Call::Parked(..) => None,
            Call::Answered(..) | Call::Refreshed(..) => None,
        }
    }
}

impl Completion {
    /// Returns the completed call.
    pub fn into_call(self) -> Call
        ensures { standing_of result ≡ standing_by self }
    {
        match self {
            Completion::Released(name, gone) => Call::Released(name, gone),
            Completion::Answered(target, key, found) => Call::Answered(target, key, found),
            Completion::Refreshed(target, key, found) => Call::Refreshed(target, key, found),
        }
    }
}
