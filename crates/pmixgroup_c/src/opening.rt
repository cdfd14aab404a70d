//! The opening and the closing of nodes.
ghost use Rattle.std.specs.Prelude.{◌≡◌, ◌≢◌, IsNone, IsSome, IfSome, is_some, if◌then◌else◌};
ghost use Rattle.pmg_daemon.specs.Codes.{refusal_named};
ghost use Rattle.pmg_daemon.specs.Daemons.{FillsIfTold};
ghost use Rattle.pmg_daemon.specs.Opening.{FailsToOpen, OpensNode};
ghost use Rattle.pmg_daemon.specs.declared.codes.TheConstants.{DONE, WRONG_HANDLE};

use pmg_daemon::{DONE, Daemon, NO_MEMORY, WRONG_HANDLE, refusal_code, refusal_text};
use pmg_handle::Handle;
use std::alloc::Global;

/// Opens a node in an empty handle: the node of the index, in the group that a text describes (`Daemon::open`).
#[unsafe(no_mangle)]
pub extern "C" fn pmixgroup_open(node: &mut Handle, alloc: Global, id: u32, group: &[u8]) -> u32
    ensures opened { result ≡ DONE → IfSome node.new.place.value (λ d. OpensNode id group.now d) }
    ensures held { result ≡ DONE → IsSome node.new.place.value }
    ensures empty { result ≡ DONE → IsNone node.old.place.value }
    ensures wrong { IsSome node.old.place.value → result ≡ WRONG_HANDLE }
    ensures refused { result ≢ DONE → IsNone node.old.place.value → FailsToOpen id group.now result }
    ensures kept { result ≢ DONE → node.new ≡ node.old }
{
    if node.full {
        return WRONG_HANDLE;
    }
    let daemon = match Daemon::open(alloc, id, group) {
        Ok(daemon) => daemon,
        Err(refusal) => return refusal_code(&refusal),
    };
    match Box::new(alloc, daemon) {
        Ok(daemon) => {
            node.put(daemon);
            DONE
        }
        Err(_) => NO_MEMORY,
    }
}

/// Closes the node that the handle holds.
#[unsafe(no_mangle)]
pub extern "C" fn pmixgroup_close(node: &mut Handle) -> u32
    ensures code { result ≡ (if is_some node.old.place.value then DONE else WRONG_HANDLE) }
    ensures closed { IsNone node.new.place.value }
{
    node.close()
}

/// Writes the name of the refusal of that code into the buffer (`refusal_text`). Idle if the code belongs to no refusal.
#[unsafe(no_mangle)]
pub extern "C" fn pmixgroup_refusal(code: u32, buffer: &mut [u8], len: &mut usize) -> u32
    ensures { FillsIfTold (refusal_named code) buffer.old len.old result buffer.new len.new }
{
    refusal_text(code, buffer, len)
}
