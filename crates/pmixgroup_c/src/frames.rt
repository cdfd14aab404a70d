//! Bytes of other nodes, and bytes for them.
ghost use Rattle.std.specs.Prelude.{◌≡◌, slice_get};
ghost use Rattle.pmg_daemon.specs.Frames.{DeliversFrom, FeedsFrom, TakesNext, TellsFaultFrom};
ghost use Rattle.pmixgroup_c.specs.Nodes.{OnNode};

use pmg_daemon::WRONG_HANDLE;
use pmg_handle::Handle;

/// Takes bytes of another node (`Daemon::feed`).
#[unsafe(no_mangle)]
pub extern "C" fn pmixgroup_feed(node: &mut Handle, from: u32, bytes: &[u8]) -> u32
    ensures { OnNode node.old.place.value node.new.place.value result (Unit {0})
        (λ d e. FeedsFrom (slice_get d.inboxes.items from) d from bytes.now result e) }
{
    on_node!(node, daemon, daemon.feed(from, bytes))
}

/// Delivers the next frame of another node (`Daemon::deliver`).
#[unsafe(no_mangle)]
pub extern "C" fn pmixgroup_deliver(node: &mut Handle, from: u32) -> u32
    ensures { OnNode node.old.place.value node.new.place.value result (Unit {0})
        (λ d e. DeliversFrom (slice_get d.inboxes.items from) d from result e) }
{
    on_node!(node, daemon, daemon.deliver(from))
}

/// Takes the next frame for another node (`Daemon::next`).
#[unsafe(no_mangle)]
pub extern "C" fn pmixgroup_next(
    node: &mut Handle,
    to: &mut u32,
    buffer: &mut [u8],
    len: &mut usize,
) -> u32
    ensures { OnNode node.old.place.value node.new.place.value result ((to.new ≡ to.old) × ((buffer.new ≡ buffer.old) × (len.new ≡ len.old)))
        (λ d e. TakesNext (slice_get d.link.waiting 0) d to.old buffer.old len.old result e to.new buffer.new len.new) }
{
    on_node!(node, daemon, daemon.next(to, buffer, len))
}

/// Returns the fault in the bytes of another node (`Daemon::fault`).
#[unsafe(no_mangle)]
pub extern "C" fn pmixgroup_fault(
    node: &mut Handle,
    from: u32,
    offset: &mut u64,
    buffer: &mut [u8],
    len: &mut usize,
) -> u32
    ensures { OnNode node.old.place.value node.new.place.value result ((offset.new ≡ offset.old) × ((buffer.new ≡ buffer.old) × (len.new ≡ len.old)))
        (λ d e. (e ≡ d) × TellsFaultFrom (slice_get d.inboxes.items from) offset.old buffer.old len.old result offset.new buffer.new len.new) }
{
    on_node!(node, daemon, daemon.fault(from, offset, buffer, len))
}
