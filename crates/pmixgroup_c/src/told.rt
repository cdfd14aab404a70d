//! The results for the daemon beside codes and numbers.
ghost use Rattle.std.specs.Prelude.{◌≡◌};
ghost use Rattle.pmg_node.specs.Acting.{reply_as};
ghost use Rattle.pmg_daemon.specs.Daemons.{FillsIfTold, TellsMembers, TellsProc, TellsStatus, gone_at, members_said, status_said, value_told};
ghost use Rattle.pmixgroup_c.specs.Nodes.{OnNode};

use pmg_daemon::WRONG_HANDLE;
use pmg_handle::Handle;

/// Returns the value of the last reply (`Daemon::value`).
#[unsafe(no_mangle)]
pub extern "C" fn pmixgroup_value(node: &mut Handle, buffer: &mut [u8], len: &mut usize) -> u32
    ensures { OnNode node.old.place.value node.new.place.value result ((buffer.new ≡ buffer.old) × (len.new ≡ len.old))
        (λ d e. (e ≡ d) × FillsIfTold (value_told (reply_as d.reply)) buffer.old len.old result buffer.new len.new) }
{
    on_node!(node, daemon, daemon.value(buffer, len))
}

/// Returns a participant that was gone from the fence of the last reply (`Daemon::gone`).
#[unsafe(no_mangle)]
pub extern "C" fn pmixgroup_gone(
    node: &mut Handle,
    index: usize,
    buffer: &mut [u8],
    len: &mut usize,
    rank: &mut u32,
) -> u32
    ensures { OnNode node.old.place.value node.new.place.value result ((buffer.new ≡ buffer.old) × ((len.new ≡ len.old) × (rank.new ≡ rank.old)))
        (λ d e. (e ≡ d) × TellsProc (gone_at (reply_as d.reply) index) buffer.old len.old rank.old result buffer.new len.new rank.new) }
{
    on_node!(node, daemon, daemon.gone(index, buffer, len, rank))
}

/// Returns the members of a process set (`Daemon::members`).
#[unsafe(no_mangle)]
pub extern "C" fn pmixgroup_members(
    node: &mut Handle,
    name: &[u8],
    buffer: &mut [u8],
    len: &mut usize,
) -> u32
    ensures { OnNode node.old.place.value node.new.place.value result ((buffer.new ≡ buffer.old) × (len.new ≡ len.old))
        (λ d e. (e ≡ d) × TellsMembers (members_said d.link name.now) buffer.old len.old result buffer.new len.new) }
{
    on_node!(node, daemon, daemon.members(name, buffer, len))
}

/// Returns the status of a process (`Daemon::status`).
#[unsafe(no_mangle)]
pub extern "C" fn pmixgroup_status(
    node: &mut Handle,
    nspace: &[u8],
    rank: u32,
    status: &mut u32,
) -> u32
    ensures { OnNode node.old.place.value node.new.place.value result (status.new ≡ status.old)
        (λ d e. (e ≡ d) × TellsStatus (status_said d.link nspace.now rank) status.old result status.new) }
{
    on_node!(node, daemon, daemon.status(nspace, rank, status))
}
