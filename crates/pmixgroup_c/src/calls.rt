//! The calls of processes.
ghost use Rattle.std.specs.Prelude.{◌≡◌, ◌≢◌, ◌++◌, [], ◌∷◌, Ok};
ghost use Rattle.pmg_daemon.specs.Arguments.{
  commit_said,
  define_said,
  delete_said,
  end_said,
  enter_said,
  get_said,
  leave_said,
  nudge_said,
  put_said,
  take_said,
};
ghost use Rattle.pmg_daemon.specs.Daemons.{Makes, Names, TakesList, TellsNumber};
ghost use Rattle.pmixgroup_c.specs.Nodes.{OnNode};

use pmg_daemon::WRONG_HANDLE;
use pmg_handle::Handle;

/// Names a process for the next entry of a fence or the next definition of a set (`Daemon::name`).
#[unsafe(no_mangle)]
pub extern "C" fn pmixgroup_name(node: &mut Handle, nspace: &[u8], rank: u32) -> u32
    ensures { OnNode node.old.place.value node.new.place.value result (Unit {0})
        (λ d e. Names d nspace.now rank result e) }
{
    on_node!(node, daemon, daemon.name(nspace, rank))
}

/// Puts a value for a process (`Daemon::put`).
#[unsafe(no_mangle)]
pub extern "C" fn pmixgroup_put(
    node: &mut Handle,
    nspace: &[u8],
    rank: u32,
    scope: u32,
    key: &[u8],
    value: &[u8],
) -> u32
    ensures { OnNode node.old.place.value node.new.place.value result (Unit {0})
        (λ d e. Makes (put_said nspace.now rank scope key.now value.now) d result e × (e.list ≡ d.list)) }
{
    on_node!(node, daemon, daemon.put(nspace, rank, scope, key, value))
}

/// Commits the puts of a process (`Daemon::commit`).
#[unsafe(no_mangle)]
pub extern "C" fn pmixgroup_commit(
    node: &mut Handle,
    nspace: &[u8],
    rank: u32,
    number: &mut u64,
) -> u32
    ensures { OnNode node.old.place.value node.new.place.value result (number.new ≡ number.old)
        (λ d e. Makes (commit_said nspace.now rank) d result e × (TellsNumber e result number.old number.new × (e.list ≡ d.list))) }
{
    on_node!(node, daemon, daemon.commit(nspace, rank, number))
}

/// Enters a process into a fence (`Daemon::enter`).
#[unsafe(no_mangle)]
pub extern "C" fn pmixgroup_enter(
    node: &mut Handle,
    nspace: &[u8],
    rank: u32,
    collect: bool,
    number: &mut u64,
) -> u32
    ensures { OnNode node.old.place.value node.new.place.value result (number.new ≡ number.old)
        (λ d e. Makes (enter_said nspace.now rank d.list.items collect) d result e × (TellsNumber e result number.old number.new × TakesList d result e)) }
{
    on_node!(node, daemon, daemon.enter(nspace, rank, collect, number))
}

/// Takes a process out of a fence (`Daemon::leave`).
#[unsafe(no_mangle)]
pub extern "C" fn pmixgroup_leave(
    node: &mut Handle,
    nspace: &[u8],
    rank: u32,
    number: &mut u64,
) -> u32
    ensures { OnNode node.old.place.value node.new.place.value result (number.new ≡ number.old)
        (λ d e. Makes (leave_said nspace.now rank) d result e × (TellsNumber e result number.old number.new × (e.list ≡ d.list))) }
{
    on_node!(node, daemon, daemon.leave(nspace, rank, number))
}

/// Gets a key for a process (`Daemon::get`).
#[unsafe(no_mangle)]
pub extern "C" fn pmixgroup_get(
    node: &mut Handle,
    nspace: &[u8],
    rank: u32,
    target: &[u8],
    target_rank: u32,
    key: &[u8],
    mode: u32,
) -> u32
    ensures { OnNode node.old.place.value node.new.place.value result (Unit {0})
        (λ d e. Makes (get_said nspace.now rank target.now target_rank key.now mode) d result e × (e.list ≡ d.list)) }
{
    on_node!(
        node,
        daemon,
        daemon.get(nspace, rank, target, target_rank, key, mode)
    )
}

/// Takes the answer of a process's get (`Daemon::take`).
#[unsafe(no_mangle)]
pub extern "C" fn pmixgroup_take(node: &mut Handle, nspace: &[u8], rank: u32) -> u32
    ensures { OnNode node.old.place.value node.new.place.value result (Unit {0})
        (λ d e. Makes (take_said nspace.now rank) d result e × (e.list ≡ d.list)) }
{
    on_node!(node, daemon, daemon.take(nspace, rank))
}

/// Ends a process (`Daemon::end`).
#[unsafe(no_mangle)]
pub extern "C" fn pmixgroup_end(
    node: &mut Handle,
    nspace: &[u8],
    rank: u32,
    number: &mut u64,
) -> u32
    ensures { OnNode node.old.place.value node.new.place.value result (number.new ≡ number.old)
        (λ d e. Makes (end_said nspace.now rank) d result e × (TellsNumber e result number.old number.new × (e.list ≡ d.list))) }
{
    on_node!(node, daemon, daemon.end(nspace, rank, number))
}

/// Defines a process set (`Daemon::define`).
#[unsafe(no_mangle)]
pub extern "C" fn pmixgroup_define(node: &mut Handle, name: &[u8], number: &mut u64) -> u32
    ensures { OnNode node.old.place.value node.new.place.value result (number.new ≡ number.old)
        (λ d e. Makes (define_said name.now d.list.items) d result e × (TellsNumber e result number.old number.new × TakesList d result e)) }
{
    on_node!(node, daemon, daemon.define(name, number))
}

/// Deletes a process set (`Daemon::delete`).
#[unsafe(no_mangle)]
pub extern "C" fn pmixgroup_delete(node: &mut Handle, name: &[u8], number: &mut u64) -> u32
    ensures { OnNode node.old.place.value node.new.place.value result (number.new ≡ number.old)
        (λ d e. Makes (delete_said name.now) d result e × (TellsNumber e result number.old number.new × (e.list ≡ d.list))) }
{
    on_node!(node, daemon, daemon.delete(name, number))
}

/// Asks other nodes again for missing data (`Daemon::nudge`).
#[unsafe(no_mangle)]
pub extern "C" fn pmixgroup_nudge(node: &mut Handle) -> u32
    ensures { OnNode node.old.place.value node.new.place.value result (Unit {0})
        (λ d e. Makes nudge_said d result e × (e.list ≡ d.list)) }
{
    on_node!(node, daemon, daemon.nudge())
}
