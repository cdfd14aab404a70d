//! The members of a process set, as a value.
ghost use Rattle.std.specs.Prelude.{
  ◌≡◌,
  ◌*◌,
  ◌≤◌,
  false,
  Some,
  None,
  Ok,
  length,
  map,
  IfOk,
  IfSome,
  IsTrue,
  if◌then◌else◌,
};
ghost use Rattle.std.specs.List.{list_all, sum_by};
ghost use Rattle.std.specs.Option.{option_map};
ghost use Rattle.pmg_value.specs.Answers.{Gives};
ghost use Rattle.pmg_value.specs.declared.value.Value.TheVariants as values;
ghost use Rattle.pmg_value.specs.Process.{is_client};
ghost use Rattle.pmg_value.specs.Spelling.{spelling};
ghost use Rattle.pmg_commit.specs.Stamped.{stamp_of};
ghost use Rattle.pmg_pset.specs.Members.{each_once, proc_array, proc_bytes, proc_size, are_procs, live_of, members_told};
ghost use Rattle.pmg_pset.specs.Refusing.{are_too_many, are_unfit};

use pmg_commit::SealedPut;
use pmg_value::{Array, MAX_VALUE_SIZE, Proc, Refusal, Value};
use std::alloc::{AllocError, Global};

/// The most members of a process set.
pub const MAX_MEMBERS: usize = 4_096;

/// The tag of PMIX_PROC.
const PROC_TAG: u8 = 16;

/// Whether each is a process that a group may register.
fn are_clients(list: &[Proc]) -> bool
    ensures { result ≡ list_all is_client list.now }
{
    list.iter().all(|process| process.is_client())
}

/// Whether no set can have these members: there are none, or one is no process that a group may register.
pub fn are_unfit(list: &[Proc]) -> bool
    ensures { result ≡ are_unfit list.now }
{
    list.is_empty() || !are_clients(list)
}

/// The processes, each once, in their order.
pub fn each_once(list: Vec<Proc>) -> Vec<Proc>
    ensures { result.items ≡ each_once list.items }
{
    let mut procs = list;
    procs.sort_unstable();
    procs.dedup();
    procs
}

/// The processes, as values.
fn values_of(alloc: Global, procs: Vec<Proc>) -> Result<Vec<Value>, AllocError>
    ensures { IfOk result (λ vs. vs.items ≡ map values.Proc procs.items) }
{
    let mut values = Vec::with_capacity(alloc, procs.len())?;
    for process in procs {
        values.push(Value::Proc(process))?;
    }
    Ok(values)
}

/// How many canonical bytes the array of the processes has as a value. None where they are more than a set may have, or
/// the array would be longer than a value may be.
pub fn array_size(procs: &[Proc]) -> Option<usize>
    ensures { result ≡ (if are_too_many procs.now then None else Some (length (proc_bytes procs.now))) }
{
    if procs.len() > MAX_MEMBERS {
        return None;
    }
    let size = 6 + bodies_size(procs);
    if size > MAX_VALUE_SIZE {
        return None;
    }
    Some(size)
}

/// How many bytes the processes have in their array: of each one of length, the namespace, and four of rank.
fn bodies_size(procs: &[Proc]) -> usize
    requires { length procs.now ≤ MAX_MEMBERS }
    ensures value { result ≡ sum_by proc_size procs.now }
    ensures bound { result ≤ 260 * MAX_MEMBERS }
{
    let mut size = 0;
    for process in procs {
        size += process.nspace.as_bytes().len() + 5;
    }
    size
}

/// The array of the processes, which are not too many. Nothing but memory can lack.
pub fn array_of(alloc: Global, procs: Vec<Proc>) -> Result<Array, Refusal>
    requires { are_too_many procs.items ≡ false }
    ensures { Gives (λ a. a) result (Ok (proc_array procs.items)) }
{
    Array::new(PROC_TAG, values_of(alloc, procs)?)
}

/// The members of a process set, of which a value tells that another server's store reads under the set's name, as a
/// contribution of `pmix.host 0` told it: none where the set was deleted, and where the value is no array of processes.
pub fn members_in(value: &Value) -> Option<&Array>
    ensures value { option_map (λ a. spelling (values.Array a.now)) result ≡ members_told (spelling value.now) }
    ensures kind { IfSome result (λ a. a.now.tag ≡ 16) }
{
    match value {
        Value::Array(members) if members.tag() == PROC_TAG && !members.items().is_empty() => {
            Some(members)
        }
        _ => None,
    }
}

/// The members of the set that was sealed last; none where that was a deletion.
pub fn members_of(put: &SealedPut) -> Option<&Array>
    requires { IsTrue (are_procs (stamp_of put.now).bytes) }
    ensures value { option_map (λ a. spelling (values.Array a.now)) result ≡ live_of (stamp_of put.now).bytes }
    ensures kind { IfSome result (λ a. a.now.tag ≡ 16) }
{
    members_in(put.value())
}
