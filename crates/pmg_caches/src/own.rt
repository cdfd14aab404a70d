//! Gets of a client's own keys.
ghost use Rattle.std.specs.Prelude.{◌≡◌};
ghost use Rattle.std.specs.Option.{option_map};
ghost use Rattle.pmg_jobinfo.specs.Reserved.{is_general};
ghost use Rattle.pmg_node.specs.Acting.{reply_as, request_of};
ghost use Rattle.pmg_node.specs.Servers.{Replies};
ghost use Rattle.pmg_caches.specs.Caching.{cached_for};
ghost use Rattle.pmg_caches.specs.OwnKeys.{own_answer, own_key};
ghost use Rattle.pmg_group_model.specs.Worlds.{is_own, reply_or_refusal};
ghost use Rattle.pmg_node_parts.specs.Calls.{get_of};

use crate::caches::Caches;
use pmg_node::{Reply, Request, Server};
use pmg_value::{Key, Proc, Refusal};

/// Returns whether the process has no particular rank.
fn is_general(proc: &Proc) -> bool
    ensures { result ≡ is_general proc.now }
{
    proc.rank.is_wildcard() || proc.rank.is_undef()
}

/// Returns whether the process asks for a key of its own that the standard does not reserve.
pub fn is_own(proc: &Proc, target: &Proc, key: &Key) -> bool
    ensures { result ≡ is_own proc.now (get_of target.now key.now) }
{
    proc.cmp(target).is_eq() && !key.is_reserved()
}

/// Returns the process and the key, if a process asks for a key of its own that the standard does not reserve.
pub fn own_key(request: &Request) -> Option<(&Proc, &Key)>
    ensures { option_map (λ own. (own.0.now, own.1.now)) result ≡ own_key (request_of request.now) }
{
    match request {
        Request::Ask(_, proc, target, key) => {
            if is_own(proc, target, key) {
                Some((proc, key))
            } else {
                None
            }
        }
        Request::Enter(_, _, _) => None,
        Request::Leave(_) => None,
        Request::Take(_) => None,
        Request::Terminate(_) => None,
        Request::Define(_, _) => None,
        Request::Delete(_) => None,
        Request::Nudge => None,
    }
}

/// Answers a process's get of its own key at the node.
pub fn own_get(node: &Server, caches: &Caches, proc: &Proc, key: &Key) -> Result<Reply, Refusal>
    ensures { Replies reply_as result (reply_or_refusal (own_answer node.now (cached_for caches.now proc.now) proc.now key.now)) }
{
    if is_general(proc) {
        return Err(Refusal::BadParam);
    }
    if let Err(refusal) = node.check_free(proc) {
        return Err(refusal);
    }
    match caches.own(proc, key) {
        Some(value) => Ok(Reply::Found(value.copy()?)),
        None => Err(Refusal::NotFound),
    }
}
