//! Puts of a client at its node.
ghost use Rattle.std.specs.Prelude.{◌≡◌, ◌||◌, not, OnOk, OnErr};
ghost use Rattle.std.specs.FinMap as finite;
ghost use Rattle.pmg_value.specs.Answers.{Gives};
ghost use Rattle.pmg_value.specs.CheckOrder.{first_of};
ghost use Rattle.pmg_value.specs.Names.{is_reserved};
ghost use Rattle.pmg_value.specs.Spelling.{spelling};
ghost use Rattle.pmg_scope.specs.Cached.{with_put};
ghost use Rattle.pmg_scope.specs.Scopes.{reaches};
ghost use Rattle.pmg_scope.specs.declared.scope.Reach.TheVariants as reach;
ghost use Rattle.pmg_caches.specs.Caching.{cached_for, put_cause_at};

use crate::caches::Caches;
use pmg_node::Server;
use pmg_scope::{Reach, Scope, includes};
use pmg_value::{Key, Proc, Refusal, Value};

/// Returns whether a put of the key is refused for every process.
pub fn is_bad_put(scope: Scope, key: &Key) -> bool
    ensures { result ≡ (not (reaches scope reach.Own) || is_reserved key.now) }
{
    !includes(scope, Reach::Own) || key.is_reserved()
}

/// Puts the value under the key, in the cache of the process's client (PMIx Standard 5.0, PMIx_Put). A refused put changes nothing. Errors:
/// the node's refusals of the caller, and the errors of `Cache::put`.
pub fn put_at(
    node: &Server,
    caches: &mut Caches,
    proc: &Proc,
    scope: Scope,
    key: Key,
    value: Value,
) -> Result<(), Refusal>
    ensures answer { Gives (λ u. u) result
        (first_of (put_cause_at node.now (cached_for caches.old proc.now) proc.now scope key (spelling value)) tt) }
    ensures ok { OnOk result (caches.new
        ≡ finite.insert caches.old proc.now (with_put (cached_for caches.old proc.now) scope key (spelling value))) }
    ensures err { OnErr result (caches.new ≡ caches.old) }
{
    if is_bad_put(scope, &key) {
        return Err(Refusal::BadParam);
    }
    if let Err(refusal) = node.check_free(proc) {
        return Err(refusal);
    }
    caches.put(proc, scope, key, value)
}
