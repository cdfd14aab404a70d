//! A caller of `Link`.
ghost use Rattle.std.specs.Prelude.{◌≡◌, OnOk};
ghost use Rattle.pmg_value.specs.Spelling.{spelling};
ghost use Rattle.pmg_scope.specs.declared.scope.Scope.TheVariants as scopes;
ghost use Rattle.pmg_link.specs.Links.{link_committed, link_with_put};

use pmg_link::Link;
use pmg_node::Reply;
use pmg_scope::Scope;
use pmg_value::{Key, Proc, Refusal, Value};

/// Has the process publish a value for all processes. Returns the node's reply, which has the commit's number.
pub fn publish(link: &mut Link, proc: &Proc, key: Key, value: Value) -> Result<Reply, Refusal>
    ensures { let put = link_with_put link.old proc.now scopes.Global key (spelling value) in
        OnOk result (link.new ≡ link_committed put proc.now) }
{
    link.put(proc, Scope::Global, key, value)?;
    link.commit(proc)
}
