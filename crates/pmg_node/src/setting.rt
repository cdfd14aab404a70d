//! Changes of the process sets, at node 0.
ghost use Rattle.std.specs.Prelude.{◌≡◌, ◌||◌, ◌==◌, ◌++◌, length, Err, IfOk};
ghost use Rattle.std.specs.List.{list_any};
ghost use Rattle.pmg_value.specs.CheckOrder.{first_of};
ghost use Rattle.pmg_value.specs.Names.{is_reserved};
ghost use Rattle.pmg_value.specs.declared.refusal.Refusal.TheVariants as refusals;
ghost use Rattle.pmg_scope.specs.declared.scope.Reach.TheVariants as reach;
ghost use Rattle.pmg_commit.specs.Sealed.{piece_at};
ghost use Rattle.pmg_jobinfo.specs.Refusing.{is_bad};
ghost use Rattle.pmg_pset.specs.Refusing.{room_cause};
ghost use Rattle.pmg_node_model.specs.Acts.{Act, Request, also, node_cause, name_cause, members_of, cause};
ghost use Rattle.pmg_node.specs.Replies.{defined_reply};
ghost use Rattle.pmg_node.specs.Servers.{reply_to, sent_by, after, IsAnswered, Replies};

use crate::committing::Committed;
use crate::entering::{has_bad, has_unknown};
use crate::sealing::SealingAct;
use crate::server::Server;
use pmg_jobinfo::Registry;
use pmg_node_model::Sent;
use pmg_pset::{MAX_MEMBERS, Sets};
use pmg_value::{Key, Proc, Refusal};
use std::collections::VecDeque;

/// The length of an array's start, before its processes: its tag, the tag of its items, and four bytes of their number.
const ARRAY_START: usize = 6;

/// Returns whether the name of a defined set is reserved, or its list is empty, or has a process that a list may not name.
fn is_bad_definition(registry: &Registry, name: &Key, list: &[Proc]) -> bool
    ensures { result ≡ (is_reserved name.now || ((length list.now == 0)
        || list_any (λ q. is_reserved q.nspace || is_bad registry.now q) list.now)) }
{
    name.is_reserved() || list.is_empty() || has_bad(registry, list)
}

/// Checks that there is room for a set of that name, with the members that the list means.
fn check_room(registry: &Registry, sets: &Sets, name: &Key, list: &[Proc]) -> Result<(), Refusal>
    ensures { result ≡ first_of (room_cause sets.now name.now (members_of registry.now list.now)) tt }
{
    let count = registry.count_meant(list);
    if count > MAX_MEMBERS {
        return sets.can_define(name, count, 0);
    }
    sets.can_define(name, count, ARRAY_START + registry.size_meant(list))
}

impl Server {
    /// Checks the name of a set, and that this is node 0.
    pub(crate) fn check_name(&self, name: &Key) -> Result<(), Refusal>
        ensures { result ≡ first_of (also (node_cause self.now.id) (name_cause name.now)) tt }
    {
        if name.is_reserved() {
            return Err(Refusal::BadParam);
        }
        if self.id.index() != 0 {
            return Err(Refusal::NotMine);
        }
        Ok(())
    }

    /// Checks the definition of a set, with the members that the list means. It takes no memory.
    pub(crate) fn check_definition(&self, name: &Key, list: &[Proc]) -> Result<(), Refusal>
        ensures { result ≡ first_of (cause self.now.jobs self.now.id self.now.holding (Act.request (Request.define name.now list.now))) tt }
    {
        let registry = self.table.registry();
        if is_bad_definition(registry, name, list) {
            return Err(Refusal::BadParam);
        }
        if has_unknown(registry, list) {
            return Err(Refusal::UnknownNamespace);
        }
        if self.id.index() != 0 {
            return Err(Refusal::NotMine);
        }
        check_room(registry, &self.own.sets, name, list)
    }

    /// Defines the process set of that name, with the members that the list means, and sends it to all nodes (PMIx Standard 5.0, process
    /// sets). Errors: `BadParam` if the name begins with `pmix`, if the list is empty, or if a process in it is not in its registered
    /// namespace, or is of a namespace that begins with `pmix`; `UnknownNamespace`; `NotMine` at nodes other than 0; `Exists` if there is a
    /// set of that name; `TooMany` past 4,096 members, an array of them of 1,048,576 canonical bytes, 4,294,967,294 changes, and the limits
    /// of a sealer; `NoMemory`.
    pub fn define_set(
        &mut self,
        name: &Key,
        list: &[Proc],
        out: &mut VecDeque<Sent>,
    ) -> Result<Committed, Refusal>
        ensures reply { Replies defined_reply result (reply_to self.old (Act.request (Request.define name.now list.now))) }
        ensures done { IsAnswered result → self.new ≡ after self.old (Act.request (Request.define name.now list.now)) }
        ensures sent { IsAnswered result → out.new.items ≡ out.old.items ++ sent_by self.old (Act.request (Request.define name.now list.now)) }
        ensures near { IfOk result (λ c. c.near ≡ piece_at self.new.holding.sets self.old.holding.sets.level reach.Near) }
        ensures far { IfOk result (λ c. c.far ≡ piece_at self.new.holding.sets self.old.holding.sets.level reach.Far) }
        ensures memory { result ≡ Err refusals.NoMemory → self.new ≡ self.old }
        ensures unsent { result ≡ Err refusals.NoMemory → out.new.items ≡ out.old.items }
    {
        self.seal(&SealingAct::Define(name, list), out)
    }

    /// Deletes the process set of that name, which may then be defined again, and sends the deletion to all nodes (PMIx Standard 5.0,
    /// process sets). Errors: `BadParam` if the name begins with `pmix`; `NotMine` at nodes other than 0; `NotFound` if there is no such
    /// set; `TooMany` if the number of the change would be 4294967295; `NoMemory`.
    pub fn delete_set(&mut self, name: &Key, out: &mut VecDeque<Sent>) -> Result<Committed, Refusal>
        ensures reply { Replies defined_reply result (reply_to self.old (Act.request (Request.delete name.now))) }
        ensures done { IsAnswered result → self.new ≡ after self.old (Act.request (Request.delete name.now)) }
        ensures sent { IsAnswered result → out.new.items ≡ out.old.items ++ sent_by self.old (Act.request (Request.delete name.now)) }
        ensures near { IfOk result (λ c. c.near ≡ piece_at self.new.holding.sets self.old.holding.sets.level reach.Near) }
        ensures far { IfOk result (λ c. c.far ≡ piece_at self.new.holding.sets self.old.holding.sets.level reach.Far) }
        ensures memory { result ≡ Err refusals.NoMemory → self.new ≡ self.old }
        ensures unsent { result ≡ Err refusals.NoMemory → out.new.items ≡ out.old.items }
    {
        self.seal(&SealingAct::Delete(name), out)
    }
}
