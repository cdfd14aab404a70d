//! The process sets in a node's knowledge.
ghost use Rattle.std.specs.Prelude.{◌≡◌, IfOk};
ghost use Rattle.std.specs.Result.{result_map_both};
ghost use Rattle.pmg_value.specs.CheckOrder.{first_of};
ghost use Rattle.pmg_value.specs.Spelling.{spelling};
ghost use Rattle.pmg_value.specs.declared.value.Value.TheVariants as values;
ghost use Rattle.pmg_node.specs.Members.{known_members_cause, members_known};

use crate::server::Server;
use pmg_pset::members_in;
use pmg_value::{Array, Key, Proc, Refusal};

impl Server {
    /// Returns the members of the process set of that name, as an array of processes, by the node's knowledge (PMIx Standard 5.0,
    /// PMIX_QUERY_PSET_MEMBERSHIP). It takes no memory. Errors: `BadParam` if the name begins with `pmix`; `NotFound` if the node knows no
    /// set of that name, or last learned of its deletion.
    pub fn set_members(&self, name: &Key) -> Result<&Array, Refusal>
        ensures value { result_map_both (λ a. spelling (values.Array a.now)) (λ e. e) result
            ≡ first_of (known_members_cause self.now.holding.far name.now) (members_known self.now.holding.far name.now) }
        ensures kind { IfOk result (λ a. a.now.tag ≡ 16) }
    {
        if name.is_reserved() {
            return Err(Refusal::BadParam);
        }
        let Some(value) = self.board.far().read(&Proc::of_host(), name) else {
            return Err(Refusal::NotFound);
        };
        match members_in(value) {
            Some(members) => Ok(members),
            None => Err(Refusal::NotFound),
        }
    }
}
