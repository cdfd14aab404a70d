//! The get of another process's key.
ghost use Rattle.std.specs.Prelude.{◌≡◌, false};
ghost use Rattle.pmg_value.specs.Names.{is_reserved};
ghost use Rattle.pmg_value.specs.declared.refusal.Refusal.TheVariants as refusals;
ghost use Rattle.pmg_jobinfo.specs.Jobs.{Jobs, home_of};
ghost use Rattle.pmg_jobinfo.specs.Reserved.{is_general};
ghost use Rattle.pmg_get.specs.Views.{outcome_of};
ghost use Rattle.pmg_node_model.specs.Acts.{is_misnamed, target_cause};
ghost use Rattle.pmg_node_parts.specs.Calls.{get_of};
ghost use Rattle.pmg_node_model.specs.Holdings.{answer_in, seen_of};

use crate::server::Server;
use pmg_get::{Answer, Mode};
use pmg_node_parts::BoardPreview;
use pmg_value::{Key, NodeId, Proc};

/// Returns whether the process has no particular rank.
fn is_general(proc: &Proc) -> bool
    ensures { result ≡ is_general proc.now }
{
    proc.rank.is_wildcard() || proc.rank.is_undef()
}

/// Returns whether a get may not ask for a key of the target, given whether the target is misnamed.
pub fn is_bad_get(proc: &Proc, target: &Proc, key: &Key, misnamed: bool) -> bool
    ensures { (jobs : Jobs) → misnamed ≡ is_misnamed jobs target.now → result ≡ target_cause jobs proc.now (get_of target.now key.now) refusals.BadParam }
{
    if target.nspace.is_reserved() {
        return true;
    }
    if key.is_reserved() {
        return !is_general(target) && misnamed;
    }
    is_general(target) || proc.cmp(target).is_eq() || misnamed
}

impl Server {
    /// Returns the answer of this node to a get of a key that is not reserved, given the target's home.
    #[tactic(auto, unfolding(pmg_node_model::specs::Holdings::seen_of))]
    pub(crate) fn answer(&self, target: &Proc, home: NodeId, key: &Key, mode: Mode) -> Answer<'_>
        requires plain { is_reserved key.now ≡ false }
        requires home { home ≡ home_of self.now.jobs target.now }
        ensures { outcome_of result ≡ answer_in self.now.jobs self.now.id self.now.holding (get_of target.now key.now) mode }
    {
        let ahead = BoardPreview {
            board: &self.board,
            near: None,
            far: None,
        };
        ahead.answer(home == self.id, target, key, mode)
    }
}
