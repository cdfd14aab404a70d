//! A process commits.
ghost use Rattle.std.specs.Prelude.{◌≡◌, ◌++◌, Err, IfOk};
ghost use Rattle.pmg_value.specs.declared.refusal.Refusal.TheVariants as refusals;
ghost use Rattle.pmg_scope.specs.declared.scope.Reach.TheVariants as reach;
ghost use Rattle.pmg_commit.specs.Sealed.{piece_at};
ghost use Rattle.pmg_dmodex.specs.Requests.{requests_settled};
ghost use Rattle.pmg_node_model.specs.Acts.{Act};
ghost use Rattle.pmg_node_model.specs.Holdings.{sealer_of};
ghost use Rattle.pmg_node_parts.specs.Calls.{all_instead};
ghost use Rattle.pmg_node_parts.specs.Owns.{sealed_of};
ghost use Rattle.pmg_node.specs.Replies.{committed_reply};
ghost use Rattle.pmg_node.specs.Servers.{reply_to, sent_by, after, IsAnswered, Replies};

use crate::publishing::Published;
use crate::sealing::SealingAct;
use crate::server::Server;
use pmg_commit::Piece;
use pmg_dmodex::Pending;
use pmg_node_model::Sent;
use pmg_node_parts::{Calls, LocalCommits};
use pmg_scope::Batch;
use pmg_value::{Proc, Refusal};
use std::collections::VecDeque;

/// The result of a commit.
#[derive(Drop)]
pub struct Committed {
    /// The commit's number.
    pub level: u64,
    /// The piece joined for reads from the node itself.
    pub near: Piece,
    /// The piece joined for reads from other nodes.
    pub far: Piece,
}

/// Keeps the published commit: the nodes that waited for it wait no longer, and calls are answered.
pub(crate) fn keep_published(
    own: &LocalCommits,
    held: &mut Pending,
    calls: &mut Calls,
    proc: &Proc,
    published: Published,
) -> Committed
    ensures level { result.level ≡ (sealed_of own.now proc.now).level }
    ensures near { result.near ≡ published.near }
    ensures far { result.far ≡ published.far }
    ensures held { held.new ≡ requests_settled held.old proc.now (sealed_of own.now proc.now).level }
    ensures calls { calls.new ≡ all_instead calls.old published.answers.items }
{
    let level = own.level(proc);
    held.settle(proc, level);
    calls.answer(published.answers);
    Committed {
        level,
        near: published.near,
        far: published.far,
    }
}

impl Server {
    /// Seals the batch as the process's next commit, and sends it to the nodes that wait for it (PMIx Standard 5.0, PMIx_Commit). Errors:
    /// `BadParam` if the process is not in its registered namespace, or its namespace begins with `pmix`; `UnknownNamespace`; `NotMine` if
    /// it is at home at another node; `Terminated`; `Busy` if it is in a call; `TooMany` if the commit would pass a limit of a sealer;
    /// `NoMemory`.
    pub fn commit_joined(
        &mut self,
        proc: &Proc,
        batch: &Batch,
        out: &mut VecDeque<Sent>,
    ) -> Result<Committed, Refusal>
        ensures reply { Replies committed_reply result (reply_to self.old (Act.commit proc.now batch.now)) }
        ensures done { IsAnswered result → self.new ≡ after self.old (Act.commit proc.now batch.now) }
        ensures sent { IsAnswered result → out.new.items ≡ out.old.items ++ sent_by self.old (Act.commit proc.now batch.now) }
        ensures near { IfOk result (λ c. c.near ≡ piece_at (sealer_of self.new.holding proc.now) (sealer_of self.old.holding proc.now).level reach.Near) }
        ensures far { IfOk result (λ c. c.far ≡ piece_at (sealer_of self.new.holding proc.now) (sealer_of self.old.holding proc.now).level reach.Far) }
        ensures memory { result ≡ Err refusals.NoMemory → self.new ≡ self.old }
        ensures unsent { result ≡ Err refusals.NoMemory → out.new.items ≡ out.old.items }
    {
        self.seal(&SealingAct::Commit(proc, batch), out)
    }
}
