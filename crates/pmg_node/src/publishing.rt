//! The publication of a process's commits: the node joins them into its stores, and sends them to the nodes that wait for them.
ghost use Rattle.std.specs.Prelude.{◌≡◌, ◌<◌, ◌++◌, IfOk, OnOk, OnErr};
ghost use Rattle.pmg_scope.specs.declared.scope.Reach.TheVariants as reach;
ghost use Rattle.pmg_commit.specs.Data.{absorbed};
ghost use Rattle.pmg_commit.specs.Sealed.{piece_at};
ghost use Rattle.pmg_node_parts.specs.Answered.{ArePlain};
ghost use Rattle.pmg_node_parts.specs.Answering.{AreAnswers};
ghost use Rattle.pmg_node_model.specs.Choosing.{sends};
ghost use Rattle.pmg_node_model.specs.Kept.{is_about};
ghost use Rattle.pmg_node_parts.specs.Owns.{sealed_of};
ghost use Rattle.pmg_node_parts.specs.Telling.{settling_by};

use pmg_commit::Piece;
use pmg_dmodex::{Marks, Pending};
use pmg_fence::Table;
use pmg_node_model::{Sent, ToSend};
use pmg_node_parts::{
    BoardPreview, Calls, Completion, LocalCommits, answers_about, hand_out, rollback, tell_waiting,
};
use pmg_scope::Reach;
use pmg_store::Board;
use pmg_value::{NodeId, Proc};
use std::alloc::AllocError;
use std::collections::VecDeque;
use std::slice;

/// The parts of a node that the publication leaves unchanged.
#[derive(Drop)]
pub(crate) struct PublishContext<'a> {
    pub(crate) table: &'a Table,
    pub(crate) id: NodeId,
    pub(crate) own: &'a LocalCommits,
    pub(crate) held: &'a Pending,
    pub(crate) calls: &'a Calls,
}

/// The result of the publication of a process's commits.
#[derive(Drop)]
pub(crate) struct Published {
    /// The answers of the settled calls.
    pub(crate) answers: Vec<(Proc, Completion)>,
    /// The piece joined for reads from the node itself.
    pub(crate) near: Piece,
    /// The piece joined for reads from other nodes.
    pub(crate) far: Piece,
}

/// Returns the answers of the calls that the process's pieces settle.
fn answers_after<'a>(
    beside: &PublishContext<'_>,
    board: &'a Board,
    near: &'a Piece,
    far: &'a Piece,
    proc: &Proc,
) -> Result<Vec<(Proc, Completion)>, AllocError>
    requires node { beside.now.table.now.node ≡ beside.now.id }
    requires plain { ArePlain beside.now.calls.now }
    ensures { IfOk result (λ answers. AreAnswers beside.now.table.now.jobs beside.now.id (is_about proc.now) beside.now.table.now.fences
        (absorbed board.now.near near.now) (absorbed board.now.far far.now) beside.now.calls.now answers.items) }
{
    let near = Some(near);
    let far = Some(far);
    let ahead = BoardPreview { board, near, far };
    answers_about(beside.table, beside.id, &ahead, beside.calls, proc)
}

/// Joins the process's commits after a number into the stores, and sends them to the nodes that wait for them, then the given frames.
/// Returns the answers of the settled calls.
pub(crate) fn publish(
    beside: &PublishContext<'_>,
    board: &mut Board,
    marks: &mut Marks,
    out: &mut VecDeque<Sent>,
    proc: &Proc,
    from: u64,
    mut dues: Vec<ToSend>,
) -> Result<Published, AllocError>
    requires node { beside.now.table.now.node ≡ beside.now.id }
    requires plain { ArePlain beside.now.calls.now }
    requires level { from < (sealed_of beside.now.own.now proc.now).level }
    ensures joined_near { OnOk result (board.new.near ≡ absorbed board.old.near (piece_at (sealed_of beside.now.own.now proc.now) from reach.Near)) }
    ensures joined_far { OnOk result (board.new.far ≡ absorbed board.old.far (piece_at (sealed_of beside.now.own.now proc.now) from reach.Far)) }
    ensures marks { OnOk result (marks.new ≡ (sends (sealed_of beside.now.own.now) marks.old
        (settling_by (sealed_of beside.now.own.now) beside.now.held.now.held proc.now ++ dues.items)).marks) }
    ensures sent { OnOk result (out.new.items ≡ out.old.items ++ (sends (sealed_of beside.now.own.now) marks.old
        (settling_by (sealed_of beside.now.own.now) beside.now.held.now.held proc.now ++ dues.items)).frames) }
    ensures answers { IfOk result (λ published. AreAnswers beside.now.table.now.jobs beside.now.id (is_about proc.now) beside.now.table.now.fences
        (absorbed board.old.near (piece_at (sealed_of beside.now.own.now proc.now) from reach.Near))
        (absorbed board.old.far (piece_at (sealed_of beside.now.own.now proc.now) from reach.Far)) beside.now.calls.now published.answers.items) }
    ensures near { IfOk result (λ published. published.near ≡ piece_at (sealed_of beside.now.own.now proc.now) from reach.Near) }
    ensures far { IfOk result (λ published. published.far ≡ piece_at (sealed_of beside.now.own.now proc.now) from reach.Far) }
    ensures near_err { OnErr result (board.new.near ≡ board.old.near) }
    ensures far_err { OnErr result (board.new.far ≡ board.old.far) }
    ensures marks_err { OnErr result (marks.new ≡ marks.old) }
    ensures unsent { OnErr result (out.new.items ≡ out.old.items) }
{
    let alloc = beside.table.registry().allocator();
    let near = beside.own.piece(proc, from, Reach::Near)?;
    let far = beside.own.piece(proc, from, Reach::Far)?;
    let answers = answers_after(beside, board, &near, &far, proc)?;
    let mut all = tell_waiting(alloc, beside.own, beside.held, proc)?;
    all.append(&mut dues)?;
    let handed = hand_out(alloc, beside.own, marks, None, all, out)?;
    if let Err(AllocError) = board.absorb_all(slice::from_ref(&near), slice::from_ref(&far)) {
        rollback(marks, out, handed);
        return Err(AllocError);
    }
    Ok(Published { answers, near, far })
}
