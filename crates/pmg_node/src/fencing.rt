//! The change of a fence at a node: the node announces its own header if it begins to exist, and releases each process that can be
//! released.
ghost use Rattle.std.specs.Prelude.{◌≡◌, ◌++◌, [], IfOk, OnOk, OnErr};
ghost use Rattle.std.specs.List.{flat_map};
ghost use Rattle.pmg_fence.specs.Kept.{placed_by, CanChange};
ghost use Rattle.pmg_node_parts.specs.Answering.{AreAnswers};
ghost use Rattle.pmg_node_model.specs.Choosing.{sends};
ghost use Rattle.pmg_node.specs.Fencing.{fence_after, fence_dues, AreSettledIn};
ghost use Rattle.pmg_node_model.specs.Kept.{is_in};
ghost use Rattle.pmg_node_parts.specs.Owns.{sealed_of};
ghost use Rattle.pmg_node_parts.specs.Telling.{telling_by, announcing_by};

use pmg_dmodex::Marks;
use pmg_fence::{Change, Table};
use pmg_frame::{FenceName, Header};
use pmg_jobinfo::Registry;
use pmg_node_model::{Sent, ToSend};
use pmg_node_parts::{
    BoardPreview, Calls, Completion, LocalCommits, announce, answers_in, hand_out, tell,
};
use pmg_store::Board;
use pmg_value::{NodeId, Proc};
use std::alloc::{AllocError, Global};
use std::collections::VecDeque;

/// The parts of a node that a change of a fence leaves unchanged.
#[derive(Clone, Copy)]
pub(crate) struct FenceContext<'a> {
    pub(crate) id: NodeId,
    pub(crate) board: &'a Board,
    pub(crate) own: &'a LocalCommits,
}

/// Returns the headers, due to each other node of their fences, one after the other.
pub(crate) fn announce_all(
    registry: &Registry,
    id: NodeId,
    headers: VecDeque<Header>,
) -> Result<Vec<ToSend>, AllocError>
    ensures { IfOk result (λ dues. dues.items ≡ flat_map (announcing_by registry.now id) headers.items) }
{
    let mut dues = Vec::new(registry.allocator());
    for header in headers {
        announce(registry, id, &header, &mut dues)?;
    }
    Ok(dues)
}

/// Sends the header to the node, and, if the fence collects data, the commits of each process that it lists.
pub(crate) fn tell_node(
    alloc: Global,
    own: &LocalCommits,
    marks: &mut Marks,
    node: NodeId,
    header: &Header,
    out: &mut VecDeque<Sent>,
) -> Result<(), AllocError>
    ensures marks { OnOk result (marks.new ≡ (sends (sealed_of own.now) marks.old (telling_by header.now node)).marks) }
    ensures sent { OnOk result (out.new.items ≡ out.old.items ++ (sends (sealed_of own.now) marks.old (telling_by header.now node)).frames) }
    ensures marks_err { OnErr result (marks.new ≡ marks.old) }
    ensures unsent { OnErr result (out.new.items ≡ out.old.items) }
{
    let mut dues = Vec::new(alloc);
    tell(&mut dues, node, header)?;
    hand_out(alloc, own, marks, None, dues, out)?;
    Ok(())
}

/// Sends the own headers that began to exist, and returns the answers of the calls in the fence.
fn send_news(
    around: &FenceContext<'_>,
    table: &Table,
    calls: &Calls,
    marks: &mut Marks,
    name: &FenceName,
    news: VecDeque<Header>,
    out: &mut VecDeque<Sent>,
) -> Result<Vec<(Proc, Completion)>, AllocError>
    requires { table.now.node ≡ around.now.id }
    ensures answers { IfOk result (λ answers. AreAnswers table.now.jobs around.now.id (is_in name.now) table.now.fences
        around.now.board.now.near around.now.board.now.far calls.now answers.items) }
    ensures marks { OnOk result (marks.new ≡ (sends (sealed_of around.now.own.now) marks.old
        (flat_map (announcing_by table.now.jobs around.now.id) news.items)).marks) }
    ensures sent { OnOk result (out.new.items ≡ out.old.items ++ (sends (sealed_of around.now.own.now) marks.old
        (flat_map (announcing_by table.now.jobs around.now.id) news.items)).frames) }
    ensures marks_err { OnErr result (marks.new ≡ marks.old) }
    ensures unsent { OnErr result (out.new.items ≡ out.old.items) }
{
    let ahead = BoardPreview {
        board: around.board,
        near: None,
        far: None,
    };
    let answers = answers_in(table, around.id, &ahead, calls, name)?;
    let registry = table.registry();
    let dues = announce_all(registry, around.id, news)?;
    hand_out(registry.allocator(), around.own, marks, None, dues, out)?;
    Ok(answers)
}

/// Changes the fence in the table. The own header is announced if the change makes it exist, and each process that can be released is. Then
/// the instances of its signature that became old are forgotten. If an allocation fails, nothing changes.
pub(crate) fn change_fence(
    around: &FenceContext<'_>,
    table: &mut Table,
    calls: &mut Calls,
    marks: &mut Marks,
    name: &FenceName,
    change: Change,
    out: &mut VecDeque<Sent>,
) -> Result<(), AllocError>
    requires node { table.old.node ≡ around.now.id }
    requires told { table.old.waiting ≡ [] }
    requires change { CanChange table.old.fences name.now change }
    ensures table { OnOk result (table.new ≡ fence_after table.old name.now change) }
    ensures calls { OnOk result (AreSettledIn name.now table.old.jobs around.now.id (placed_by table.old.fences name.now change)
        around.now.board.now.near around.now.board.now.far calls.old calls.new) }
    ensures marks { OnOk result (marks.new ≡ (sends (sealed_of around.now.own.now) marks.old (fence_dues table.old name.now change)).marks) }
    ensures sent { OnOk result (out.new.items ≡ out.old.items
        ++ (sends (sealed_of around.now.own.now) marks.old (fence_dues table.old name.now change)).frames) }
    ensures table_err { OnErr result (table.new ≡ table.old) }
    ensures calls_err { OnErr result (calls.new ≡ calls.old) }
    ensures marks_err { OnErr result (marks.new ≡ marks.old) }
    ensures unsent { OnErr result (out.new.items ≡ out.old.items) }
{
    let before = table.note(name, change)?;
    let news = table.take_headers();
    let Ok(answers) = send_news(around, table, calls, marks, name, news, out) else {
        table.rollback(before);
        return Err(AllocError);
    };
    calls.answer(answers);
    table.forget(name.signature());
    Ok(())
}
