//! The due frames, and the marks that they set.
ghost use Rattle.std.specs.Prelude.{◌≡◌, ◌++◌, true, is_some, length, take, IfOk, OnOk, OnErr};
ghost use Rattle.std.specs.Option.{option_map, option_to_list};
ghost use Rattle.pmg_dmodex.specs.Levels.{node_level, with_level};
ghost use Rattle.pmg_node_model.specs.Choosing.{asked_marks, frame_for, marked, marked_if, sends, with_mark};
ghost use Rattle.pmg_node_parts.specs.Owns.{sealed_of};
ghost use Rattle.pmg_node_parts.specs.Marking.{mark_by, marks_back, AreSet};

use crate::own::LocalCommits;
use pmg_dmodex::Marks;
use pmg_frame::{CommitAsk, Frame};
use pmg_node_model::{Sent, ToSend};
use pmg_scope::Reach;
use pmg_value::{NodeId, Proc};
use std::alloc::{AllocError, Global};
use std::collections::VecDeque;

/// A mark before it was set.
#[derive(Drop)]
pub struct MarkUndo {
    pub proc: Proc,
    pub node: NodeId,
    pub level: u64,
}

/// Sets a mark back to its earlier level.
fn set_one_back(marks: &mut Marks, mark: MarkUndo)
    requires { is_some (node_level marks.old mark.proc mark.node) ≡ true }
    ensures { marks.new ≡ with_level marks.old mark.proc mark.node mark.level }
{
    let _ = marks.set(mark.node, &mark.proc, mark.level);
}

/// Sets the marks back to their earlier levels, the last one first.
fn set_back(marks: &mut Marks, mut before: Vec<MarkUndo>)
    requires { AreSet marks.old before.items }
    ensures { marks.new ≡ marks_back marks.old before.items }
{
    while let Some(mark) = before.pop() {
        set_one_back(marks, mark);
    }
}

/// Returns the frame for a due item; `None` if the node already has the commits.
fn frame_for(own: &LocalCommits, marks: &Marks, due: ToSend) -> Result<Option<Sent>, AllocError>
    ensures { IfOk result (λ sent. sent ≡ frame_for (sealed_of own.now) marks.now due) }
{
    match due {
        ToSend::Whole(sent) => Ok(Some(sent)),
        ToSend::Rest(node, proc) => {
            let from = marks.from(node, &proc);
            if from >= own.level(&proc) {
                return Ok(None);
            }
            let piece = own.piece(&proc, from, Reach::Far)?;
            Ok(Some(Sent {
                to: node,
                frame: Frame::Piece(piece),
            }))
        }
    }
}

/// Frames on their way, and the earlier levels of the marks that they set.
#[derive(Drop)]
struct Going {
    frames: VecDeque<Sent>,
    before: Vec<MarkUndo>,
}

/// Sets the mark of the node for the process, if there is one, and keeps its earlier level. For each process whose commits a node sends, it
/// has a mark at each other node.
fn set_level(
    marks: &mut Marks,
    node: NodeId,
    proc: &Proc,
    level: u64,
    before: &mut Vec<MarkUndo>,
) -> Result<(), AllocError>
    ensures ok { OnOk result (marks.new ≡ with_mark marks.old proc.now node level) }
    ensures back { marks_back marks.new before.new.items ≡ marks_back marks.old before.old.items }
    ensures set { AreSet marks.old before.old.items → AreSet marks.new before.new.items }
{
    let Some(was) = marks.get(node, proc) else {
        return Ok(());
    };
    let proc_before = proc.copy()?;
    before.push(MarkUndo {
        proc: proc_before,
        node,
        level: was,
    })?;
    marks.set(node, proc, level)?;
    Ok(())
}

/// Returns the process and the level of the mark that the frame sets, if it sets one.
fn mark_by(frame: &Frame) -> Option<(&Proc, u64)>
    ensures { option_map (λ m. (m.0.now, m.1)) result ≡ mark_by frame.now }
{
    match frame {
        Frame::Piece(piece) => Some((piece.proc(), piece.to())),
        Frame::RefreshReply(reply) => Some((reply.proc(), reply.to())),
        Frame::Header(_) | Frame::FenceAsk(_) => None,
        Frame::RangeAsk(_) | Frame::DirectAsk(_) | Frame::RefreshAsk(_) => None,
    }
}

/// Sets the mark of the frame, and keeps its earlier level.
fn set_mark(marks: &mut Marks, sent: &Sent, before: &mut Vec<MarkUndo>) -> Result<(), AllocError>
    ensures ok { OnOk result (marks.new ≡ marked marks.old sent.now) }
    ensures back { marks_back marks.new before.new.items ≡ marks_back marks.old before.old.items }
    ensures set { AreSet marks.old before.old.items → AreSet marks.new before.new.items }
{
    let Some((proc, level)) = mark_by(&sent.frame) else {
        return Ok(());
    };
    set_level(marks, sent.to, proc, level, before)?;
    Ok(())
}

/// Sets the mark of a node that asks for commits, because its request says its level.
fn set_asked(
    marks: &mut Marks,
    asked: Option<&CommitAsk>,
    before: &mut Vec<MarkUndo>,
) -> Result<(), AllocError>
    ensures ok { OnOk result (marks.new ≡ asked_marks marks.old (option_map (λ a. a.now) asked.entry)) }
    ensures back { marks_back marks.new before.new.items ≡ marks_back marks.old before.old.items }
    ensures set { AreSet marks.old before.old.items → AreSet marks.new before.new.items }
{
    let Some(ask) = asked else {
        return Ok(());
    };
    set_level(marks, ask.node(), ask.proc(), ask.level(), before)?;
    Ok(())
}

/// Sends the frame for a due item, if there is one.
fn send_one(
    own: &LocalCommits,
    marks: &mut Marks,
    due: ToSend,
    going: &mut Going,
) -> Result<(), AllocError>
    ensures frames { OnOk result (going.new.frames.items ≡ going.old.frames.items ++ option_to_list (frame_for (sealed_of own.now) marks.old due)) }
    ensures marks { OnOk result (marks.new ≡ marked_if marks.old (frame_for (sealed_of own.now) marks.old due)) }
    ensures back { marks_back marks.new going.new.before.items ≡ marks_back marks.old going.old.before.items }
    ensures set { AreSet marks.old going.old.before.items → AreSet marks.new going.new.before.items }
{
    let Some(sent) = frame_for(own, marks, due)? else {
        return Ok(());
    };
    set_mark(marks, &sent, &mut going.before)?;
    going.frames.push_back(sent)?;
    Ok(())
}

/// Sends the due items, one after the other.
fn send_each(
    own: &LocalCommits,
    marks: &mut Marks,
    dues: Vec<ToSend>,
    going: &mut Going,
) -> Result<(), AllocError>
    ensures frames { OnOk result (going.new.frames.items ≡ going.old.frames.items ++ (sends (sealed_of own.now) marks.old dues.items).frames) }
    ensures marks { OnOk result (marks.new ≡ (sends (sealed_of own.now) marks.old dues.items).marks) }
    ensures back { marks_back marks.new going.new.before.items ≡ marks_back marks.old going.old.before.items }
    ensures set { AreSet marks.old going.old.before.items → AreSet marks.new going.new.before.items }
{
    for due in dues {
        send_one(own, marks, due, going)?;
    }
    Ok(())
}

/// Sends all due items, after the mark of a node's request for commits is set.
fn send_after(
    own: &LocalCommits,
    marks: &mut Marks,
    asked: Option<&CommitAsk>,
    dues: Vec<ToSend>,
    going: &mut Going,
) -> Result<(), AllocError>
    ensures frames { OnOk result (going.new.frames.items ≡ going.old.frames.items
        ++ (sends (sealed_of own.now) (asked_marks marks.old (option_map (λ a. a.now) asked.entry)) dues.items).frames) }
    ensures marks { OnOk result (marks.new ≡ (sends (sealed_of own.now) (asked_marks marks.old (option_map (λ a. a.now) asked.entry)) dues.items).marks) }
    ensures back { marks_back marks.new going.new.before.items ≡ marks_back marks.old going.old.before.items }
    ensures set { AreSet marks.old going.old.before.items → AreSet marks.new going.new.before.items }
{
    set_asked(marks, asked, &mut going.before)?;
    send_each(own, marks, dues, going)?;
    Ok(())
}

/// Frames that were appended, and the earlier levels of the marks that they set.
#[derive(Drop)]
pub struct SendUndo {
    start: usize,
    before: Vec<MarkUndo>,
}

/// Appends the frames of all due items to the frames that go out, after the mark of a node's request for commits is set. If an allocation
/// fails, the frames and the marks are unchanged.
pub fn hand_out(
    alloc: Global,
    own: &LocalCommits,
    marks: &mut Marks,
    asked: Option<&CommitAsk>,
    dues: Vec<ToSend>,
    out: &mut VecDeque<Sent>,
) -> Result<SendUndo, AllocError>
    ensures frames { OnOk result (out.new.items ≡ out.old.items
        ++ (sends (sealed_of own.now) (asked_marks marks.old (option_map (λ a. a.now) asked.entry)) dues.items).frames) }
    ensures marks { OnOk result (marks.new ≡ (sends (sealed_of own.now) (asked_marks marks.old (option_map (λ a. a.now) asked.entry)) dues.items).marks) }
    ensures back { IfOk result (λ handed. marks_back marks.new handed.before.items ≡ marks.old) }
    ensures set { IfOk result (λ handed. AreSet marks.new handed.before.items) }
    ensures start { IfOk result (λ handed. handed.start ≡ length out.old.items) }
    ensures frames_err { OnErr result (out.new.items ≡ out.old.items) }
    ensures marks_err { OnErr result (marks.new ≡ marks.old) }
{
    let mut going = Going {
        frames: VecDeque::new(alloc),
        before: Vec::new(alloc),
    };
    let start = out.len();
    if let Err(AllocError) = send_after(own, marks, asked, dues, &mut going) {
        set_back(marks, going.before);
        return Err(AllocError);
    }
    if let Err(AllocError) = out.append(&mut going.frames) {
        set_back(marks, going.before);
        return Err(AllocError);
    }
    Ok(SendUndo {
        start,
        before: going.before,
    })
}

/// Removes the appended frames again, and sets the marks back.
pub fn rollback(marks: &mut Marks, out: &mut VecDeque<Sent>, handed: SendUndo)
    requires set { AreSet marks.old handed.before.items }
    ensures frames { out.new.items ≡ take handed.start out.old.items }
    ensures marks { marks.new ≡ marks_back marks.old handed.before.items }
{
    out.truncate(handed.start);
    set_back(marks, handed.before);
}
