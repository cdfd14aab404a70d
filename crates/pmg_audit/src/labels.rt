//! The labels under which sent frames are found.
ghost use Rattle.std.specs.Prelude.{◌≡◌};
ghost use Rattle.pmg_frame.specs.Fences.{participants_of};
ghost use Rattle.pmg_audit.specs.Labels.{about_commits, about_fence, first_rank, label_of};

use pmg_frame::{FenceName, Frame};
use pmg_value::{NodeId, Proc};

/// The numbers of a frame that mostly distinguish frames. Numbers that differ most often come first, since labels are compared field by
/// field.
#[derive(Clone, Copy, PartialEq, Eq, PartialOrd, Ord)]
pub(crate) struct Label {
    /// The number of a commit, of a request or of a fence's instance.
    pub(crate) number: u64,
    /// The rank of the process whose commits the frame is about, or the node that answers or asks about a fence.
    pub(crate) of: u64,
    /// The rank of a fence's first participant, the node that asks, or the number of another commit.
    pub(crate) other: u64,
    /// The node that it goes to.
    pub(crate) to: u64,
    /// A number for its kind.
    pub(crate) kind: u64,
}

/// Returns the rank of the fence's first participant.
fn first_rank(name: &FenceName) -> u64
    ensures { result ≡ first_rank (participants_of name.now) }
{
    match name.signature().participants().first() {
        Some(proc) => proc.rank.number() as u64,
        None => 0,
    }
}

/// Returns the label of a frame of that kind about the process's commits.
fn about_commits(to: u64, kind: u64, number: u64, proc: &Proc, other: u64) -> Label
    ensures { result ≡ about_commits to kind number proc.now other }
{
    Label {
        number,
        of: proc.rank.number() as u64,
        other,
        to,
        kind,
    }
}

/// Returns the label of a frame of that kind in which the node answers or asks about the fence.
fn about_fence(to: u64, kind: u64, node: NodeId, name: &FenceName) -> Label
    ensures { result ≡ about_fence to kind node name.now }
{
    Label {
        number: name.instance(),
        of: node.index() as u64,
        other: first_rank(name),
        to,
        kind,
    }
}

/// Returns the label of a frame that goes to that node.
pub(crate) fn label_of(to: u64, frame: &Frame) -> Label
    ensures { result ≡ label_of to frame.now }
{
    match frame {
        Frame::Piece(piece) => about_commits(to, 1, piece.to(), piece.proc(), piece.from()),
        Frame::Header(header) => about_fence(to, 2, header.node(), header.name()),
        Frame::FenceAsk(ask) => about_fence(to, 3, ask.node(), ask.name()),
        Frame::RangeAsk(ask) => {
            about_commits(to, 4, ask.level(), ask.proc(), ask.node().index() as u64)
        }
        Frame::DirectAsk(ask) => {
            about_commits(to, 5, ask.level(), ask.proc(), ask.node().index() as u64)
        }
        Frame::RefreshAsk(refresh) => {
            let ask = refresh.ask();
            about_commits(
                to,
                6,
                refresh.request(),
                ask.proc(),
                ask.node().index() as u64,
            )
        }
        Frame::RefreshReply(reply) => {
            about_commits(to, 7, reply.request(), reply.proc(), reply.to())
        }
    }
}
