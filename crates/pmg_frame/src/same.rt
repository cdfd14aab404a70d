//! Comparison of two frames: equal frames have equal fields.
ghost use Rattle.std.specs.Prelude.{◌≡◌};
ghost use Rattle.pmg_frame.specs.Sameness.{is_same_piece, is_same_header, is_same_fence_ask, is_same_commit_ask, is_same_refresh_ask, is_same_refresh_reply};

use crate::asks::{CommitAsk, FenceAsk};
use crate::header::Header;
use crate::refreshes::{RefreshAsk, RefreshReply};
use pmg_commit::{Piece, are_same_entries};

/// Returns whether the contributions are equal.
pub fn is_same_piece(piece: &Piece, other: &Piece) -> bool
    ensures { result ≡ is_same_piece piece.now other.now }
{
    *piece.proc() == *other.proc()
        && piece.from() == other.from()
        && piece.to() == other.to()
        && are_same_entries(piece.entries(), other.entries())
}

/// Returns whether the headers are equal.
pub fn is_same_header(header: &Header, other: &Header) -> bool
    ensures { result ≡ is_same_header header.now other.now }
{
    header.node() == other.node()
        && *header.name() == *other.name()
        && header.locals() == other.locals()
}

/// Returns whether the asks are equal.
pub fn is_same_fence_ask(ask: &FenceAsk, other: &FenceAsk) -> bool
    ensures { result ≡ is_same_fence_ask ask.now other.now }
{
    ask.node() == other.node() && *ask.name() == *other.name()
}

/// Returns whether the asks are equal.
pub fn is_same_commit_ask(ask: &CommitAsk, other: &CommitAsk) -> bool
    ensures { result ≡ is_same_commit_ask ask.now other.now }
{
    ask.node() == other.node() && *ask.proc() == *other.proc() && ask.level() == other.level()
}

/// Returns whether the asks are equal.
pub fn is_same_refresh_ask(ask: &RefreshAsk, other: &RefreshAsk) -> bool
    ensures { result ≡ is_same_refresh_ask ask.now other.now }
{
    ask.request() == other.request() && is_same_commit_ask(ask.ask(), other.ask())
}

/// Returns whether the replies are equal.
pub fn is_same_refresh_reply(reply: &RefreshReply, other: &RefreshReply) -> bool
    ensures { result ≡ is_same_refresh_reply reply.now other.now }
{
    reply.node() == other.node() && reply.request() == other.request() && is_same_told(reply, other)
}

/// Returns whether the contributions of the replies are equal.
fn is_same_told(reply: &RefreshReply, other: &RefreshReply) -> bool
    ensures { result ≡ is_same_piece reply.now.told other.now.told }
{
    *reply.proc() == *other.proc()
        && reply.from() == other.from()
        && reply.to() == other.to()
        && are_same_entries(reply.entries(), other.entries())
}
