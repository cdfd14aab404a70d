//! The request of a refreshing get to its target's home, and the reply (PMIx Standard 5.0, PMIX_GET_REFRESH_CACHE).
ghost use Rattle.std.specs.Prelude.{◌≡◌, ◌+◌, ◌≤◌, ◌&&◌, nat_le, map, length, IsTrue, IfOk, Ok, Err, if◌then◌else◌};
ghost use Rattle.pmg_value.specs.declared.refusal.Refusal.TheVariants as refusals;
ghost use Rattle.pmg_commit.specs.Pieces.{entry_of, contribution, body_size};
ghost use Rattle.pmg_frame.specs.Refreshing.{refresh_ask, refresh_reply, is_request, no_commits, is_refresh_reply, told_by};
ghost use Rattle.pmg_commit.specs.declared.piece.TheConstants.{MAX_ENTRIES};

use crate::asks::{CommitAsk, can_be_asked};
use crate::frame::MAX_BODY_SIZE;
use pmg_commit::{Piece, PieceEntry, entries_size};
use pmg_value::{NodeId, Proc, Refusal, copy_all};
use std::alloc::{AllocError, Global};
use std::marker::Model;

/// The bytes of a reply's body before the contribution: the node, the number of the request, and the role.
const ASKER_SIZE: usize = 13;

/// A request of a node for the puts that a process sealed after the commits that the node knows, under a number of the node's own, counted
/// from 1.
#[derive(Drop)]
pub struct RefreshAsk {
    request: u64,
    ask: CommitAsk,
}

impl Model for RefreshAsk {
    ghost use Rattle.std.specs.Prelude.{IsTrue};
    ghost use Rattle.pmg_frame.specs.Refreshing as refreshing;

    ghost Value = { refreshing.RefreshAsk };

    ghost view = { λ a. refreshing.refresh_ask a.request a.ask };

    ghost invariant = { λ a. IsTrue (refreshing.is_request a.request) };
}

impl RefreshAsk {
    /// Returns the ask under that number. Errors: `BadParam` for the number 0.
    pub fn new(request: u64, ask: CommitAsk) -> Result<RefreshAsk, Refusal>
        ensures { result ≡ (if is_request request then Ok (refresh_ask request ask) else Err refusals.BadParam) }
    {
        if request == 0 {
            return Err(Refusal::BadParam);
        }
        Ok(RefreshAsk::from_checked(request, ask))
    }

    /// Returns the ask under a number that was judged before.
    pub fn from_checked(request: u64, ask: CommitAsk) -> RefreshAsk
        requires { IsTrue (is_request request) }
        ensures { result ≡ refresh_ask request ask }
    {
        RefreshAsk { request, ask }
    }

    /// Returns the number of the request.
    pub fn request(&self) -> u64
        ensures value { result ≡ self.now.request }
        ensures some { IsTrue (is_request result) }
    {
        self.request
    }

    /// Returns the ask for commits.
    pub fn ask(&self) -> &CommitAsk
        ensures { result.now ≡ self.now.ask }
    {
        &self.ask
    }

    /// Returns a copy, equal to this ask.
    pub fn copy(&self) -> Result<RefreshAsk, AllocError>
        ensures { IfOk result (λ a. a ≡ self.now) }
    {
        Ok(RefreshAsk::from_checked(self.request, self.ask.copy()?))
    }
}

/// The reply of a process's home to a refresh ask, under its number: the puts that the process sealed in the commits from+1 to to, or, if
/// from is to, the news that it made no later commit. It fits into a frame.
pub struct RefreshReply {
    node: NodeId,
    request: u64,
    proc: Proc,
    from: u64,
    to: u64,
    entries: Vec<PieceEntry>,
}

impl Drop for RefreshReply {
    fn drop(self) {
        let Self {
            node,
            request,
            proc,
            from,
            to,
            entries,
        } = self;
    }
}

impl Model for RefreshReply {
    ghost use Rattle.std.specs.Prelude.{IsTrue};
    ghost use Rattle.pmg_commit.specs.Pieces.{contribution};
    ghost use Rattle.pmg_frame.specs.Refreshing as refreshing;

    ghost Value = { refreshing.RefreshReply };

    ghost view = { λ a. refreshing.refresh_reply a.node a.request (contribution a.proc a.from a.to a.entries.items) };

    ghost invariant = { λ a.
        IsTrue (refreshing.is_refresh_reply (refreshing.refresh_reply a.node a.request (contribution a.proc a.from a.to a.entries.items))) };
}

/// Returns whether a frame can hold the request's number, and a contribution of that size.
fn is_small(request: u64, size: usize) -> bool
    ensures { result ≡ (is_request request && nat_le (13 + size) MAX_BODY_SIZE) }
{
    0 < request && size <= MAX_BODY_SIZE as usize - ASKER_SIZE
}

/// Returns whether a frame can hold the piece as a reply.
fn can_tell(node: NodeId, request: u64, piece: &Piece) -> bool
    ensures { result ≡ is_refresh_reply (refresh_reply node request piece.now) }
{
    is_small(request, piece.size())
}

/// Returns whether a frame can hold the news that the process made no commit after that one.
fn can_tell_nothing(node: NodeId, request: u64, proc: &Proc, level: u64) -> bool
    ensures { result ≡ is_refresh_reply (refresh_reply node request (no_commits proc.now level)) }
{
    can_be_asked(proc, level) && is_small(request, proc.nspace.as_bytes().len() + 25)
}

impl RefreshReply {
    /// Returns the reply to that node's request of that number, with this piece. Errors: `BadParam` if the number is 0, or the body would
    /// have more than 16777216 bytes.
    pub fn new(node: NodeId, request: u64, piece: Piece) -> Result<RefreshReply, Refusal>
        ensures { let r = refresh_reply node request piece in
            result ≡ (if is_refresh_reply r then Ok r else Err refusals.BadParam) }
    {
        if !can_tell(node, request, &piece) {
            return Err(Refusal::BadParam);
        }
        let (proc, from, to, entries) = piece.into_parts();
        Ok(RefreshReply::from_checked(node, request, proc, from, to, entries))
    }

    /// Returns the reply to that node's request of that number, that the process made no commit after that one. Errors: `BadParam` if the
    /// number is 0, the process does not commit, or the level goes past 4294967295.
    pub fn nothing(
        alloc: Global,
        node: NodeId,
        request: u64,
        proc: Proc,
        level: u64,
    ) -> Result<RefreshReply, Refusal>
        ensures { let r = refresh_reply node request (no_commits proc level) in
            result ≡ (if is_refresh_reply r then Ok r else Err refusals.BadParam) }
    {
        if !can_tell_nothing(node, request, &proc, level) {
            return Err(Refusal::BadParam);
        }
        Ok(RefreshReply::from_checked(node, request, proc, level, level, Vec::new(alloc)))
    }

    /// Returns a reply that a frame can hold, as was judged before.
    pub fn from_checked(
        node: NodeId,
        request: u64,
        proc: Proc,
        from: u64,
        to: u64,
        entries: Vec<PieceEntry>,
    ) -> RefreshReply
        requires { IsTrue (is_refresh_reply (refresh_reply node request (contribution proc from to entries.items))) }
        ensures { result ≡ refresh_reply node request (contribution proc from to entries.items) }
    {
        RefreshReply {
            node,
            request,
            proc,
            from,
            to,
            entries,
        }
    }

    /// Returns the node that asked.
    pub fn node(&self) -> NodeId
        ensures { result ≡ self.now.node }
    {
        self.node
    }

    /// Returns the number of its request.
    pub fn request(&self) -> u64
        ensures { result ≡ self.now.request }
    {
        self.request
    }

    /// Returns the process whose commits the reply has.
    pub fn proc(&self) -> &Proc
        ensures { result.now ≡ self.now.told.proc }
    {
        &self.proc
    }

    /// Returns the number of the last commit before those of the reply.
    pub fn from(&self) -> u64
        ensures { result ≡ self.now.told.from }
    {
        self.from
    }

    /// Returns the number of the last commit of the reply.
    pub fn to(&self) -> u64
        ensures { result ≡ self.now.told.to }
    {
        self.to
    }

    /// Returns the entries of the commits, in the order of the keys.
    pub fn entries(&self) -> &[PieceEntry]
        ensures value { map entry_of result.now ≡ self.now.told.entries }
        ensures reply { IsTrue (is_refresh_reply self.now) }
        ensures few { length result.now ≤ MAX_ENTRIES }
    {
        &self.entries
    }

    /// Returns the number of its bytes in a frame's body.
    pub fn size(&self) -> usize
        ensures value { result ≡ 13 + body_size self.now.told.proc self.now.told.entries }
        ensures bound { result ≤ MAX_BODY_SIZE }
    {
        ASKER_SIZE + self.proc.nspace.as_bytes().len() + 25 + entries_size(self.entries())
    }

    /// Returns the piece of the commits, if there are any.
    pub fn into_piece(self) -> Option<Piece>
        ensures { result ≡ told_by self }
    {
        let RefreshReply {
            node: _,
            request: _,
            proc,
            from,
            to,
            entries,
        } = self;
        if from < to {
            Some(Piece::from_checked(proc, from, to, entries))
        } else {
            None
        }
    }

    /// Returns a copy, equal to this reply.
    pub fn copy(&self) -> Result<RefreshReply, AllocError>
        ensures { IfOk result (λ r. r ≡ self.now) }
    {
        let (proc, entries) = (self.proc.copy()?, copy_all(&self.entries)?);
        Ok(RefreshReply::from_checked(self.node, self.request, proc, self.from, self.to, entries))
    }
}
