ghost use Rattle.std.specs.Prelude.{◌≡◌, ◌≤◌, ◌↔◌, ◌⊎◌, false, length, Err, IsTrue, IfOk, IfErr, OnOk};
ghost use Rattle.pmg_value.specs.declared.refusal.Refusal.TheVariants as refusals;
ghost use Rattle.pmg_frame.specs.Frames.{ReadsBack};
ghost use Rattle.pmg_frame.specs.Grammar.{IsFrame};
ghost use Rattle.pmg_frame.specs.Versions.{is_version, body_spelling, frame_spelling};

use crate::asks::{CommitAsk, FenceAsk};
use crate::header::Header;
use crate::refreshes::{RefreshAsk, RefreshReply};
use crate::same::{
    is_same_commit_ask, is_same_fence_ask, is_same_header, is_same_piece, is_same_refresh_ask,
    is_same_refresh_reply,
};
use crate::writing::{
    encode_commit_ask, encode_fence_ask, encode_header, encode_piece, encode_refresh_ask,
    encode_refresh_reply,
};
use bytes::BytesMut;
use pmg_commit::{MAX_PIECE_SIZE, Piece};
use pmg_value::Refusal;
use std::alloc::{AllocError, Global};

/// The greatest size of a frame's body, in bytes: the size of the largest piece.
pub const MAX_BODY_SIZE: u32 = MAX_PIECE_SIZE as u32;

/// The size of a frame's head, in bytes: the version, the kind, and four bytes of length.
pub const HEAD_SIZE: usize = 6;

/// A message from one server to another.
#[derive(Drop)]
pub enum Frame {
    /// The puts that a process sealed in some of its commits.
    Piece(Piece),
    /// The states of a node's own participants in a fence.
    Header(Header),
    /// A node asks for another node's header.
    FenceAsk(FenceAsk),
    /// A node asks for the puts that a process sealed after a commit.
    RangeAsk(CommitAsk),
    /// A node asks for a process's commits after those that it knows, and waits until there are any.
    DirectAsk(CommitAsk),
    /// A node asks for a process's commits after those that it knows, under a number.
    RefreshAsk(RefreshAsk),
    /// The commits, or the news that no later commit was made, under that number.
    RefreshReply(RefreshReply),
}

/// Returns whether frames have that version.
pub fn is_version(version: u8) -> bool
    ensures { result ≡ is_version version }
{
    version == 1 || version == 2
}

// Returns the frame's one encoding in a version of frames.
fn encode_in(frame: &Frame, alloc: Global, version: u8) -> Result<BytesMut, AllocError>
    requires { IsTrue (is_version version) }
    ensures bytes { IfOk result (λ out. out.items ≡ frame_spelling version frame.now) }
    ensures valid { OnOk result (IsFrame frame.now) }
    ensures small { OnOk result (length (body_spelling version frame.now) ≤ MAX_BODY_SIZE) }
    ensures read_back { IfOk result (λ out. ReadsBack frame.now out.items) }
{
    match frame {
        Frame::Piece(piece) => encode_piece(alloc, version, piece),
        Frame::Header(header) => encode_header(alloc, version, header),
        Frame::FenceAsk(ask) => encode_fence_ask(alloc, version, ask),
        Frame::RangeAsk(ask) => encode_commit_ask(alloc, version, 4, ask),
        Frame::DirectAsk(ask) => encode_commit_ask(alloc, version, 5, ask),
        Frame::RefreshAsk(ask) => encode_refresh_ask(alloc, version, ask),
        Frame::RefreshReply(reply) => encode_refresh_reply(alloc, version, reply),
    }
}

impl Frame {
    /// Returns the frame's one encoding in version 2: its head and its body. The encoding keeps the rules of the frame's kind and fits into
    /// a frame. Therefore it is read back as the frame.
    pub fn encode(&self, alloc: Global) -> Result<BytesMut, AllocError>
        ensures bytes { IfOk result (λ out. out.items ≡ frame_spelling 2 self.now) }
        ensures valid { OnOk result (IsFrame self.now) }
        ensures small { OnOk result (length (body_spelling 2 self.now) ≤ MAX_BODY_SIZE) }
        ensures read_back { IfOk result (λ out. ReadsBack self.now out.items) }
    {
        encode_in(self, alloc, 2)
    }

    /// Returns the frame's one encoding in that version, which is read back as `encode` says. Errors: `BadParam` for a version other than 1
    /// and 2; `NoMemory`.
    pub fn encode_as(&self, alloc: Global, version: u8) -> Result<BytesMut, Refusal>
        ensures bytes { IfOk result (λ out. out.items ≡ frame_spelling version self.now) }
        ensures valid { OnOk result (IsFrame self.now) }
        ensures small { OnOk result (length (body_spelling version self.now) ≤ MAX_BODY_SIZE) }
        ensures read_back { IfOk result (λ out. ReadsBack self.now out.items) }
        ensures refused { (result ≡ Err refusals.BadParam) ↔ (is_version version ≡ false) }
        ensures no_other { IfErr result (λ e. (e ≡ refusals.BadParam) ⊎ (e ≡ refusals.NoMemory)) }
    {
        if !is_version(version) {
            return Err(Refusal::BadParam);
        }
        Ok(encode_in(self, alloc, version)?)
    }

    /// Returns a copy, equal to this frame.
    pub fn copy(&self) -> Result<Frame, AllocError>
        ensures { IfOk result (λ f. f ≡ self.now) }
    {
        Ok(match self {
            Frame::Piece(piece) => Frame::Piece(piece.copy()?),
            Frame::Header(header) => Frame::Header(header.copy()?),
            Frame::FenceAsk(ask) => Frame::FenceAsk(ask.copy()?),
            Frame::RangeAsk(ask) => Frame::RangeAsk(ask.copy()?),
            Frame::DirectAsk(ask) => Frame::DirectAsk(ask.copy()?),
            Frame::RefreshAsk(ask) => Frame::RefreshAsk(ask.copy()?),
            Frame::RefreshReply(reply) => Frame::RefreshReply(reply.copy()?),
        })
    }

    /// Returns whether the frames are equal: of one kind, with equal fields.
    pub fn is_same(&self, other: &Frame) -> bool
        ensures { IsTrue result ↔ (self.now ≡ other.now) }
    {
        match (self, other) {
            (Frame::Piece(piece), Frame::Piece(other)) => is_same_piece(piece, other),
            (Frame::Header(header), Frame::Header(other)) => is_same_header(header, other),
            (Frame::FenceAsk(ask), Frame::FenceAsk(other)) => is_same_fence_ask(ask, other),
            (Frame::RangeAsk(ask), Frame::RangeAsk(other)) => is_same_commit_ask(ask, other),
            (Frame::DirectAsk(ask), Frame::DirectAsk(other)) => is_same_commit_ask(ask, other),
            (Frame::RefreshAsk(ask), Frame::RefreshAsk(other)) => is_same_refresh_ask(ask, other),
            (Frame::RefreshReply(reply), Frame::RefreshReply(other)) => {
                is_same_refresh_reply(reply, other)
            }
            _ => false,
        }
    }
}
