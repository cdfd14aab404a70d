ghost use Rattle.std.specs.Prelude.{◌≡◌, ◌↔◌, ◌+◌, ◌<◌, ◌≤◌, ◌^◌, [], None, Some, Err, not, is_some, length, drop, IfOk, IfErr, OnErr};
ghost use Rattle.pmg_value.specs.declared.refusal.Refusal.TheVariants as refusals;
ghost use Rattle.pmg_frame.specs.Streams.{FramesFollow, StopsAt, FeedsOpen, IsPastEnd, IsFeedRefusal, finished};

use crate::frame::Frame;
use crate::reading::get_frame;
use bytes::BytesMut;
use pmg_value::{Cause, Fault, Refusal};
use pmg_wire::Cursor;
use std::alloc::{AllocError, Global};
use std::marker::Model;

/// The result of feeding a stream: the frames that are complete now, and the fault after them, if there is one.
pub struct Fed {
    pub frames: Vec<Frame>,
    pub fault: Option<Fault>,
}

impl Drop for Fed {
    fn drop(self) {
        let Self { frames, fault } = self;
    }
}

impl Fed {
    /// Returns the frames, and the fault after them.
    pub fn into_parts(self) -> (Vec<Frame>, Option<Fault>)
        ensures { result ≡ (self.frames, self.fault) }
    {
        let Fed { frames, fault } = self;
        (frames, fault)
    }
}

/// A stream of frames, fed in any pieces. It keeps the bytes of the next frame so far, and the offset of that frame in the whole stream.
/// After a fault it is closed for good.
#[derive(Drop)]
pub struct Stream {
    alloc: Global,
    held: BytesMut,
    offset: u64,
    is_closed: bool,
}

impl Model for Stream {
    ghost use Rattle.std.specs.Prelude.{Option, Some, None, ◌+◌, ◌<◌, ◌^◌, length, if◌then◌else◌};
    ghost use Rattle.pmg_wire.specs.Reading.{Place};

    ghost Value = { Option Place };

    ghost view = { λ a. if a.is_closed then None else Some (record { offset = a.offset; rest = a.held.items }) };

    ghost invariant = { λ a. a.offset + length a.held.items < 2 ^ 64 };
}

// Reads the complete frames from a place on, and returns why they stop.
fn get_frames(alloc: Global, at: &mut Cursor<'_>) -> Result<Fed, Refusal>
    ensures runs { IfOk result (λ fed. FramesFollow at.old fed.frames.items at.new) }
    ensures stops { IfOk result (λ fed. StopsAt at.new fed.fault) }
    ensures err { IfErr result (λ e. e ≡ refusals.NoMemory) }
{
    let mut frames = Vec::new(alloc);
    loop {
        match get_frame(alloc, at) {
            Ok(Some(frame)) => frames.push(frame)?,
            Ok(None) => {
                return Ok(Fed {
                    frames,
                    fault: None,
                });
            }
            Err(Refusal::BadFrame(fault)) => {
                return Ok(Fed {
                    frames,
                    fault: Some(fault),
                });
            }
            Err(refusal) => return Err(refusal),
        }
    }
}

// Reads the complete frames in the bytes from that offset on. Returns why they stop, and how many bytes they take.
fn frames_in(alloc: Global, offset: u64, held: &[u8]) -> Result<(Fed, usize), Refusal>
    requires { offset + length held.now < 2 ^ 64 }
    ensures runs { IfOk result (λ found. FramesFollow (record { offset = offset; rest = held.now }) found.0.frames.items
        (record { offset = offset + found.1; rest = drop found.1 held.now })) }
    ensures stops { IfOk result (λ found. StopsAt (record { offset = offset + found.1; rest = drop found.1 held.now }) found.0.fault) }
    ensures used { IfOk result (λ found. found.1 ≤ length held.now) }
    ensures err { IfErr result (λ e. e ≡ refusals.NoMemory) }
{
    let mut at = Cursor::new(offset, held);
    let fed = get_frames(alloc, &mut at)?;
    let used = held.len() - at.rest().len();
    Ok((fed, used))
}

impl Stream {
    /// Opens a stream without bytes.
    pub fn new(alloc: Global) -> Stream
        ensures { result ≡ Some (record { offset = 0; rest = [] }) }
    {
        Stream {
            alloc,
            held: BytesMut::new(alloc),
            offset: 0,
            is_closed: false,
        }
    }

    /// Returns a copy, which goes on by itself.
    pub fn copy(&self) -> Result<Stream, AllocError>
        ensures { IfOk result (λ copy. copy ≡ self.now) }
    {
        let mut held = BytesMut::new(self.alloc);
        held.extend_from_slice(self.held.as_slice())?;
        Ok(Stream {
            alloc: self.alloc,
            held,
            offset: self.offset,
            is_closed: self.is_closed,
        })
    }

    /// Returns whether it is closed, as it is after a fault.
    pub fn is_closed(&self) -> bool
        ensures { result ≡ not (is_some self.now) }
    {
        self.is_closed
    }

    /// Takes the next bytes of the stream, and returns the frames that are complete now, and the fault after them if there is one. After a
    /// fault the stream is closed. A refusal changes nothing. Errors: `Closed` on a closed stream; `TooMany` if an offset would pass
    /// 18446744073709551615; `NoMemory`.
    pub fn feed(&mut self, bytes: &[u8]) -> Result<Fed, Refusal>
        ensures fed { IfOk result (λ fed. FeedsOpen self.old bytes.now fed.frames.items fed.fault self.new) }
        ensures closed { (result ≡ Err refusals.Closed) ↔ (self.old ≡ None) }
        ensures too_many { (result ≡ Err refusals.TooMany) ↔ IsPastEnd self.old bytes.now }
        ensures no_other { IfErr result IsFeedRefusal }
        ensures err { OnErr result (self.new ≡ self.old) }
    {
        if self.is_closed {
            return Err(Refusal::Closed);
        }
        let held = self.held.len();
        if u64::MAX - self.offset - (held as u64) < bytes.len() as u64 {
            return Err(Refusal::TooMany);
        }
        self.held.extend_from_slice(bytes)?;
        match frames_in(self.alloc, self.offset, self.held.as_slice()) {
            Ok((fed, used)) => {
                self.held.advance(used);
                self.offset += used as u64;
                self.is_closed = fed.fault.is_some();
                Ok(fed)
            }
            Err(refusal) => {
                self.held.truncate(held);
                Err(refusal)
            }
        }
    }

    /// Ends the stream: Ok if no part of a frame is left over. Errors: `BadFrame` with cause Cut, at the offset of the frame that is cut;
    /// `Closed` on a closed stream.
    pub fn finish(&self) -> Result<(), Refusal>
        ensures { result ≡ finished self.now }
    {
        if self.is_closed {
            return Err(Refusal::Closed);
        }
        if !self.held.is_empty() {
            return Err(Refusal::bad_frame(self.offset, Cause::Cut));
        }
        Ok(())
    }
}
