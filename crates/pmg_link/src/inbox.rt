//! The bytes and frames that come from one other node.
ghost use Rattle.std.specs.Prelude.{◌≡◌, ◌≢◌, ◌↔◌, [], length, Some, None, Err, IfSome, IfErr, ◌⊎◌, IsNone, OnOk, OnErr};
ghost use Rattle.pmg_value.specs.declared.refusal.Refusal.TheVariants as refusals;
ghost use Rattle.pmg_frame.specs.Streams.{FeedsOpen, IsFeedRefusal, IsPastEnd};

use pmg_frame::{Frame, Stream};
use pmg_value::{Fault, Refusal};
use std::alloc::Global;
use std::collections::VecDeque;

/// The frames of one other node that were not delivered yet: the bytes of an incomplete frame, and the complete frames, the next one
/// first. Then the fault after them, if one came.
#[derive(Drop)]
pub struct Inbox {
    pub(crate) stream: Stream,
    pub(crate) frames: VecDeque<Frame>,
    fault: Option<Fault>,
}

impl Inbox {
    /// Makes an inbox into which nothing has come yet.
    pub fn new(alloc: Global) -> Inbox
        ensures stream { result.stream ≡ Some (record { offset = 0; rest = [] }) }
        ensures frames { result.frames.items ≡ [] }
        ensures fault { IsNone result.fault }
    {
        Inbox {
            stream: Stream::new(alloc),
            frames: VecDeque::new(alloc),
            fault: None,
        }
    }

    /// Takes the next bytes of the node, in any pieces. Complete frames wait then to be delivered (`Link::deliver_next`). A refusal
    /// changes nothing. Errors: `Closed` after a fault; `Busy` if earlier frames still wait; `TooMany` if an offset would pass
    /// 18446744073709551615; `NoMemory`.
    pub fn feed(&mut self, bytes: &[u8]) -> Result<(), Refusal>
        ensures fed { OnOk result (FeedsOpen self.old.stream bytes.now self.new.frames.items self.new.fault self.new.stream) }
        ensures idle { OnOk result (self.old.frames.items ≡ []) }
        ensures closed { (result ≡ Err refusals.Closed) ↔ (self.old.stream ≡ None) }
        ensures busy { result ≡ Err refusals.Busy → self.old.frames.items ≢ [] }
        ensures waits { self.old.frames.items ≢ [] → IfSome self.old.stream (λ _. result ≡ Err refusals.Busy) }
        ensures too_many { result ≡ Err refusals.TooMany → IsPastEnd self.old.stream bytes.now }
        ensures no_other { IfErr result (λ e. (e ≡ refusals.Busy) ⊎ IsFeedRefusal e) }
        ensures err { OnErr result (self.new ≡ self.old) }
    {
        if self.stream.is_closed() {
            return Err(Refusal::Closed);
        }
        if !self.frames.is_empty() {
            return Err(Refusal::Busy);
        }
        let (frames, fault) = self.stream.feed(bytes)?.into_parts();
        self.frames = VecDeque::from(frames);
        self.fault = fault;
        Ok(())
    }

    /// Returns the number of frames that wait to be delivered.
    pub fn waiting(&self) -> usize
        ensures { result ≡ length self.now.frames.items }
    {
        self.frames.len()
    }

    /// Returns the fault after the frames, if one came: then nothing more is read from the node.
    pub fn fault(&self) -> Option<Fault>
        ensures { result ≡ self.now.fault }
    {
        self.fault
    }
}
