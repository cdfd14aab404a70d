//! Sent frames, found by their content.
ghost use Rattle.std.specs.Prelude.{◌≡◌, ◌++◌, ◌∷◌, [], slice_get, Some, IfSome, IsNone, OnOk, IsTrue, ◌↔◌};
ghost use Rattle.pmg_value.specs.Lists.{In};
ghost use Rattle.pmg_node_model.specs.Sending.{sent as sent_to};
ghost use Rattle.pmg_group_model.specs.Worlds.{numbered};
ghost use Rattle.pmg_audit.specs.Sends.{AreNumbered, ArePlaced, NoneAt};

use crate::labels::{Label, label_of};
use pmg_frame::Frame;
use pmg_node_model::Sent;
use std::alloc::{AllocError, Global};
use std::collections::BTreeMap;

/// The sent frames, in their order.
pub(crate) struct Sends {
    alloc: Global,
    pub(crate) frames: Vec<Sent>,
    /// Under each label the places of the frames with that label, rising. A frame equal to an earlier one has no place.
    places: BTreeMap<Label, Vec<usize>>,
}

impl Drop for Sends {
    fn drop(self) {
        let Self {
            alloc,
            frames,
            places,
        } = self;
    }
}

/// Returns whether the sent frame goes to that node and equals the frame.
fn is_sent(sent: &Sent, node: u64, frame: &Frame) -> bool
    ensures { IsTrue result ↔ (sent.now ≡ sent_to node frame.now) }
{
    sent.to.index() as u64 == node && sent.frame.is_same(frame)
}

/// Returns whether the frame at that place goes to the node and equals the frame.
fn is_sent_at(frames: &[Sent], place: usize, node: u64, frame: &Frame) -> bool
    ensures { IsTrue result ↔ (slice_get frames.now place ≡ Some (sent_to node frame.now)) }
{
    match frames.get(place) {
        Some(sent) => is_sent(sent, node, frame),
        None => false,
    }
}

/// Returns the first of these places whose frame goes to the node and equals the frame.
fn place_among(frames: &[Sent], places: &[usize], node: u64, frame: &Frame) -> Option<usize>
    ensures some { IfSome result (λ k. slice_get frames.now k ≡ Some (sent_to node frame.now)) }
    ensures none { IsNone result → NoneAt frames.now (sent_to node frame.now) places.now }
{
    for &place in places {
        if is_sent_at(frames, place, node, frame) {
            return Some(place);
        }
    }
    None
}

impl Sends {
    /// Makes an empty list of frames.
    pub(crate) fn new(alloc: Global) -> Sends
        ensures frames { result.frames.items ≡ [] }
        ensures numbered { AreNumbered result }
    {
        Sends {
            alloc,
            frames: Vec::new(alloc),
            places: BTreeMap::new(alloc),
        }
    }

    /// Returns the number of the first sent frame that goes to the node and equals the frame.
    pub(crate) fn number_of(&self, node: u64, frame: &Frame) -> Option<u64>
        requires { AreNumbered self.now }
        ensures some { IfSome result (λ i.
            numbered self.now.frames.items i ≡ Some (sent_to node frame.now)) }
        ensures none { IsNone result
            → In (sent_to node frame.now) self.now.frames.items → ⊥ }
    {
        let places = self.places.get(&label_of(node, frame))?;
        let place = place_among(&self.frames, places, node, frame)?;
        Some(place as u64 + 1)
    }

    /// Keeps the place of the next frame under its label, unless an earlier frame is equal.
    fn keep_place(&mut self, node: u64, frame: &Frame) -> Result<(), AllocError>
        requires { AreNumbered self.old }
        ensures frames { self.new.frames ≡ self.old.frames }
        ensures placed { OnOk result
            (ArePlaced (self.old.frames.items ++ sent_to node frame.now ∷ []) self.new.places.entries) }
    {
        let label = label_of(node, frame);
        let next = self.frames.len();
        if let Some(places) = self.places.get_mut(&label) {
            if place_among(&self.frames, places, node, frame).is_none() {
                places.push(next)?;
            }
            return Ok(());
        }
        let mut places = Vec::new(self.alloc);
        places.push(next)?;
        self.places.insert(label, places)?;
        Ok(())
    }

    /// Appends the frame to the sent ones.
    pub(crate) fn push(&mut self, sent: Sent) -> Result<(), AllocError>
        requires { AreNumbered self.old }
        ensures frames { OnOk result (self.new.frames.items
            ≡ self.old.frames.items ++ sent ∷ []) }
        ensures numbered { OnOk result (AreNumbered self.new) }
    {
        self.keep_place(sent.to.index() as u64, &sent.frame)?;
        self.frames.push(sent)?;
        Ok(())
    }

    /// Returns the frames.
    pub(crate) fn into_frames(self) -> Vec<Sent>
        ensures { result ≡ self.frames }
    {
        let Sends {
            alloc: _,
            frames,
            places: _,
        } = self;
        frames
    }
}
