//! The delivered frames, among all frames ever sent.
ghost use Rattle.std.specs.Prelude.{◌≡◌, ◌<◌, ◌≤◌, ◌∷◌, [], ℕ, true, None, OnOk};
ghost use Rattle.std.specs.FinSet as set;
ghost use Rattle.pmg_world.specs.Delivering.{AddsDelivered, all_delivered, delivered_by, is_number};
ghost use Rattle.pmg_world.specs.Keeping.{happened_so};
ghost use Rattle.pmg_world.specs.Telling.{event_of};

use crate::event::Event;
use pmg_join::RangeSet;
use pmg_node::Reply;
use pmg_value::Refusal;
use std::alloc::{AllocError, Global};

/// The delivered frames, among all frames ever sent. The last one joins the others before the next event, so that an event that has
/// happened needs no more memory.
#[derive(Drop)]
pub(crate) struct Delivered {
    /// The numbers of the frames that were delivered before the last event.
    frames: RangeSet,
    /// The number of the frame that the last event delivered, if it did.
    last: Option<u64>,
}

/// Returns the number of the frame that the event delivers, if it delivers one with this answer.
#[tactic(auto, using(crate::proofs::GroupLemmas::no_refusal))]
fn frame_of(event: &Event, answer: &Result<Reply, Refusal>) -> Option<u64>
    ensures { (frame : ℕ) → delivered_by frame (happened_so (event_of event.now) answer.now) ≡ is_number frame result }
{
    match (event, answer) {
        (Event::Deliver(frame), Ok(_)) => Some(*frame),
        _ => None,
    }
}

impl Delivered {
    /// Makes an empty set of delivered frames.
    pub(crate) fn new(alloc: Global) -> Delivered
        ensures { all_delivered result ≡ set.empty }
    {
        Delivered {
            frames: RangeSet::new(alloc),
            last: None,
        }
    }

    /// Adds the last frame to the others, so that there is room for another last one.
    pub(crate) fn make_room(&mut self) -> Result<(), AllocError>
        ensures same { AddsDelivered (all_delivered self.old) [] (all_delivered self.new) }
        ensures room { OnOk result (self.new.last ≡ None) }
    {
        if let Some(frame) = self.last {
            self.frames.insert(frame.saturating_sub(1), frame)?;
            self.last = None;
        }
        Ok(())
    }

    /// Notes the event with its answer: there is room for the frame that it delivered.
    pub(crate) fn note(&mut self, event: &Event, answer: &Result<Reply, Refusal>)
        requires { self.old.last ≡ None }
        ensures { AddsDelivered (all_delivered self.old) (happened_so (event_of event.now) answer.now ∷ []) (all_delivered self.new) }
    {
        self.last = frame_of(event, answer);
    }

    /// Returns whether the frame of that number was delivered.
    pub(crate) fn contains(&self, frame: u64) -> bool
        ensures { result ≡ set.contains (all_delivered self.now) frame }
    {
        self.frames.contains(frame) || self.last == Some(frame)
    }

    /// Returns a number up to which all frames were delivered, from 1.
    pub(crate) fn level(&self) -> u64
        ensures { (n : ℕ) → 0 < n → n ≤ result → set.contains (all_delivered self.now) n ≡ true }
    {
        self.frames.level()
    }
}
