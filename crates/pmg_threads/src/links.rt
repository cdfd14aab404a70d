//! The links of a job: they carry frames from server to server, and may lose some, repeat some, and hold some back.

use crate::desks::close_desks;
use crate::shortage::Shortage;
use crossbeam_channel::{Receiver, Sender, unbounded};
use pmg_desk::Desk;
use pmg_frame::Frame;
use pmg_node_model::Sent;
use pmg_value::Refusal;
use std::alloc::{AllocError, Global};
use std::collections::VecDeque;
use std::sync::Wait;
use std::time::{Clock, Duration};
use std::{mem, thread};

/// The faults of a job's links; 0 means never. On each link, from one node to another, frames are counted from 1.
#[derive(Clone, Copy, Default)]
pub struct Links {
    /// Each frame whose number is a multiple of this is lost.
    pub lose: u32,
    /// Each other frame whose number is a multiple of this is sent twice.
    pub repeat: u32,
    /// Each other frame whose number is a multiple of this goes out after the next frame of its link.
    pub hold: u32,
    /// The number of times that each node asks others again for missing data: a millisecond apart or later, and only while no frame is on
    /// its way. After that every desk is closed, so that a job with lost frames ends.
    pub nudges: u32,
}

/// Frames that go to one node together, in their order.
#[derive(Drop)]
pub struct Bundle {
    /// The frames.
    pub frames: Vec<Frame>,
}

/// One link: the destination of its frames, the number of frames that it took, the frame that it holds back, and the frames of its next
/// bundle.
#[derive(Drop)]
struct Way {
    to: Sender<Bundle, Global>,
    count: u64,
    held: Option<Frame>,
    ready: Vec<Frame>,
}

/// The ends of the links at one node: the destinations of its frames, by the node's index, the source of the frames for it, and the
/// traffic of all links.
#[derive(Drop)]
pub struct Ends<'d> {
    /// The node's desk.
    pub desk: &'d Desk,
    /// The links to each node.
    pub(crate) to: Ways,
    /// The bundles from all nodes.
    pub from: Receiver<Bundle, Global>,
    /// The traffic to all nodes.
    pub(crate) traffic: Traffic,
}

/// The traffic between nodes: the channels of all nodes, from which nothing is taken here.
#[derive(Drop)]
pub(crate) struct Traffic {
    channels: Vec<Receiver<Bundle, Global>>,
}

/// The links from one node, by the index of the node that they lead to.
#[derive(Drop)]
pub(crate) struct Ways {
    links: Links,
    ways: Vec<Way>,
}

/// Returns whether the fault applies to the frame of that number.
fn is_hit(every: u32, count: u64) -> bool {
    every != 0 && count % u64::from(every) == 0
}

impl Way {
    /// Carries another frame over such a link. A frame that was held back goes after it.
    fn carry(&mut self, links: Links, frame: Frame) -> Result<(), AllocError> {
        self.count = self.count.wrapping_add(1);
        let before = self.held.take();
        self.carry_one(links, frame)?;
        if let Some(frame) = before {
            self.ready.push(frame)?;
        }
        Ok(())
    }

    /// Carries the frame of this number, holds it back, or loses it.
    fn carry_one(&mut self, links: Links, frame: Frame) -> Result<(), AllocError> {
        if is_hit(links.lose, self.count) {
            return Ok(());
        }
        if is_hit(links.repeat, self.count) {
            self.ready.push(frame.copy()?)?;
        } else if is_hit(links.hold, self.count) {
            self.held = Some(frame);
            return Ok(());
        }
        self.ready.push(frame)?;
        Ok(())
    }

    /// Gives the ready frames to the channel, if there are any. Errors: `Closed` if the node takes no more frames, `NoMemory` if the
    /// channel cannot grow.
    fn give<R: Wait>(&mut self, rt: &R) -> Result<(), Refusal> {
        if self.ready.is_empty() {
            return Ok(());
        }
        let alloc = *self.ready.allocator();
        let frames = mem::replace(&mut self.ready, Vec::new(alloc));
        match self.to.send(rt, Bundle { frames }) {
            Ok(()) => Ok(()),
            Err(error) if error.is_disconnected() => Err(Refusal::Closed),
            Err(_) => Err(Refusal::NoMemory),
        }
    }
}

impl Ways {
    /// Carries the frames over the links to their nodes, those for one node together. Errors: `BadParam` if no link leads to a frame's
    /// node, `NoMemory` if a link cannot keep a frame, and those of `Way::give`.
    fn carry<R: Wait>(&mut self, rt: &R, frames: VecDeque<Sent>) -> Result<(), Refusal> {
        for sent in frames {
            let Some(way) = self.ways.get_mut(sent.to.index() as usize) else {
                return Err(Refusal::BadParam);
            };
            way.carry(self.links, sent.frame)?;
        }
        self.give_all(rt)
    }

    /// Gives the ready frames of each link to its channel, up to the first channel that refuses them. Errors: those of `Way::give`.
    fn give_all<R: Wait>(&mut self, rt: &R) -> Result<(), Refusal> {
        for way in self.ways.iter_mut() {
            way.give(rt)?;
        }
        Ok(())
    }
}

impl Traffic {
    /// Returns the traffic over these channels.
    fn over(alloc: Global, receivers: &[Receiver<Bundle, Global>]) -> Result<Traffic, AllocError> {
        let mut channels = Vec::with_capacity(alloc, receivers.len())?;
        for receiver in receivers {
            channels.push(receiver.clone()?)?;
        }
        Ok(Traffic { channels })
    }

    /// Returns another view of the traffic.
    fn copy(&self) -> Result<Traffic, AllocError> {
        Traffic::over(*self.channels.allocator(), &self.channels)
    }

    /// Returns whether no bundle waits to be delivered.
    fn is_still(&self) -> bool {
        self.channels.iter().all(|channel| channel.is_empty())
    }
}

/// Makes links to the destinations of the senders.
fn ways_of(
    alloc: Global,
    senders: &[Sender<Bundle, Global>],
    links: Links,
) -> Result<Ways, AllocError> {
    let mut ways = Vec::with_capacity(alloc, senders.len())?;
    for sender in senders {
        ways.push(Way {
            to: sender.clone()?,
            count: 0,
            held: None,
            ready: Vec::new(alloc),
        })?;
    }
    Ok(Ways { links, ways })
}

/// Makes the links among the desks, by the index of the node.
pub fn link_desks<'d>(
    alloc: Global,
    desks: &'d [Desk],
    links: Links,
) -> Result<Vec<Ends<'d>>, AllocError> {
    let mut senders = Vec::with_capacity(alloc, desks.len())?;
    let mut receivers = Vec::with_capacity(alloc, desks.len())?;
    for _ in desks {
        let (to, from) = unbounded(alloc)?;
        senders.push(to)?;
        receivers.push(from)?;
    }
    join_ends(alloc, desks, &senders, receivers, links)
}

/// Joins each desk with its receiver, and with a link to each node.
fn join_ends<'d>(
    alloc: Global,
    desks: &'d [Desk],
    senders: &[Sender<Bundle, Global>],
    receivers: Vec<Receiver<Bundle, Global>>,
    links: Links,
) -> Result<Vec<Ends<'d>>, AllocError> {
    let mut ends = Vec::with_capacity(alloc, desks.len())?;
    let all = Traffic::over(alloc, &receivers)?;
    for (desk, from) in desks.iter().zip(receivers) {
        let to = ways_of(alloc, senders, links)?;
        let traffic = all.copy()?;
        ends.push(Ends {
            desk,
            to,
            from,
            traffic,
        })?;
    }
    Ok(ends)
}

/// Carries the frames that the desk's node sent to the links of their nodes, until the desk is closed or a frame cannot be carried. Then
/// it closes all desks, because clients of other nodes would wait for the missing frames of this node. A channel refuses a bundle if there
/// is no memory for it.
pub fn send_frames<R: Wait>(
    rt: &R,
    desks: &[Desk],
    shortage: &Shortage,
    desk: &Desk,
    mut to: Ways,
) {
    for _ in rt.forever() {
        let Ok(frames) = desk.take_frames(rt) else {
            break;
        };
        if let Err(refusal) = to.carry(rt, frames) {
            shortage.note_refusal(rt, refusal);
            break;
        }
    }
    close_desks(rt, desks);
}

/// Delivers the frames that come for the desk's node, until no link brings more. If a frame cannot be delivered, it closes all desks.
pub fn deliver_frames<R: Wait>(
    rt: &R,
    desks: &[Desk],
    shortage: &Shortage,
    desk: &Desk,
    from: &Receiver<Bundle, Global>,
) {
    for _ in rt.forever() {
        let Ok(bundle) = from.recv(rt) else {
            return;
        };
        if let Err(refusal) = desk.deliver_all(rt, bundle.frames) {
            shortage.note_refusal(rt, refusal);
            close_desks(rt, desks);
            return;
        }
    }
}

/// Waits a millisecond, and longer while a frame is on its way: it may bring the missing data, or ask for it. Returns at once after the
/// desk is closed.
fn pause<R: Wait + Clock>(rt: &R, desk: &Desk, traffic: &Traffic) {
    for _ in rt.forever() {
        thread::sleep(rt, Duration::from_millis(1));
        if traffic.is_still() || desk.is_closed(rt) {
            return;
        }
    }
}

/// Nudges the desk's node so many times, with a pause between two, to ask others again for missing data, until the desk is closed. Then it
/// closes all desks.
pub fn nudge_desk<R: Wait + Clock>(
    rt: &R,
    desks: &[Desk],
    shortage: &Shortage,
    desk: &Desk,
    traffic: &Traffic,
    nudges: u32,
) {
    for turn in 0..nudges {
        if turn > 0 {
            pause(rt, desk, traffic);
        }
        match desk.nudge(rt) {
            Ok(()) => {}
            Err(Refusal::Closed) => break,
            Err(refusal) => shortage.note_refusal(rt, refusal),
        }
    }
    close_desks(rt, desks);
}
