use pmg_frame::Frame;
use pmg_value::{Copied, NodeId};
use std::alloc::AllocError;

/// A frame on its way to a node.
#[derive(Drop)]
pub struct Sent {
    /// The node that the frame is sent to.
    pub to: NodeId,
    /// The frame.
    pub frame: Frame,
}

impl Copied for Sent {
    fn copy(&self) -> Result<Sent, AllocError> {
        Ok(Sent {
            to: self.to,
            frame: self.frame.copy()?,
        })
    }
}
