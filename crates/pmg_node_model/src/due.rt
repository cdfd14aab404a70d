use crate::sent::Sent;
use pmg_value::{NodeId, Proc};

/// An item to send.
#[derive(Drop)]
pub enum ToSend {
    /// A frame.
    Whole(Sent),
    /// The commits of an own process that the node was not sent yet.
    Rest(NodeId, Proc),
}
