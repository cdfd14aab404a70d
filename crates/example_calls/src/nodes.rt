//! A caller of `Node`.
ghost use Rattle.std.specs.Prelude.{◌≡◌, OnOk};
ghost use Rattle.pmg_node.specs.Servers.{after};
ghost use Rattle.pmg_node_model.specs.Acts.{Act};

use pmg_frame::Frame;
use pmg_node::Node;
use pmg_node_model::Sent;
use pmg_value::Refusal;

/// Delivers a frame of another node, and returns the next frame that the node has to send, if there is one.
pub fn deliver(node: &mut Node, frame: &Frame) -> Result<Option<Sent>, Refusal>
    ensures { OnOk result (node.new.server ≡ after node.old.server (Act.deliver frame.now)) }
{
    node.deliver(frame)?;
    Ok(node.outbox())
}
