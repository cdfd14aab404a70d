use pmg_frame::Header;
use pmg_value::Proc;

/// A change of a fence, beside its name.
#[derive(Drop)]
pub enum Change {
    /// Only the name.
    Learned,
    /// The entry of a process, after so many commits.
    Entered(Proc, u64),
    /// The header of a node.
    Told(Header),
}
