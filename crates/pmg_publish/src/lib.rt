//! The published store: a publisher shows the board of its node, and viewers read it and wait for nobody.
#![tactic(auto)]

mod counting;
mod history;
mod opening;
mod parts;
mod publishing;
mod rule;
mod shown;
mod sight;
mod viewer;

pub use counting::Publication;
pub use opening::{MAX_VIEWERS, publisher};
pub use publishing::Publisher;
pub use sight::{FarSnapshot, Snapshot};
pub use viewer::{Told, Viewer};
