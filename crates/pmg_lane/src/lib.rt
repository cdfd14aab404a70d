//! Lanes: what is known of one process, without the entries that are superseded.
#![tactic(auto)]

mod entries;
mod lane;
mod merged;
mod readings;
mod single;
mod track;
mod waiting;

pub use entries::Stamp;
pub use lane::Lane;
pub use readings::{level_alone, read_alone};
pub use track::Reads;
