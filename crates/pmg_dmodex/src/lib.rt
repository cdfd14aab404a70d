//! Requests for commits that wait, and what was sent to whom.
#![tactic(auto)]

mod levels;
mod marks;
mod parked;
mod pending;
mod refreshes;

pub use marks::Marks;
pub use parked::Parked;
pub use pending::Pending;
