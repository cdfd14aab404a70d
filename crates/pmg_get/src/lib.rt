//! What a get is answered, by what its node holds of the key.
#![tactic(auto)]

mod answer;
mod view;

pub use answer::{Answer, resolve};
pub use view::{Mode, View};
