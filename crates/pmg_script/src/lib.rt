//! Scripts: lines of events in a group, their reader, and their player, which does them one by one.
#![tactic(auto)]

mod fields;
mod lines;
mod playing;
mod reading;
mod script;

pub use fields::Named;
pub use lines::{LineFault, Words, content};
pub use playing::{Ended, Player, play_script};
pub use reading::next_line;
pub use script::{Line, read_line};
