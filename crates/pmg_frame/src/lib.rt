//! Frames, which servers send one another, and streams of them.
#![tactic(auto)]

mod asks;
mod comparing;
mod fence_name;
mod fence_reading;
mod frame;
mod header;
mod laws;
mod local;
mod local_run_reading;
mod local_run_writing;
mod piece_reading;
mod reading;
mod refresh_reading;
mod refreshes;
mod run_reading;
mod run_writing;
mod same;
mod signature;
mod stream;
mod writing;

pub use asks::{CommitAsk, FenceAsk};
pub use fence_name::{FenceName, MAX_INSTANCE};
pub use frame::{Frame, HEAD_SIZE, MAX_BODY_SIZE};
pub use header::Header;
pub use laws::{fence_order, frame_rules, run_rules, stream_rules};
pub use local::{Local, State};
pub use reading::get_frame;
pub use refreshes::{RefreshAsk, RefreshReply};
pub use signature::{MAX_PARTICIPANTS, Signature};
pub use stream::{Fed, Stream};
