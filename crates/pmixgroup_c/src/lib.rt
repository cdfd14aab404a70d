//! `libpmixgroup`: one node of a group for a daemon written in C. `include/pmixgroup.h` states the duties of C.
#![tactic(auto)]

/// Makes the call on the node of the handle, puts the node back, and returns the answer. For an empty handle it returns that the handle is
/// wrong.
macro_rules! on_node {
    ($handle:expr, $daemon:ident, $call:expr) => {{
        let Some(mut $daemon) = $handle.take() else {
            return WRONG_HANDLE;
        };
        let code = $call;
        $handle.put($daemon);
        code
    }};
}

mod calls;
mod frames;
mod opening;
mod told;
