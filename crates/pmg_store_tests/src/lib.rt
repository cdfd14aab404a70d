//! Tests of frames, lanes and stores, from without: by bytes and pieces that are written by hand, or drawn.
//! They want memory: where an allocation fails, a test gives up with NoMemory, and with nothing else.
#![tactic(auto)]

#[cfg(test)]
mod tests;
