//! The copy of bytes into a buffer of the caller.
ghost use Rattle.std.specs.Prelude.{◌≡◌, Some};
ghost use Rattle.pmg_value.specs.Spelling.{spelling};
ghost use Rattle.pmg_daemon.specs.Codes.{Fills};

use crate::codes::{DONE, NO_MEMORY, TOO_SMALL};
use bytes::BytesMut;
use pmg_value::Value;
use pmg_wire::put_value;
use std::alloc::Global;

/// Copies the bytes to the front of the buffer, and sets their length. If the buffer is too small for them, it stays unchanged, and the
/// length is the needed one.
pub(crate) fn fill(bytes: &[u8], buffer: &mut [u8], len: &mut usize) -> u32
    ensures { Fills bytes.now buffer.old len.old result buffer.new len.new }
{
    *len = bytes.len();
    if buffer.len() < bytes.len() {
        return TOO_SMALL;
    }
    buffer[..bytes.len()].copy_from_slice(bytes);
    DONE
}

/// Copies the value's canonical bytes into the buffer, as `fill` does.
pub(crate) fn fill_value(alloc: Global, value: &Value, buffer: &mut [u8], len: &mut usize) -> u32
    ensures { Fills (spelling value.now) buffer.old len.old result buffer.new len.new }
{
    let mut bytes = BytesMut::new(alloc);
    match put_value(&mut bytes, value) {
        Ok(()) => fill(&bytes, buffer, len),
        Err(_) => NO_MEMORY,
    }
}
