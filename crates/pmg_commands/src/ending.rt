//! The end of a program: its reports on standard error about its streams, and the failures before a command starts.
ghost use Rattle.std.specs.Prelude.{◌≡◌, ◌≢◌, ◌≤◌, ◌↔◌};
ghost use Rattle.std.specs.IoError.{error_kind};
ghost use Rattle.pmg_value.specs.declared.refusal.Refusal.TheVariants.{NoMemory};
ghost use Rattle.pmg_store.specs.declared.failure.Failure.TheVariants.{Refused};
ghost use Rattle.pmg_commands.specs.Output.{failure_output, Prints};

use crate::reporting::conclude;
use crate::status::{FAILED, USAGE_FAULT};
use pmg_store::{Failure, WatchedReader};
use pmg_value::{Refusal, WatchedWriter};
use std::io;
use std::io::{ErrorKind, Read, Write};

/// Reports on standard error why standard input failed, and why standard output failed, if they did.
pub fn tell_failures<R: Read, W: Write>(
    rt: &impl Eprint,
    reader: &WatchedReader<R>,
    writer: &WatchedWriter<W>,
) {
    if let Some(error) = reader.failure() {
        let _ = eprintln!(rt; "pmixgroup: standard input: {error}");
    }
    if let Some(error) = writer.failure() {
        let _ = eprintln!(rt; "pmixgroup: standard output: {error}");
    }
}

/// Reports a failure before a command starts, and returns the status. Such a failure is an allocation, an argument that is not UTF-8, or
/// standard output.
pub fn end_with<W: Write>(rt: &impl Eprint, writer: &mut WatchedWriter<W>, error: &io::Error) -> u8
    ensures usage { (result ≡ 2) ↔ (error_kind error.now ≡ ErrorKind.InvalidData) }
    ensures memory { error_kind error.now ≡ ErrorKind.OutOfMemory
        → Prints (W.contents writer.old.writer) (W.contents writer.new.writer) writer.new.failure
        result (failure_output (Refused NoMemory)) }
    ensures other { error_kind error.now ≢ ErrorKind.OutOfMemory → error_kind error.now ≢ ErrorKind.InvalidData → result ≡ 1 }
    ensures bound { result ≤ 3 }
{
    match error.kind() {
        ErrorKind::OutOfMemory => conclude(writer, Err(Failure::Refused(Refusal::NoMemory))),
        ErrorKind::InvalidData => {
            let _ = eprintln!(rt; "error: an argument is not UTF-8");
            USAGE_FAULT
        }
        _ => FAILED,
    }
}
