//! The command `replay`.
ghost use Rattle.std.specs.Prelude.{◌≡◌, ◌≤◌, ◌+◌, IfSome, IsNone, IsSome, IsTrue};
ghost use Rattle.pmg_commands.specs.Output.{IsStatus, Prints};
ghost use Rattle.pmg_app.specs.Replay.{script_output, PrintsReplies};

use pmg_commands::{FAILED, conclude, finish};
use pmg_script::Ended;
use pmg_store::{Failure, MOST_READS, WatchedReader};
use pmg_value::WatchedWriter;
use pmg_world::{Stage, replay};
use std::alloc::Global;
use std::io::{BufRead, Write};
use std::mem;

/// Reads a script line by line, carries out each line, prints its reply, and returns the status.
///
/// A reply is printed before the next line is read. The status is 1 if the nodes of the script were refused, for a line of no known form,
/// and for a script that is too long. It is also 1 for a read fault and a write fault, and 3 if an allocation failed. A fault of the
/// script, a read fault and a failed allocation print a line after the replies. If the writer fails, nothing more is printed. The stage
/// that carries out the lines is leaked on purpose: the program ends after its script.
pub fn run_replay<R: BufRead, W: Write>(
    alloc: Global,
    reader: &mut WatchedReader<R>,
    writer: &mut WatchedWriter<W>,
) -> u8
    ensures printed { IfSome (R.remaining reader.old.reader) (λ text.
        PrintsReplies text (R.remaining reader.new.reader) (W.contents writer.old.writer) (W.contents writer.new.writer)
        reader.old.failure reader.new.failure writer.new.failure result) }
    ensures flushed { IsNone writer.new.failure → IsTrue writer.new.is_flushed }
    ensures few { reader.new.reads ≤ reader.old.reads + MOST_READS }
    ensures status { IsStatus result }
{
    let mut stage = Stage::new(alloc);
    let ended = replay(alloc, &mut stage, reader, writer);
    // The program ends now and frees its memory as a whole: taking the stores of its nodes apart would only cost time.
    mem::forget(stage);
    conclude_script(writer, ended)
}

/// Ends the command after a script with this ending, and returns the status.
fn conclude_script<W: Write>(writer: &mut WatchedWriter<W>, ended: Result<Ended, Failure>) -> u8
    ensures printed { Prints (W.contents writer.old.writer) (W.contents writer.new.writer) writer.new.failure
        result (script_output ended) }
    ensures kept { IsSome writer.old.failure → IsSome writer.new.failure }
    ensures flushed { IsNone writer.new.failure → IsTrue writer.new.is_flushed }
    ensures status { IsStatus result }
{
    match ended {
        Ok(Ended::AtEnd) => conclude(writer, Ok(())),
        Ok(Ended::Over) => finish(writer, FAILED),
        Err(failure) => conclude(writer, Err(failure)),
    }
}
