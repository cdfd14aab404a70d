//! The command `dump`.
ghost use Rattle.std.specs.Prelude.{◌≡◌, ◌≤◌, ◌+◌, ◌⊎◌, IfErr, IfSome, IsNone, IsSome, IsTrue};
ghost use Rattle.pmg_store.specs.Outcomes.{Dumps, or_failure};
ghost use Rattle.pmg_commands.specs.Dump.{dump_text, dump_output};
ghost use Rattle.pmg_commands.specs.Output.{IsStatus, PrintsFor, TellsReadFault};

use crate::reporting::conclude;
use crate::text::decode_text;
use pmg_store::{Failure, MOST_READS, WatchedReader, read_input, store_of_stream};
use pmg_value::WatchedWriter;
use std::alloc::Global;
use std::io::{Read, Write};
use std::mem;

/// Reads hexadecimal text to its end, prints the dump of the frames that it encodes, and returns the status.
///
/// The function prints nothing before it has read the whole input without a fault. The status is 1 for a refused input, a read fault and a
/// write fault, and 3 if an allocation failed. A refusal and a read fault print a line. A failure of the reader is always reported as a
/// read fault. If the writer fails, nothing more is printed. The store is leaked on purpose: the program ends after its dump.
pub fn run_dump<R: Read, W: Write>(
    alloc: Global,
    reader: &mut WatchedReader<R>,
    writer: &mut WatchedWriter<W>,
) -> u8
    ensures printed { PrintsFor (R.remaining reader.old.reader) (W.contents writer.old.writer) (W.contents writer.new.writer)
        reader.new.failure writer.new.failure result dump_output }
    ensures read_fault { TellsReadFault (W.contents writer.old.writer) (W.contents writer.new.writer)
        reader.old.failure reader.new.failure writer.new.failure result }
    ensures flushed { IsNone writer.new.failure → IsTrue writer.new.is_flushed }
    ensures few { reader.new.reads ≤ reader.old.reads + MOST_READS }
    ensures status { IsStatus result }
{
    let outcome = dump_text(alloc, reader, writer);
    conclude(writer, outcome)
}

fn dump_text<R: Read, W: Write>(
    alloc: Global,
    reader: &mut WatchedReader<R>,
    writer: &mut WatchedWriter<W>,
) -> Result<(), Failure>
    ensures dumps { IfSome (R.remaining reader.old.reader) (λ text.
        Dumps (W.contents writer.old.writer) (W.contents writer.new.writer) result (or_failure (dump_text text))) }
    ensures read_fault { IfErr result (λ e. e ≡ Failure.Read → IsSome reader.new.failure) }
    ensures failed { IsSome reader.new.failure → IsSome reader.old.failure ⊎ (result
        ≡ Err Failure.Read) }
    ensures unwritten { result ≡ Err Failure.Read → writer.new ≡ writer.old }
    ensures write_fault { IfErr result (λ e. e ≡ Failure.Write → IsSome writer.new.failure) }
    ensures few { reader.new.reads ≤ reader.old.reads + MOST_READS }
{
    let text = read_input(alloc, reader)?;
    let frames = decode_text(alloc, &text)?;
    drop(text);
    let store = store_of_stream(alloc, &frames)?;
    let written = store.dump(writer);
    // The program ends now and frees its memory as a whole: taking the store apart would only cost time.
    mem::forget(store);
    written
}
