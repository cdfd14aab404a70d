//! The command `merge`.
ghost use Rattle.std.specs.Prelude.{◌≡◌, ◌+◌, ◌≤◌, ◌⊎◌, map, length, count_by, IfOk, IfErr, IfSome, IsNone, IsSome, IsTrue};
ghost use Rattle.bstr.specs.Text.{lines_of};
ghost use Rattle.pmg_wire.specs.Reading.{FailsReading};
ghost use Rattle.pmg_store.specs.Outcomes.{Dumps};
ghost use Rattle.pmg_commands.specs.Merge.{is_separator, span, spans_of, decoded_at, decoded_all, merge_text, merge_output};
ghost use Rattle.pmg_commands.specs.Output.{IsStatus, PrintsFor, TellsReadFault};

use crate::reporting::conclude;
use crate::text::decode_text;
use bstr::ByteSlice;
use pmg_store::{Failure, MAX_STREAMS, MOST_READS, WatchedReader, merge_inputs, read_input};
use pmg_value::{Fault, Refusal, WatchedWriter};
use std::alloc::Global;
use std::io::{Read, Write};

/// Reads hexadecimal text to its end, prints the dump of the streams that it encodes, and returns the status. A line `--` ends a stream.
///
/// The function prints nothing before it has read the whole input without a fault. The status is 1 for a refused input, a read fault and a
/// write fault, and 3 if an allocation failed. A refusal and a read fault print a line. The line of a stream's fault has the stream's
/// number, counted from 1. A failure of the reader is always reported as a read fault. If the writer fails, nothing more is printed.
pub fn run_merge<R: Read, W: Write>(
    alloc: Global,
    reader: &mut WatchedReader<R>,
    writer: &mut WatchedWriter<W>,
) -> u8
    ensures printed { PrintsFor (R.remaining reader.old.reader) (W.contents writer.old.writer) (W.contents writer.new.writer)
        reader.new.failure writer.new.failure result merge_output }
    ensures read_fault { TellsReadFault (W.contents writer.old.writer) (W.contents writer.new.writer)
        reader.old.failure reader.new.failure writer.new.failure result }
    ensures flushed { IsNone writer.new.failure → IsTrue writer.new.is_flushed }
    ensures few { reader.new.reads ≤ reader.old.reads + MOST_READS }
    ensures status { IsStatus result }
{
    let outcome = merge_text(alloc, reader, writer);
    conclude(writer, outcome)
}

fn merge_text<R: Read, W: Write>(
    alloc: Global,
    reader: &mut WatchedReader<R>,
    writer: &mut WatchedWriter<W>,
) -> Result<(), Failure>
    ensures dumps { IfSome (R.remaining reader.old.reader) (λ text.
        Dumps (W.contents writer.old.writer) (W.contents writer.new.writer) result (merge_text text)) }
    ensures read_fault { IfErr result (λ e. e ≡ Failure.Read → IsSome reader.new.failure) }
    ensures failed { IsSome reader.new.failure → IsSome reader.old.failure ⊎ (result
        ≡ Err Failure.Read) }
    ensures unwritten { result ≡ Err Failure.Read → writer.new ≡ writer.old }
    ensures write_fault { IfErr result (λ e. e ≡ Failure.Write → IsSome writer.new.failure) }
    ensures few { reader.new.reads ≤ reader.old.reads + MOST_READS }
{
    let text = read_input(alloc, reader)?;
    if separators(&text) >= MAX_STREAMS {
        return Err(Failure::Refused(Refusal::TooMany));
    }
    let streams = decode_streams(alloc, &text)?;
    drop(text);
    merge_inputs(alloc, &streams, writer)
}

/// Returns the number of lines that end a stream.
fn separators(text: &[u8]) -> usize
    ensures { result ≡ count_by is_separator (lines_of text.now) }
{
    text.lines_with_terminator()
        .filter(|line| is_separator(line))
        .count()
}

/// Returns whether the line is `--`, with any line ending.
fn is_separator(line: &[u8]) -> bool
    ensures { result ≡ is_separator line.now }
{
    matches!(line, b"--\n" | b"--" | b"--\r\n" | b"--\r")
}

/// Decodes the bytes of each stream. Errors: `BadFrame` at the first fault of the texts; `NoMemory`.
fn decode_streams(alloc: Global, text: &[u8]) -> Result<Vec<Vec<u8>>, Refusal>
    ensures streams { IfOk result (λ streams. decoded_all text.now (spans_of text.now)
        ≡ Ok (map (λ s. s.items) streams.items)) }
    ensures fault { IfErr result
        (λ refusal. FailsReading refusal (decoded_all text.now (spans_of text.now))) }
{
    let mut streams = Vec::new(alloc);
    let mut start = 0;
    let mut end = 0;
    for line in text.lines_with_terminator() {
        let next = end + line.len();
        if is_separator(line) {
            streams.push(decode_stream(alloc, text, start, end)?)?;
            start = next;
        }
        end = next;
    }
    streams.push(decode_stream(alloc, text, start, end)?)?;
    Ok(streams)
}

/// Decodes the bytes of the stream whose text is between the offsets. The offset of a fault counts from the start of the whole input.
fn decode_stream(alloc: Global, text: &[u8], start: usize, end: usize) -> Result<Vec<u8>, Refusal>
    requires order { start ≤ end }
    requires within { end ≤ length text.now }
    ensures bytes { IfOk result (λ bytes. decoded_at text.now (span start end) ≡ Ok bytes.items) }
    ensures fault { IfErr result
        (λ refusal. FailsReading refusal (decoded_at text.now (span start end))) }
{
    match decode_text(alloc, &text[start..end]) {
        Err(Refusal::BadFrame(fault)) => Err(Refusal::BadFrame(Fault {
            offset: start as u64 + fault.offset,
            cause: fault.cause,
        })),
        answer => answer,
    }
}
