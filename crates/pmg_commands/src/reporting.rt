//! The end of a command: the line of its failure, the flush, and its status.
ghost use Rattle.std.specs.Prelude.{◌≡◌, ◌⊎◌, ◌++◌, codes, IsNone, IsSome, IsTrue, OnErr};
ghost use Rattle.std.specs.Io.KnownBytes.{Appends};
ghost use Rattle.pmg_value.specs.RefusalText.{refusal_text};
ghost use Rattle.pmg_value.specs.Written.{AppendsFront, Writes};
ghost use Rattle.pmg_commands.specs.Output.{failure_status, failure_line, stream_line, in_stream, outcome_output, status_alone, IsStatus, Prints};

use crate::status::{DONE, FAILED, NO_MEMORY};
use pmg_store::Failure;
use pmg_value::{Fault, Refusal, WatchedWriter, WriteFault};
use std::io::Write;

/// Ends a command: prints the line of its failure, if it has one, flushes the writer, and returns the status. If the writer has failed,
/// the status is 1, and nothing more is printed.
pub fn conclude<W: Write>(writer: &mut WatchedWriter<W>, outcome: Result<(), Failure>) -> u8
    ensures printed { Prints (W.contents writer.old.writer) (W.contents writer.new.writer) writer.new.failure
        result (outcome_output outcome) }
    ensures kept { IsSome writer.old.failure → IsSome writer.new.failure }
    ensures flushed { IsNone writer.new.failure → IsTrue writer.new.is_flushed }
    ensures status { IsStatus result }
{
    let status = match outcome {
        Ok(()) => DONE,
        Err(failure) => report(writer, &failure),
    };
    finish(writer, status)
}

/// Ends a command that has printed all of its lines: flushes the writer, and returns the status, which is 1 if the writer has failed.
pub fn finish<W: Write>(writer: &mut WatchedWriter<W>, status: u8) -> u8
    ensures printed { Prints (W.contents writer.old.writer) (W.contents writer.new.writer) writer.new.failure
        result (status_alone status) }
    ensures kept { IsSome writer.old.failure → IsSome writer.new.failure }
    ensures flushed { IsNone writer.new.failure → IsTrue writer.new.is_flushed }
    ensures status { (result ≡ status) ⊎ (result ≡ 1) }
{
    writer.flush();
    if writer.has_failed() { FAILED } else { status }
}

/// Prints the failure's line, unless the writer has failed, and returns the failure's status.
fn report<W: Write>(writer: &mut WatchedWriter<W>, failure: &Failure) -> u8
    ensures line { IsNone writer.new.failure
        → Appends (W.contents writer.old.writer) (W.contents writer.new.writer) (failure_line failure.now) }
    ensures prefix { AppendsFront (W.contents writer.old.writer) (W.contents writer.new.writer) (failure_line failure.now) }
    ensures kept { IsSome writer.old.failure → IsSome writer.new.failure }
    ensures value { result ≡ failure_status failure.now }
    ensures status { IsStatus result }
{
    if !writer.has_failed() {
        let _ = write_line(writer, failure);
    }
    match failure {
        Failure::Refused(Refusal::NoMemory) => NO_MEMORY,
        _ => FAILED,
    }
}

#[tactic(auto, using(pmg_value::proofs::WrittenLemmas::written_in_parts), unfolding(crate::specs::Output::failure_line, crate::specs::Output::refusal_line))]
fn write_line<W: Write>(writer: &mut WatchedWriter<W>, failure: &Failure) -> Result<(), WriteFault>
    ensures text { Writes (W.contents writer.old.writer) (W.contents writer.new.writer)
        result (failure_line failure.now) }
    ensures failed { OnErr result (IsSome writer.new.failure) }
{
    match failure {
        Failure::Refused(refusal) => write_refusal(writer, b"refused ", refusal),
        Failure::InStream(stream, fault) => write_stream_line(writer, *stream, fault),
        Failure::Read => writer.put_text(b"read fault\n"),
        Failure::Write => Ok(()),
    }
}

/// Writes a line: these bytes, and the refusal.
#[tactic(auto, using(pmg_value::proofs::WrittenLemmas::written_in_parts))]
pub fn write_refusal<W: Write>(
    writer: &mut WatchedWriter<W>,
    before: &[u8],
    refusal: &Refusal,
) -> Result<(), WriteFault>
    ensures text { Writes (W.contents writer.old.writer) (W.contents writer.new.writer)
        result (before.now ++ refusal_text refusal.now ++ codes "\n") }
    ensures failed { OnErr result (IsSome writer.new.failure) }
{
    writer.put_text(before)?;
    refusal.write_text(writer)?;
    writer.put_text(b"\n")
}

#[tactic(auto, using(pmg_value::proofs::WrittenLemmas::written_in_parts), unfolding(crate::specs::Output::stream_line))]
fn write_stream_line<W: Write>(
    writer: &mut WatchedWriter<W>,
    stream: usize,
    fault: &Fault,
) -> Result<(), WriteFault>
    ensures text { Writes (W.contents writer.old.writer) (W.contents writer.new.writer)
        result (stream_line stream fault.now) }
    ensures failed { OnErr result (IsSome writer.new.failure) }
{
    writer.put_text(b"refused ")?;
    Refusal::BadFrame(*fault).write_text(writer)?;
    write_in_stream(writer, stream)
}

#[tactic(auto, using(pmg_value::proofs::WrittenLemmas::written_in_parts), unfolding(crate::specs::Output::in_stream))]
fn write_in_stream<W: Write>(writer: &mut WatchedWriter<W>, stream: usize) -> Result<(), WriteFault>
    ensures text { Writes (W.contents writer.old.writer) (W.contents writer.new.writer)
        result (in_stream stream) }
    ensures failed { OnErr result (IsSome writer.new.failure) }
{
    writer.put_text(b" in stream ")?;
    writer.put_number(stream as u64)?;
    writer.put_text(b"\n")
}
