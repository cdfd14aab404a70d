//! The contributions in a stream of frames, and their dump.
ghost use Rattle.std.specs.Prelude.{◌≡◌, ◌≤◌, ◌+◌, ◌⊎◌, [], ◌∷◌, Ok, map, Some, IfErr, IfSome, IsSome, OnOk};
ghost use Rattle.pmg_wire.specs.Reading.{FailsReading, ReadsAll};
ghost use Rattle.pmg_join.specs.Joins.{join_all};
ghost use Rattle.pmg_commit.specs.Data.{Data, join_data, of_contribution};
ghost use Rattle.pmg_frame.specs.Streams.{finished};
ghost use Rattle.pmg_store.specs.Dumps.{dump_of};
ghost use Rattle.pmg_store.specs.Outcomes.{Dumps, or_failure};
ghost use Rattle.pmg_store.specs.Told.{contributions, data_told};

use crate::failure::Failure;
use crate::input::{MOST_READS, WatchedReader, read_input};
use crate::store::Store;
use pmg_frame::{Frame, get_frame};
use pmg_value::{Cause, Refusal, WatchedWriter};
use pmg_wire::Cursor;
use std::alloc::{AllocError, Global};
use std::io::{Read, Write};

/// Takes the contribution in the frame: a piece, or the piece in a refresh reply. Any other frame has no contribution.
fn take_frame(store: &mut Store, frame: Frame) -> Result<(), AllocError>
    ensures { OnOk result (store.new ≡ join_all join_data store.old (map of_contribution (contributions (frame ∷ [])))) }
{
    match frame {
        Frame::Piece(piece) => store.take(piece),
        Frame::Header(_) => Ok(()),
        Frame::FenceAsk(_) => Ok(()),
        Frame::RangeAsk(_) => Ok(()),
        Frame::DirectAsk(_) => Ok(()),
        Frame::RefreshAsk(_) => Ok(()),
        Frame::RefreshReply(reply) => match reply.into_piece() {
            Some(piece) => store.take(piece),
            None => Ok(()),
        },
    }
}

/// Takes the contributions in a whole stream into the store, each as its frame is decoded. Errors: `BadFrame` at the first fault, with Cut
/// if the stream ends inside a frame; `NoMemory`. After an error the store has taken some of the contributions.
pub fn take_stream(alloc: Global, store: &mut Store, bytes: &[u8]) -> Result<(), Refusal>
    ensures taken { OnOk result ((d : Data) × (data_told bytes.now ≡ Ok d) × (store.new ≡ join_data store.old d)) }
    ensures fault { IfErr result (λ e. FailsReading e (data_told bytes.now)) }
{
    let mut at = Cursor::of(bytes);
    loop {
        match get_frame(alloc, &mut at) {
            Ok(Some(frame)) => take_frame(store, frame)?,
            Ok(None) => return end_of_stream(&at),
            Err(refusal) => return Err(refusal),
        }
    }
}

/// Checks that no bytes are left. Errors: Cut at the first remaining byte.
fn end_of_stream(at: &Cursor<'_>) -> Result<(), Refusal>
    ensures { result ≡ finished (Some at.now) }
{
    if !at.rest().is_empty() {
        return Err(Refusal::bad_frame(at.offset(), Cause::Cut));
    }
    Ok(())
}

/// Returns a store that took the contributions in a whole stream. Errors: `BadFrame` at the first fault, with Cut if the stream ends inside
/// a frame; `NoMemory`.
pub fn store_of_stream(alloc: Global, bytes: &[u8]) -> Result<Store, Refusal>
    ensures { ReadsAll (λ s. s) result (data_told bytes.now) }
{
    let mut store = Store::new(alloc);
    take_stream(alloc, &mut store, bytes)?;
    Ok(store)
}

/// Reads a stream of frames to its end, and then writes the dump of a store that took its contributions. Other frames than pieces and
/// refresh replies are checked too, and add nothing.
///
/// Errors: `BadFrame` with the first fault: Input past 67,108,864 bytes, else the first fault of the frames, else Cut. A read fault for any
/// error of the reader. Nothing is written before the whole stream was read without a fault. If the writer fails, a prefix of the dump was
/// written. The reader is read at most 67,108,865 times.
pub fn dump_stream<R: Read, W: Write>(
    alloc: Global,
    reader: &mut WatchedReader<R>,
    writer: &mut WatchedWriter<W>,
) -> Result<(), Failure>
    ensures dumps { IfSome (R.remaining reader.old.reader)
        (λ bytes. Dumps (W.contents writer.old.writer) (W.contents writer.new.writer)
        result (or_failure (dump_of bytes))) }
    ensures read_fault { IfErr result (λ e. e ≡ Failure.Read → IsSome reader.new.failure) }
    ensures failed { IsSome reader.new.failure → IsSome reader.old.failure ⊎ (result
        ≡ Err Failure.Read) }
    ensures unwritten { result ≡ Err Failure.Read → writer.new ≡ writer.old }
    ensures write_fault { IfErr result (λ e. e ≡ Failure.Write → IsSome writer.new.failure) }
    ensures few { reader.new.reads ≤ reader.old.reads + MOST_READS }
{
    let input = read_input(alloc, reader)?;
    let store = store_of_stream(alloc, &input)?;
    store.dump(writer)
}
