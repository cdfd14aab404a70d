//! The dump of several streams.
ghost use Rattle.std.specs.Prelude.{◌≡◌, ◌≢◌, ◌<◌, ◌≤◌, ◌+◌, ◌⊎◌, ℕ, List, map, length, Some, Ok, Err, IfErr, IfSome, IsSome, OnOk};
ghost use Rattle.pmg_value.specs.Lists.{SameItems};
ghost use Rattle.pmg_commit.specs.Data.{Data, join_data};
ghost use Rattle.pmg_store.specs.Merged.{data_by_input, failure_in, merged, merge_of, too_many};
ghost use Rattle.pmg_store.specs.Outcomes.{Dumps, FailsInput, GivesInput, WritesDue, or_failure};
ghost use Rattle.pmg_store.specs.Readers.{AnyFailed, ReadFewTimes};

use crate::failure::Failure;
use crate::input::{INPUT_LIMIT, MOST_READS, WatchedReader, read_input, too_long};
use crate::store::Store;
use crate::stream::take_stream;
use pmg_value::{Refusal, WatchedWriter};
use std::alloc::Global;
use std::io::{Read, Write};

/// The most streams that one call merges.
pub const MAX_STREAMS: usize = 64;

/// Takes the contributions in the reader's stream. If it fails, some of them were taken.
fn take_reader<R: Read>(
    alloc: Global,
    store: &mut Store,
    reader: &mut WatchedReader<R>,
) -> Result<(), Failure>
    ensures taken { OnOk result ((d : Data) × IfSome (R.remaining reader.old.reader)
        (λ bytes. or_failure (data_by_input bytes) ≡ Ok d) × (store.new ≡ join_data store.old d)) }
    ensures fails { IfErr result (λ e. IfSome (R.remaining reader.old.reader)
        (λ bytes. FailsInput e (or_failure (data_by_input bytes)))) }
    ensures read_fault { IfErr result (λ e. e ≡ Failure.Read → IsSome reader.new.failure) }
    ensures failed { IsSome reader.new.failure → IsSome reader.old.failure ⊎ (result
        ≡ Err Failure.Read) }
    ensures no_write_fault { IfErr result (λ e. e ≢ Failure.Write) }
    ensures few { reader.new.reads ≤ reader.old.reads + MOST_READS }
{
    let input = read_input(alloc, reader)?;
    take_stream(alloc, store, &input)?;
    Ok(())
}

/// Returns the failure at the stream of that number: a fault has the stream's number.
fn failure_in(stream: usize, failure: Failure) -> Failure
    ensures value { result ≡ failure_in stream failure }
    ensures read_fault { result ≡ Failure.Read → failure ≡ Failure.Read }
{
    match failure {
        Failure::Refused(Refusal::BadFrame(fault)) => Failure::InStream(stream, fault),
        other => other,
    }
}

/// Returns a store that took the contributions in the readers' streams, one stream after the other.
fn store_of_streams<R: Read>(
    alloc: Global,
    readers: &mut [WatchedReader<R>],
) -> Result<Store, Failure>
    ensures gives { (streams : List (List ℕ)) → map
        (λ r. R.remaining r.reader) readers.old ≡ map Some streams
        → GivesInput (λ s. s) result (merged streams) }
    ensures read_fault { IfErr result (λ e. e ≡ Failure.Read → AnyFailed readers.new) }
    ensures failed { AnyFailed readers.new → AnyFailed readers.old ⊎ (result ≡ Err Failure.Read) }
    ensures no_write_fault { IfErr result (λ e. e ≢ Failure.Write) }
    ensures few { ReadFewTimes readers.old readers.new }
{
    let mut all = Store::new(alloc);
    let mut number = 0;
    for reader in readers.iter_mut() {
        number += 1;
        if let Err(failure) = take_reader(alloc, &mut all, reader) {
            return Err(failure_in(number, failure));
        }
    }
    Ok(all)
}

/// Takes the contributions in a stream in memory, within the limit of an input. If it fails, some of them were taken.
fn take_input(alloc: Global, store: &mut Store, input: &[u8]) -> Result<(), Failure>
    ensures taken { OnOk result ((d : Data) × (or_failure (data_by_input input.now) ≡ Ok d) × (store.new ≡ join_data store.old d)) }
    ensures fails { IfErr result (λ e. FailsInput e (or_failure (data_by_input input.now))) }
    ensures no_read_fault { IfErr result (λ e. e ≢ Failure.Read) }
    ensures no_write_fault { IfErr result (λ e. e ≢ Failure.Write) }
{
    if input.len() > INPUT_LIMIT {
        return Err(too_long());
    }
    take_stream(alloc, store, input)?;
    Ok(())
}

/// Returns a store that took the contributions in the streams, one stream after the other.
fn store_of_inputs(alloc: Global, inputs: &[Vec<u8>]) -> Result<Store, Failure>
    ensures gives { GivesInput (λ s. s) result (merged (map (λ input. input.items) inputs.now)) }
    ensures no_read_fault { IfErr result (λ e. e ≢ Failure.Read) }
    ensures no_write_fault { IfErr result (λ e. e ≢ Failure.Write) }
{
    let mut all = Store::new(alloc);
    let mut number = 0;
    for input in inputs {
        number += 1;
        if let Err(failure) = take_input(alloc, &mut all, input) {
            return Err(failure_in(number, failure));
        }
    }
    Ok(all)
}

/// Does what `merge_streams` does, for streams that are in memory.
pub fn merge_inputs<W: Write>(
    alloc: Global,
    inputs: &[Vec<u8>],
    writer: &mut WatchedWriter<W>,
) -> Result<(), Failure>
    ensures merges { Dumps (W.contents writer.old.writer) (W.contents writer.new.writer) result
        (merge_of (map (λ input. input.items) inputs.now)) }
    ensures write_fault { IfErr result (λ e. e ≡ Failure.Write → IsSome writer.new.failure) }
    ensures no_read_fault { IfErr result (λ e. e ≢ Failure.Read) }
{
    if inputs.len() > MAX_STREAMS {
        return Err(Failure::Refused(Refusal::TooMany));
    }
    let store = store_of_inputs(alloc, inputs)?;
    store.dump(writer)
}

/// Reads several streams of frames to their ends, and then writes the dump of the join of their contributions. The dump does not depend on
/// the order of the streams, nor on the order of the contributions in them. It equals the dump of the concatenated streams.
///
/// Errors: `TooMany` if there are more than 64 streams; then no stream is read. `BadFrame` with the first fault of the first stream that
/// has one, and the stream's number, counted from 1. A read fault for any error of a reader. Nothing is written before all streams were
/// read without a fault. If the writer fails, a prefix of the dump was written. Each reader is read at most 67,108,865 times.
pub fn merge_streams<R: Read, W: Write>(
    alloc: Global,
    readers: &mut [WatchedReader<R>],
    writer: &mut WatchedWriter<W>,
) -> Result<(), Failure>
    ensures merges { (streams : List (List ℕ)) → map
        (λ r. R.remaining r.reader) readers.old ≡ map Some streams
        → Dumps (W.contents writer.old.writer) (W.contents writer.new.writer)
        result (merge_of streams) }
    ensures any_order { (streams others : List (List ℕ)) → map
        (λ r. R.remaining r.reader) readers.old ≡ map Some streams
        → SameItems streams others → length others ≤ MAX_STREAMS
        → OnOk result (WritesDue (W.contents writer.old.writer) (W.contents writer.new.writer) (merge_of others)) }
    ensures read_fault { IfErr result (λ e. e ≡ Failure.Read → AnyFailed readers.new) }
    ensures failed { AnyFailed readers.new → AnyFailed readers.old ⊎ (result ≡ Err Failure.Read) }
    ensures write_fault { IfErr result (λ e. e ≡ Failure.Write → IsSome writer.new.failure) }
    ensures few { ReadFewTimes readers.old readers.new }
    ensures many { MAX_STREAMS < length readers.old
        → (result ≡ Err too_many) × (readers.new ≡ readers.old) × (writer.new ≡ writer.old) }
{
    if readers.len() > MAX_STREAMS {
        return Err(Failure::Refused(Refusal::TooMany));
    }
    let store = store_of_streams(alloc, readers)?;
    store.dump(writer)
}
