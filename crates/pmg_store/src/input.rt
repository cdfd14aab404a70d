//! Whole input, up to a limit.
ghost use Rattle.std.specs.Prelude.{◌≡◌, ◌≢◌, ◌<◌, ◌≤◌, ◌+◌, ◌-◌, ◌^◌, min, ◌⊎◌, IfErr, IfOk, IfSome, IsNone, IsSome, OnErr, OnOk, OnSome, is_some, length, take};
ghost use Rattle.std.specs.Option.{option_copied};
ghost use Rattle.std.specs.Io.{ReadsAtMost, StartsWith, StopsAt, appended_bytes};
ghost use Rattle.std.specs.Io.KnownBytes.{Consumes, IsAtEnd, ReadConsumes};
ghost use Rattle.pmg_store.specs.Input.{input_of, too_much_input};
ghost use Rattle.pmg_store.specs.Outcomes.{GivesInput, or_failure};

use crate::failure::Failure;
use memchr::memchr;
use pmg_value::{Cause, Fault, Refusal};
use std::alloc::Global;
use std::io;
use std::io::{BufRead, Read};
use thiserror::Error;

/// The most bytes of input that are read: 64 MiB.
pub const INPUT_LIMIT: usize = 67_108_864;

/// The most reads that reading input takes: one for each byte, and one that distinguishes the end from a byte too many.
pub const MOST_READS: usize = INPUT_LIMIT + 1;

const CHUNK_LEN: usize = 65_536;

/// The failure of a reader; its `WatchedReader` has the cause.
#[derive(Clone, Copy, Debug, PartialEq, Eq, Error)]
#[error("read fault")]
pub struct ReadFault;

/// A reader that remembers whether it failed, and counts its reads.
#[derive(Drop)]
pub struct WatchedReader<R> {
    reader: R,
    reads: usize,
    failure: Option<io::Error>,
}

impl<R: Read> WatchedReader<R> {
    /// Makes a watched reader without reads.
    pub fn new(reader: R) -> WatchedReader<R>
        ensures reader { result.reader ≡ reader }
        ensures reads { result.reads ≡ 0 }
        ensures failure { IsNone result.failure }
    {
        WatchedReader {
            reader,
            reads: 0,
            failure: None,
        }
    }

    /// Returns the number of reads.
    pub fn reads(&self) -> usize
        ensures { result ≡ self.now.reads }
    {
        self.reads
    }

    /// Returns whether the reader has failed.
    pub fn has_failed(&self) -> bool
        ensures { result ≡ is_some self.now.failure }
    {
        self.failure.is_some()
    }

    /// Returns the cause of the reader's failure, if it has failed.
    pub fn failure(&self) -> Option<&io::Error>
        ensures { option_copied result ≡ self.now.failure }
    {
        self.failure.as_ref()
    }

    /// Reads once.
    pub fn read(&mut self, chunk: &mut [u8]) -> Result<usize, ReadFault>
        ensures counted { self.new.reads ≡ min (self.old.reads + 1) (2 ^ 64 - 1) }
        ensures bound { ReadsAtMost result chunk.new }
        ensures bytes { ReadConsumes (R.remaining self.old.reader) (R.remaining self.new.reader)
            result chunk.new }
        ensures failed { OnErr result (IsSome self.new.failure) }
        ensures ok { OnOk result (self.new.failure ≡ self.old.failure) }
    {
        self.reads = self.reads.saturating_add(1);
        match self.reader.read(chunk) {
            Ok(count) => Ok(count),
            Err(error) => {
                self.failure = Some(error);
                Err(ReadFault)
            }
        }
    }
}

impl<R: BufRead> WatchedReader<R> {
    /// Reads once, only from the bytes that the reader shows. Appends its bytes up to and including the first such byte to the list, at
    /// most so many, and returns their number; 0 at the end. Later bytes stay in the reader.
    pub fn read_through(
        &mut self,
        byte: u8,
        most: usize,
        list: &mut Vec<u8>,
    ) -> Result<usize, Failure>
        requires some { 0 < most }
        ensures counted { self.new.reads ≡ min (self.old.reads + 1) (2 ^ 64 - 1) }
        ensures appends { StartsWith list.new.items list.old.items }
        ensures bytes { Consumes (R.remaining self.old.reader) (R.remaining self.new.reader)
            (appended_bytes list.old.items list.new.items) }
        ensures stops { StopsAt (appended_bytes list.old.items list.new.items) byte }
        ensures count { IfOk result (λ n. length list.new.items ≡ length list.old.items + n) }
        ensures most { IfOk result (λ n. n ≤ most) }
        ensures end { result ≡ Ok 0 → OnSome (R.remaining self.old.reader) (IsAtEnd (R.remaining self.new.reader)) }
        ensures none { IfErr result (λ e. list.new.items ≡ list.old.items) }
        ensures cause { IfErr result (λ e. (e ≡ Failure.Read) ⊎ (e ≡ Failure.Refused Refusal.NoMemory)) }
        ensures read_fault { IfErr result (λ e. e ≡ Failure.Read → IsSome self.new.failure) }
        ensures failed { (result ≡ Err Failure.Read) ⊎ (self.new.failure ≡ self.old.failure) }
    {
        self.reads = self.reads.saturating_add(1);
        let shown = match self.reader.fill_buf() {
            Ok(shown) => shown,
            Err(error) => {
                self.failure = Some(error);
                return Err(Failure::Read);
            }
        };
        let count = len_through(shown, byte).min(most);
        list.extend_from_slice(&shown[..count])?;
        self.reader.consume(count);
        Ok(count)
    }
}

/// Returns the number of bytes up to and including the first such byte, or of all bytes.
fn len_through(bytes: &[u8], byte: u8) -> usize
    ensures within { result ≤ length bytes.now }
    ensures some { 0 < length bytes.now → 0 < result }
    ensures before { StopsAt (take result bytes.now) byte }
{
    match memchr(byte, bytes) {
        Some(at) => at + 1,
        None => bytes.len(),
    }
}

/// Reads to the end, and returns the bytes. It makes no room for bytes before they have been read.
///
/// Errors: `BadFrame` with the cause Input at the limit if there are more than `INPUT_LIMIT` bytes. A read fault for any error of the
/// reader, also an interrupted read. The reader is read at most 67,108,865 times.
pub fn read_input<R: Read>(alloc: Global, reader: &mut WatchedReader<R>) -> Result<Vec<u8>, Failure>
    ensures input { IfSome (R.remaining reader.old.reader)
        (λ bytes. GivesInput (λ input. input.items) result (or_failure (input_of bytes))) }
    ensures read_fault { IfErr result (λ e. e ≡ Failure.Read → IsSome reader.new.failure) }
    ensures no_write_fault { IfErr result (λ e. e ≢ Failure.Write) }
    ensures failed { IsSome reader.new.failure → IsSome reader.old.failure ⊎ (result
        ≡ Err Failure.Read) }
    ensures few { reader.new.reads ≤ reader.old.reads + MOST_READS }
{
    let mut chunk = vec![in alloc; 0; CHUNK_LEN]?;
    read_by_chunks(alloc, reader, &mut chunk)
}

fn read_by_chunks<R: Read>(
    alloc: Global,
    reader: &mut WatchedReader<R>,
    chunk: &mut [u8],
) -> Result<Vec<u8>, Failure>
    requires { 0 < length chunk.old }
    ensures input { IfSome (R.remaining reader.old.reader)
        (λ bytes. GivesInput (λ input. input.items) result (or_failure (input_of bytes))) }
    ensures read_fault { IfErr result (λ e. e ≡ Failure.Read → IsSome reader.new.failure) }
    ensures no_write_fault { IfErr result (λ e. e ≢ Failure.Write) }
    ensures failed { IsSome reader.new.failure → IsSome reader.old.failure ⊎ (result
        ≡ Err Failure.Read) }
    ensures few { reader.new.reads ≤ reader.old.reads + MOST_READS }
{
    let mut input = Vec::new(alloc);
    for _ in 0..MOST_READS {
        let count = reader.read(chunk)?;
        if count == 0 {
            return Ok(input);
        }
        if count > INPUT_LIMIT - input.len() {
            return Err(too_long());
        }
        input.extend_from_slice(&chunk[..count])?;
    }
    unreachable!()
}

/// Returns the refusal of input over the limit.
pub fn too_long() -> Failure
    ensures { result ≡ Failure.Refused (Refusal.BadFrame too_much_input) }
{
    Failure::Refused(Refusal::BadFrame(Fault {
        offset: INPUT_LIMIT as u64,
        cause: Cause::Input,
    }))
}
