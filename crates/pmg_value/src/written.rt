//! Writes texts to any writer, without memory of its own.
//!
//! If a writer fails, it has taken a prefix of the text, in order, and nothing else.
ghost use Rattle.std.specs.Prelude.{◌≡◌, ◌<◌, ◌≤◌, ◌++◌, decimal, length, IfOk, OnOk, OnErr, IsSome, IsNone, IsTrue, is_some};
ghost use Rattle.std.specs.Fmt.{signed_decimal};
ghost use Rattle.std.specs.Option.{option_copied};
ghost use Rattle.std.specs.Io.KnownBytes.{Keeps, WriteAppends};
ghost use Rattle.pmg_value.specs.Written.{Writes};
ghost use Rattle.pmg_value.specs.Hex.{hex_text};
ghost use Rattle.pmg_value.specs.declared.written.TheConstants.{HEX_PIECE};

use arrayvec::ArrayVec;
use itoa::Buffer;
use std::alloc::AllocError;
use std::io;
use std::io::{ErrorKind, Write};
use thiserror::Error;

/// The number of bytes of short texts that are written at once.
const SHORT_LEN: usize = 32;

/// The number of bytes that are written in hexadecimal at once.
const HEX_PIECE: usize = 32;

/// The writer failed; its `WatchedWriter` has the reason.
#[derive(Clone, Copy, Debug, PartialEq, Eq, Error)]
#[error("write fault")]
pub struct WriteFault;

/// A writer that remembers whether it failed, and whether everything that it took was flushed. After a failure nothing more is written to
/// it.
#[derive(Drop)]
pub struct WatchedWriter<W> {
    writer: W,
    failure: Option<io::Error>,
    is_flushed: bool,
}

impl<W: Write> WatchedWriter<W> {
    /// Watches a writer that has not failed, and has taken nothing.
    pub fn new(writer: W) -> WatchedWriter<W>
        ensures writer { result.writer ≡ writer }
        ensures failure { IsNone result.failure }
        ensures flushed { IsTrue result.is_flushed }
    {
        WatchedWriter {
            writer,
            failure: None,
            is_flushed: true,
        }
    }

    /// Returns whether the writer has failed.
    pub fn has_failed(&self) -> bool
        ensures { result ≡ is_some self.now.failure }
    {
        self.failure.is_some()
    }

    /// Returns why the writer failed, if it has.
    pub fn failure(&self) -> Option<&io::Error>
        ensures { option_copied result ≡ self.now.failure }
    {
        self.failure.as_ref()
    }

    /// Returns the writer, with its content.
    pub fn into_inner(self) -> W
        ensures { result ≡ self.writer }
    {
        self.writer
    }

    /// Remembers why the writer failed.
    fn fail(&mut self, error: io::Error) -> WriteFault
        ensures failure { IsSome self.new.failure }
        ensures writer { self.new.writer ≡ self.old.writer }
    {
        self.failure = Some(error);
        WriteFault
    }

    /// Writes once, and returns how many bytes were taken: none if the write was interrupted. No other function writes.
    #[inline(always)]
    fn write(&mut self, text: &[u8]) -> Result<usize, WriteFault>
        ensures bound { IfOk result (λ taken. taken ≤ length text.now) }
        ensures bytes { WriteAppends (W.contents self.old.writer) (W.contents self.new.writer)
            result text.now }
        ensures failed { OnErr result (IsSome self.new.failure) }
        ensures ok { OnOk result (self.new.failure ≡ self.old.failure) }
    {
        match self.writer.write(text) {
            Ok(0) => Err(self.fail(io::Error::from(ErrorKind::WriteZero))),
            Ok(taken) => Ok(taken),
            Err(error) => {
                if error.kind() == ErrorKind::Interrupted {
                    return Ok(0);
                }
                Err(self.fail(error))
            }
        }
    }

    /// Writes all of `text`, and tries an interrupted write again.
    ///
    /// Errors: the writer's error; `WriteZero` if the writer takes nothing; `TimedOut` after 2^64 - 1 writes. If the writer has failed
    /// before, the call fails and writes nothing. A failed call has written a prefix of `text`.
    pub fn put_text(&mut self, text: &[u8]) -> Result<(), WriteFault>
        ensures text { Writes (W.contents self.old.writer) (W.contents self.new.writer)
            result text.now }
        ensures failed { OnErr result (IsSome self.new.failure) }
        ensures ok { OnOk result (IsNone self.new.failure) }
        ensures kept { IsSome self.old.failure → IsSome self.new.failure }
    {
        if self.has_failed() {
            return Err(WriteFault);
        }
        self.is_flushed = false;
        if text.is_empty() {
            return Ok(());
        }
        let taken = self.write(text)?;
        if taken == text.len() {
            return Ok(());
        }
        self.put_rest(&text[taken..])
    }

    /// Writes three texts one after another, at once if they are short.
    #[inline(always)]
    pub fn put_texts(&mut self, first: &[u8], second: &[u8], third: &[u8]) -> Result<(), WriteFault>
        ensures text { Writes (W.contents self.old.writer) (W.contents self.new.writer)
            result (first.now ++ (second.now ++ third.now)) }
        ensures failed { OnErr result (IsSome self.new.failure) }
    {
        let mut together: ArrayVec<u8, SHORT_LEN> = ArrayVec::new();
        if together.try_extend_from_slice(first).is_ok()
            && together.try_extend_from_slice(second).is_ok()
            && together.try_extend_from_slice(third).is_ok()
        {
            return self.put_text(together.as_slice());
        }
        self.put_each(first, second, third)
    }

    /// Writes three texts one after another.
    fn put_each(&mut self, first: &[u8], second: &[u8], third: &[u8]) -> Result<(), WriteFault>
        ensures text { Writes (W.contents self.old.writer) (W.contents self.new.writer)
            result (first.now ++ (second.now ++ third.now)) }
        ensures failed { OnErr result (IsSome self.new.failure) }
    {
        self.put_text(first)?;
        self.put_text(second)?;
        self.put_text(third)
    }

    /// Writes the rest of a text of which some was written, as `put_text` writes.
    #[cold]
    #[inline(never)]
    fn put_rest(&mut self, text: &[u8]) -> Result<(), WriteFault>
        requires { IsNone self.old.failure }
        ensures text { Writes (W.contents self.old.writer) (W.contents self.new.writer)
            result text.now }
        ensures failed { OnErr result (IsSome self.new.failure) }
        ensures ok { OnOk result (IsNone self.new.failure) }
    {
        let mut done = 0;
        for _ in 1..u64::MAX {
            if done == text.len() {
                return Ok(());
            }
            done += self.write(&text[done..])?;
        }
        Err(self.fail(io::Error::from(ErrorKind::TimedOut)))
    }

    /// Flushes the writer, unless it has failed.
    pub fn flush(&mut self)
        ensures bytes { Keeps (W.contents self.old.writer) (W.contents self.new.writer) }
        ensures flushed { IsNone self.new.failure → IsTrue self.new.is_flushed }
        ensures kept { IsSome self.old.failure → IsSome self.new.failure }
    {
        if self.has_failed() {
            return;
        }
        match self.writer.flush() {
            Ok(()) => self.is_flushed = true,
            Err(error) => {
                let _ = self.fail(error);
            }
        }
    }

    /// Writes `number` in decimal, as `put_text` writes.
    pub fn put_number(&mut self, number: u64) -> Result<(), WriteFault>
        ensures text { Writes (W.contents self.old.writer) (W.contents self.new.writer)
            result (decimal number) }
        ensures failed { OnErr result (IsSome self.new.failure) }
    {
        let mut buffer = Buffer::new();
        self.put_text(buffer.format(number).as_bytes())
    }

    /// Writes `number` in decimal between two texts, as `put_texts` writes.
    #[inline(always)]
    pub fn put_number_between(
        &mut self,
        before: &[u8],
        number: u64,
        after: &[u8],
    ) -> Result<(), WriteFault>
        ensures text { Writes (W.contents self.old.writer) (W.contents self.new.writer)
            result (before.now ++ (decimal number ++ after.now)) }
        ensures failed { OnErr result (IsSome self.new.failure) }
    {
        let mut buffer = Buffer::new();
        self.put_texts(before, buffer.format(number).as_bytes(), after)
    }

    /// Writes `integer` in decimal, with `-` before its digits if it is negative, as `put_text` writes.
    pub fn put_signed(&mut self, integer: i64) -> Result<(), WriteFault>
        ensures text { Writes (W.contents self.old.writer) (W.contents self.new.writer) result
            (signed_decimal integer) }
        ensures failed { OnErr result (IsSome self.new.failure) }
    {
        let mut buffer = Buffer::new();
        self.put_text(buffer.format(integer).as_bytes())
    }

    /// Writes bytes in lower hexadecimal, two digits a byte, as `put_text` writes.
    pub fn put_hex(&mut self, bytes: &[u8]) -> Result<(), WriteFault>
        ensures text { Writes (W.contents self.old.writer) (W.contents self.new.writer)
            result (hex_text bytes.now) }
        ensures failed { OnErr result (IsSome self.new.failure) }
    {
        let mut rest = bytes;
        while rest.len() > HEX_PIECE {
            let (piece, others) = rest.split_at(HEX_PIECE);
            self.put_hex_piece(piece)?;
            rest = others;
        }
        self.put_hex_piece(rest)
    }

    /// Writes a few bytes in lower hexadecimal, all at once.
    fn put_hex_piece(&mut self, bytes: &[u8]) -> Result<(), WriteFault>
        requires { length bytes.now ≤ HEX_PIECE }
        ensures text { Writes (W.contents self.old.writer) (W.contents self.new.writer)
            result (hex_text bytes.now) }
        ensures failed { OnErr result (IsSome self.new.failure) }
    {
        let mut room = [0; 2 * HEX_PIECE];
        let digits = &mut room[..2 * bytes.len()];
        let Ok(()) = hex::encode_to_slice(bytes, digits) else {
            unreachable!()
        };
        self.put_text(digits)
    }
}

/// Puts `number` in decimal at the end of a text in memory.
pub fn push_number(text: &mut Vec<u8>, number: u64) -> Result<(), AllocError>
    ensures { OnOk result (text.new.items ≡ text.old.items ++ decimal number) }
{
    let mut buffer = Buffer::new();
    text.extend_from_slice(buffer.format(number).as_bytes())
}
