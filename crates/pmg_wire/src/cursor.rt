ghost use Rattle.std.specs.Prelude.{◌≡◌, ◌+◌, ◌<◌, ◌≤◌, ◌^◌, length, IfOk, OnErr};
ghost use Rattle.std.specs.Int.{w16, w32, w64};
ghost use Rattle.pmg_wire.specs.Reading.{Place, IsBytes, Reads, past, front, read_bytes, byte_at, number_at};

use pmg_value::{Cause, Refusal};
use std::marker::Model;

/// A position in bytes that are read from left to right: the offset in the whole, and the bytes left.
#[derive(Drop)]
pub struct Cursor<'a> {
    offset: u64,
    bytes: &'a [u8],
}

impl<'a> Model for Cursor<'a> {
    ghost use Rattle.std.specs.Prelude.{◌+◌, ◌<◌, ◌^◌, length};
    ghost use Rattle.pmg_wire.specs.Reading.{Place, IsBytes};

    ghost Value = { Place };

    ghost view = { λ a. record { offset = a.offset; rest = a.bytes.now } };

    ghost invariant = { λ a. (a.offset + length a.bytes.now < 2 ^ 64) × IsBytes a.bytes.now };
}

impl<'a> Cursor<'a> {
    /// Begins to read these bytes; the first byte has that offset in the whole.
    pub fn new(offset: u64, bytes: &'a [u8]) -> Cursor<'a>
        requires { offset + length bytes.now < 2 ^ 64 }
        ensures { result ≡ record { offset = offset; rest = bytes.now } }
    {
        Cursor { offset, bytes }
    }

    /// Begins to read these bytes at offset 0.
    pub fn of(bytes: &'a [u8]) -> Cursor<'a>
        ensures { result ≡ record { offset = 0; rest = bytes.now } }
    {
        Cursor::new(0, bytes)
    }

    /// Returns the offset of the next byte.
    pub fn offset(&self) -> u64
        ensures value { result ≡ self.now.offset }
        ensures fits { self.now.offset + length self.now.rest < 2 ^ 64 }
        ensures bytes { IsBytes self.now.rest }
    {
        self.offset
    }

    /// Returns the bytes that are left.
    pub fn rest(&self) -> &'a [u8]
        ensures { result.now ≡ self.now.rest }
    {
        self.bytes
    }

    /// Returns a second cursor at this position.
    pub fn fork(&self) -> Cursor<'a>
        ensures place { result ≡ self.now }
        ensures bytes { IsBytes self.now.rest }
    {
        Cursor {
            offset: self.offset,
            bytes: self.bytes,
        }
    }

    /// Returns a second cursor, over only the next so many bytes.
    pub fn window(&self, count: usize) -> Cursor<'a>
        requires { count ≤ length self.now.rest }
        ensures { result ≡ front count self.now }
    {
        Cursor {
            offset: self.offset,
            bytes: &self.bytes[..count],
        }
    }

    /// Passes over the next so many bytes.
    pub fn skip(&mut self, count: usize)
        requires { count ≤ length self.old.rest }
        ensures { self.new ≡ past self.old count }
    {
        self.offset += count as u64;
        self.bytes = &self.bytes[count..];
    }

    /// Takes the next so many bytes. Errors: `Short` at the cursor's offset if fewer are left.
    #[tactic(auto, unfolding(crate::specs::Reading::read_bytes))]
    pub fn take(&mut self, count: usize) -> Result<&'a [u8], Refusal>
        ensures read { Reads (λ s. s.now) result self.new (read_bytes count self.old) }
        ensures len { IfOk result (λ s. length s.now ≡ count) }
        ensures err { OnErr result (self.new ≡ self.old) }
    {
        if self.bytes.len() < count {
            return Err(Refusal::bad_frame(self.offset, Cause::Short));
        }
        let (front, rest) = self.bytes.split_at(count);
        self.offset += count as u64;
        self.bytes = rest;
        Ok(front)
    }

    /// Takes the next byte. Errors: `Short` at the cursor's offset.
    pub fn get_u8(&mut self) -> Result<u8, Refusal>
        ensures read { Reads (λ n. n) result self.new (byte_at self.old) }
        ensures err { OnErr result (self.new ≡ self.old) }
    {
        let bytes = self.take(1)?;
        Ok(bytes[0])
    }

    /// Takes the next big-endian number of two bytes. Errors: `Short` at the cursor's offset.
    pub fn get_u16(&mut self) -> Result<u16, Refusal>
        ensures read { Reads (λ n. n) result self.new (number_at w16 self.old) }
        ensures err { OnErr result (self.new ≡ self.old) }
    {
        let bytes = self.take(2)?;
        Ok(u16::from_be_bytes([bytes[0], bytes[1]]))
    }

    /// Takes the next big-endian number of four bytes. Errors: `Short` at the cursor's offset.
    pub fn get_u32(&mut self) -> Result<u32, Refusal>
        ensures read { Reads (λ n. n) result self.new (number_at w32 self.old) }
        ensures err { OnErr result (self.new ≡ self.old) }
    {
        let bytes = self.take(4)?;
        Ok(u32::from_be_bytes([bytes[0], bytes[1], bytes[2], bytes[3]]))
    }

    /// Takes the next big-endian number of eight bytes. Errors: `Short` at the cursor's offset.
    pub fn get_u64(&mut self) -> Result<u64, Refusal>
        ensures read { Reads (λ n. n) result self.new (number_at w64 self.old) }
        ensures err { OnErr result (self.new ≡ self.old) }
    {
        let bytes = self.take(8)?;
        Ok(u64::from_be_bytes([
            bytes[0], bytes[1], bytes[2], bytes[3], bytes[4], bytes[5], bytes[6], bytes[7],
        ]))
    }
}
