ghost use Rattle.std.specs.Prelude.{◌≡◌, ◌<◌, length, IsTrue, IfOk, IfSome, if◌then◌else◌};
ghost use Rattle.std.specs.List.{position};
ghost use Rattle.pmg_value.specs.Answers.{Gives};
ghost use Rattle.pmg_value.specs.Blobs.{is_zero, is_text, is_blob};
ghost use Rattle.pmg_value.specs.declared.refusal.Refusal.TheVariants as refusals;

use crate::refusal::Refusal;
use crate::small_bytes::SmallBytes;
use crate::within::all_within;
use std::alloc::{AllocError, Global};
use std::marker::Model;

/// The greatest length of a string or a byte object: with its tag and its length it is as long as a value
/// may be.
pub const MAX_BLOB_LEN: usize = 1_048_571;

/// A string's bytes: at most 1,048,571, and no zero byte. At most 22 bytes take no memory, and copies of more bytes share them.
#[derive(PartialEq, Eq)]
pub struct Text {
    bytes: SmallBytes,
}

impl Drop for Text {
    fn drop(self) {
        let Self { bytes } = self;
    }
}

impl Model for Text {
    ghost use Rattle.std.specs.Prelude.{ℕ, List, IsTrue};

    ghost Value = { List ℕ };

    ghost use Rattle.pmg_value.specs.Blobs.{is_text};

    ghost view = { λ a. a.bytes };

    ghost invariant = { λ a. IsTrue (is_text a.bytes) };

    ghost inverse = { λ v. record { bytes = v } };
}

/// A byte object's bytes: at most 1,048,571. At most 22 bytes take no memory, and copies of more bytes share them.
pub struct Octets {
    bytes: SmallBytes,
}

impl Drop for Octets {
    fn drop(self) {
        let Self { bytes } = self;
    }
}

impl Model for Octets {
    ghost use Rattle.std.specs.Prelude.{ℕ, List, IsTrue};

    ghost Value = { List ℕ };

    ghost use Rattle.pmg_value.specs.Blobs.{is_blob};

    ghost view = { λ a. a.bytes };

    ghost invariant = { λ a. IsTrue (is_blob a.bytes) };

    ghost inverse = { λ v. record { bytes = v } };
}

/// Returns the index of the first zero byte.
pub fn first_zero(bytes: &[u8]) -> Option<usize>
    ensures value { result ≡ position is_zero bytes.now }
    ensures bound { IfSome result (λ i. i < length bytes.now) }
{
    if all_within(1, u8::MAX, bytes) {
        return None;
    }
    bytes.iter().position(|b| *b == 0)
}

/// Returns whether the bytes are a string's: at most 1,048,571, and no zero byte.
pub fn is_string_text(bytes: &[u8]) -> bool
    ensures { result ≡ is_text bytes.now }
{
    first_zero(bytes).is_none() && bytes.len() <= MAX_BLOB_LEN
}

impl Text {
    /// Returns a string of these bytes. Errors: `BadParam` for a zero byte or more than 1,048,571 bytes; `NoMemory`.
    pub fn read(alloc: Global, bytes: &[u8]) -> Result<Text, Refusal>
        ensures { Gives (λ t. t) result (if is_text bytes.now then Ok bytes.now else Err refusals.BadParam) }
    {
        if !is_string_text(bytes) {
            return Err(Refusal::BadParam);
        }
        Ok(Text::from_text(alloc, bytes)?)
    }

    /// Returns a string of these bytes, which were tested already.
    pub fn from_text(alloc: Global, bytes: &[u8]) -> Result<Text, AllocError>
        requires { IsTrue (is_text bytes.now) }
        ensures { IfOk result (λ t. t ≡ bytes.now) }
    {
        Ok(Text {
            bytes: SmallBytes::of(alloc, bytes)?,
        })
    }

    /// Returns the bytes.
    pub fn as_bytes(&self) -> &[u8]
        ensures value { result.now ≡ self.now }
        ensures text { IsTrue (is_text result.now) }
    {
        self.bytes.as_bytes()
    }

    /// Returns another handle of the same bytes.
    pub fn copy(&self) -> Result<Text, AllocError>
        ensures { IfOk result (λ t. t ≡ self.now) }
    {
        Ok(Text {
            bytes: self.bytes.copy()?,
        })
    }
}

impl Octets {
    /// Returns a byte object of these bytes. Errors: `BadParam` for more than 1,048,571 bytes; `NoMemory`.
    pub fn read(alloc: Global, bytes: &[u8]) -> Result<Octets, Refusal>
        ensures { Gives (λ o. o) result (if is_blob bytes.now then Ok bytes.now else Err refusals.BadParam) }
    {
        if bytes.len() > MAX_BLOB_LEN {
            return Err(Refusal::BadParam);
        }
        Ok(Octets::from_bytes(alloc, bytes)?)
    }

    /// Returns a byte object of these bytes, which were tested already.
    pub fn from_bytes(alloc: Global, bytes: &[u8]) -> Result<Octets, AllocError>
        requires { IsTrue (is_blob bytes.now) }
        ensures { IfOk result (λ o. o ≡ bytes.now) }
    {
        Ok(Octets {
            bytes: SmallBytes::of(alloc, bytes)?,
        })
    }

    /// Returns the bytes.
    pub fn as_bytes(&self) -> &[u8]
        ensures value { result.now ≡ self.now }
        ensures blob { IsTrue (is_blob result.now) }
    {
        self.bytes.as_bytes()
    }

    /// Returns another handle of the same bytes.
    pub fn copy(&self) -> Result<Octets, AllocError>
        ensures { IfOk result (λ o. o ≡ self.now) }
    {
        Ok(Octets {
            bytes: self.bytes.copy()?,
        })
    }
}
