//! Bytes that are in place if they are few, and else shared.
ghost use Rattle.std.specs.Prelude.{◌≡◌, ◌≤◌, get_or, length, nat_eq, IfOk};
ghost use Rattle.std.specs.Cmp.{partial_equiv_from_equiv};
ghost use Rattle.std.specs.Cmp.Lexicographic.{pointwise, nat_list_eq_equiv};
ghost use Rattle.pmg_value.specs.Words.{first_eight, second_eight};

use std::alloc::{AllocError, Global};
use std::marker::Model;
use std::sync::Arc;

/// The most bytes that are in place.
pub(crate) const MAX_IN_PLACE: usize = 22;

/// The number of bytes that are read as one number.
const EIGHT: usize = 8;

/// At most 22 bytes in place, with zeros after them.
#[derive(Drop)]
struct InPlace {
    len: u8,
    bytes: [u8; MAX_IN_PLACE],
}

impl Model for InPlace {
    ghost use Rattle.std.specs.Prelude.{◌≡◌, ◌≤◌, ℕ, List, get_or, take};
    ghost use Rattle.pmg_value.specs.declared.small_bytes.TheConstants.{MAX_IN_PLACE};

    ghost Value = { List ℕ };

    ghost view = { λ a. take a.len a.bytes };

    ghost invariant = { λ a. (a.len ≤ MAX_IN_PLACE) × ((i : ℕ) → a.len ≤ i → get_or a.bytes i 0 ≡ 0) };
}

impl InPlace {
    /// Keeps these bytes.
    #[inline(always)]
    fn of(bytes: &[u8]) -> InPlace
        requires { length bytes.now ≤ MAX_IN_PLACE }
        ensures { result ≡ bytes.now }
    {
        let mut places = [0; MAX_IN_PLACE];
        places[..bytes.len()].copy_from_slice(bytes);
        InPlace {
            len: bytes.len() as u8,
            bytes: places,
        }
    }

    /// Returns the bytes.
    fn as_bytes(&self) -> &[u8]
        ensures { result.now ≡ self.now }
    {
        &self.bytes[..self.len as usize]
    }

    /// Returns the first eight bytes as a number, with zeros for missing bytes.
    fn first_eight(&self) -> u64
        ensures { result ≡ first_eight self.now }
    {
        let at = &self.bytes;
        u64::from_be_bytes([at[0], at[1], at[2], at[3], at[4], at[5], at[6], at[7]])
    }

    /// Returns the eight bytes after the first eight as a number, with zeros for missing bytes.
    fn second_eight(&self) -> u64
        ensures { result ≡ second_eight self.now }
    {
        let at = &self.bytes;
        u64::from_be_bytes([at[8], at[9], at[10], at[11], at[12], at[13], at[14], at[15]])
    }

    /// Returns a copy.
    fn copy(&self) -> InPlace
        ensures { result ≡ self.now }
    {
        InPlace {
            len: self.len,
            bytes: self.bytes,
        }
    }
}

/// The storage of bytes.
enum Place {
    /// In place.
    Here(InPlace),
    /// In a block that all copies share.
    Shared(Arc<Vec<u8>>),
}

impl Drop for Place {
    fn drop(self) {
        match self {
            Place::Here(_) => {}
            Place::Shared(_) => {}
        }
    }
}

/// Bytes that do not change. At most 22 bytes take no memory, and copies of more bytes share them.
pub(crate) struct SmallBytes {
    place: Place,
}

impl Drop for SmallBytes {
    fn drop(self) {
        let Self { place } = self;
    }
}

impl Model for SmallBytes {
    ghost use Rattle.std.specs.Prelude.{ℕ, List};
    ghost use Rattle.pmg_value.specs.SmallBytes.{bytes_at};

    ghost Value = { List ℕ };

    ghost view = { λ a. bytes_at a.place };
}

impl SmallBytes {
    /// Keeps these bytes.
    pub fn of(alloc: Global, bytes: &[u8]) -> Result<SmallBytes, AllocError>
        ensures { IfOk result (λ s. s ≡ bytes.now) }
    {
        if bytes.len() <= MAX_IN_PLACE {
            return Ok(SmallBytes::few(bytes));
        }
        let mut shared = Vec::with_capacity(alloc, bytes.len())?;
        shared.extend_from_slice(bytes)?;
        Ok(SmallBytes {
            place: Place::Shared(Arc::new(alloc, shared)?),
        })
    }

    /// Keeps these bytes, which are few.
    #[inline(always)]
    pub fn few(bytes: &[u8]) -> SmallBytes
        requires { length bytes.now ≤ MAX_IN_PLACE }
        ensures { result ≡ bytes.now }
    {
        SmallBytes {
            place: Place::Here(InPlace::of(bytes)),
        }
    }

    /// Returns the bytes.
    pub fn as_bytes(&self) -> &[u8]
        ensures { result.now ≡ self.now }
    {
        match &self.place {
            Place::Here(bytes) => bytes.as_bytes(),
            Place::Shared(bytes) => bytes.as_slice(),
        }
    }

    /// Returns the first eight bytes as a number, with zeros for missing bytes.
    #[inline(always)]
    pub fn first_eight(&self) -> u64
        ensures { result ≡ first_eight self.now }
    {
        match &self.place {
            Place::Here(bytes) => bytes.first_eight(),
            Place::Shared(bytes) => front_of(bytes),
        }
    }

    /// Returns the eight bytes after the first eight as a number, with zeros for missing bytes.
    #[inline(always)]
    pub fn second_eight(&self) -> u64
        ensures { result ≡ second_eight self.now }
    {
        match &self.place {
            Place::Here(bytes) => bytes.second_eight(),
            Place::Shared(bytes) => second_of(bytes),
        }
    }

    /// Returns a copy.
    pub fn copy(&self) -> Result<SmallBytes, AllocError>
        ensures { IfOk result (λ s. s ≡ self.now) }
    {
        let place = match &self.place {
            Place::Here(bytes) => Place::Here(bytes.copy()),
            Place::Shared(bytes) => Place::Shared(Arc::try_clone(bytes)?),
        };
        Ok(SmallBytes { place })
    }
}

impl PartialEq for SmallBytes {
    ghost eq = { pointwise nat_eq };

    ghost laws = { partial_equiv_from_equiv nat_list_eq_equiv };

    fn eq(&self, other: &SmallBytes) -> bool {
        self.as_bytes() == other.as_bytes()
    }
}

impl Eq for SmallBytes {
    ghost laws = { nat_list_eq_equiv };
}

/// Returns the byte at the index, or 0 past the end.
fn byte_at(bytes: &[u8], index: usize) -> u64
    ensures value { result ≡ get_or bytes.now index 0 }
    ensures bound { result ≤ 255 }
{
    match bytes.get(index) {
        Some(byte) => u64::from(*byte),
        None => 0,
    }
}

/// Returns the first eight bytes as a number, with zeros for missing bytes.
pub(crate) fn front_of(bytes: &[u8]) -> u64
    ensures { result ≡ first_eight bytes.now }
{
    if bytes.len() >= EIGHT {
        return u64::from_be_bytes([
            bytes[0], bytes[1], bytes[2], bytes[3], bytes[4], bytes[5], bytes[6], bytes[7],
        ]);
    }
    let first = byte_at(bytes, 0) * 256 + byte_at(bytes, 1);
    let second = byte_at(bytes, 2) * 256 + byte_at(bytes, 3);
    let third = byte_at(bytes, 4) * 256 + byte_at(bytes, 5);
    let fourth = byte_at(bytes, 6) * 256 + byte_at(bytes, 7);
    ((first * 65_536 + second) * 65_536 + third) * 65_536 + fourth
}

/// Returns the eight bytes after the first eight as a number, with zeros for missing bytes.
pub(crate) fn second_of(bytes: &[u8]) -> u64
    ensures { result ≡ second_eight bytes.now }
{
    if bytes.len() <= EIGHT {
        return 0;
    }
    front_of(&bytes[EIGHT..])
}
