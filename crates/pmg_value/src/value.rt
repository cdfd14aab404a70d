ghost use Rattle.std.specs.Prelude.{◌≡◌, ◌<◌, ◌≤◌, length, map, IfOk, if◌then◌else◌};
ghost use Rattle.pmg_value.specs.Items.{number_value, number_width};
ghost use Rattle.pmg_value.specs.Spelling.{spelling, tag_of, elements, makes_array};
ghost use Rattle.pmg_value.specs.Blobs.{is_text, is_blob};
ghost use Rattle.pmg_value.specs.Answers.{Gives};
ghost use Rattle.pmg_value.specs.declared.value.Value.TheVariants as values;
ghost use Rattle.pmg_value.specs.declared.refusal.Refusal.TheVariants as refusals;

use crate::array::Array;
use crate::blobs::{Octets, Text};
use crate::process::{Proc, Rank};
use crate::refusal::Refusal;
use std::alloc::{AllocError, Global};

/// The greatest size of a value, in canonical bytes.
pub const MAX_VALUE_SIZE: usize = 1_048_576;

/// A value that a process puts under a key (PMIx Standard 5.0, pmix_value_t). Each value has exactly one encoding, its canonical bytes: a
/// tag, and a body of the tag's form.
#[cycle(value)]
pub enum Value {
    /// PMIX_BOOL.
    Bool(bool),
    /// PMIX_BYTE.
    Byte(u8),
    /// PMIX_STRING.
    Str(Text),
    /// PMIX_SIZE.
    Size(u64),
    /// PMIX_INT8.
    I8(i8),
    /// PMIX_INT16.
    I16(i16),
    /// PMIX_INT32.
    I32(i32),
    /// PMIX_INT64.
    I64(i64),
    /// PMIX_UINT8.
    U8(u8),
    /// PMIX_UINT16.
    U16(u16),
    /// PMIX_UINT32.
    U32(u32),
    /// PMIX_UINT64.
    U64(u64),
    /// PMIX_INT.
    Int(i32),
    /// PMIX_UINT.
    Uint(u32),
    /// PMIX_PROC_RANK.
    Rank(Rank),
    /// PMIX_PROC.
    Proc(Proc),
    /// PMIX_STATUS.
    Status(i32),
    /// PMIX_BYTE_OBJECT.
    Bytes(Octets),
    /// PMIX_DATA_ARRAY.
    Array(Array),
}

impl Drop for Value {
    #[cycle(drop)]
    fn drop(self) {
        match self {
            Value::Bool(_) => {}
            Value::Byte(_) => {}
            Value::Str(_) => {}
            Value::Size(_) => {}
            Value::I8(_) => {}
            Value::I16(_) => {}
            Value::I32(_) => {}
            Value::I64(_) => {}
            Value::U8(_) => {}
            Value::U16(_) => {}
            Value::U32(_) => {}
            Value::U64(_) => {}
            Value::Int(_) => {}
            Value::Uint(_) => {}
            Value::Rank(_) => {}
            Value::Proc(_) => {}
            Value::Status(_) => {}
            Value::Bytes(_) => {}
            Value::Array(array) => {}
        }
    }
}

impl Value {
    /// Returns the string of these bytes. Errors: `BadParam` for a zero byte, or if the value would be longer than 1,048,576 canonical
    /// bytes; `NoMemory`.
    pub fn string(alloc: Global, text: &[u8]) -> Result<Value, Refusal>
        ensures { Gives (λ v. v) result (if is_text text.now then Ok (values.Str text.now) else Err refusals.BadParam) }
    {
        Ok(Value::Str(Text::read(alloc, text)?))
    }

    /// Returns the byte object of these bytes. Errors: `BadParam` if the value would be longer than 1,048,576 canonical bytes; `NoMemory`.
    pub fn bytes(alloc: Global, bytes: &[u8]) -> Result<Value, Refusal>
        ensures { Gives (λ v. v) result (if is_blob bytes.now then Ok (values.Bytes bytes.now) else Err refusals.BadParam) }
    {
        Ok(Value::Bytes(Octets::read(alloc, bytes)?))
    }

    /// Returns the array of these items, whose kind has that tag. Errors: `BadParam` if the tag is the array's or of no kind, if an item is
    /// of another kind, or if the value would be longer than 1,048,576 canonical bytes.
    pub fn array(tag: u8, items: Vec<Value>) -> Result<Value, Refusal>
        ensures { result ≡ (if makes_array tag items.items then Ok (values.Array (elements tag items.items)) else Err refusals.BadParam) }
    {
        Ok(Value::Array(Array::new(tag, items)?))
    }

    /// Returns the array of these numbers, whose kind has that tag and is a kind of numbers. Errors: `BadParam` if the value would be
    /// longer than 1,048,576 canonical bytes.
    pub fn numbers(tag: u8, numbers: Vec<u64>) -> Result<Value, Refusal>
        requires { 0 < number_width tag }
        ensures { result ≡ (if makes_array tag (map (number_value tag) numbers.items) then Ok (values.Array (elements tag (map (number_value tag) numbers.items))) else Err refusals.BadParam) }
    {
        Ok(Value::Array(Array::of_numbers(tag, numbers)?))
    }

    /// Returns the tag, the first of the canonical bytes.
    pub fn tag(&self) -> u8
        ensures { result ≡ tag_of self.now }
    {
        match self {
            Value::Bool(_) => 1,
            Value::Byte(_) => 2,
            Value::Str(_) => 3,
            Value::Size(_) => 4,
            Value::I8(_) => 5,
            Value::I16(_) => 6,
            Value::I32(_) => 7,
            Value::I64(_) => 8,
            Value::U8(_) => 9,
            Value::U16(_) => 10,
            Value::U32(_) => 11,
            Value::U64(_) => 12,
            Value::Int(_) => 13,
            Value::Uint(_) => 14,
            Value::Rank(_) => 15,
            Value::Proc(_) => 16,
            Value::Status(_) => 17,
            Value::Bytes(_) => 18,
            Value::Array(_) => 19,
        }
    }

    /// Returns the number of the canonical bytes.
    pub fn size(&self) -> usize
        ensures value { result ≡ length (spelling self.now) }
        ensures bound { result ≤ MAX_VALUE_SIZE }
    {
        match self {
            Value::Bool(_) | Value::Byte(_) | Value::I8(_) | Value::U8(_) => 2,
            Value::I16(_) | Value::U16(_) => 3,
            Value::I32(_) | Value::U32(_) => 5,
            Value::Int(_) | Value::Uint(_) | Value::Rank(_) | Value::Status(_) => 5,
            Value::Size(_) | Value::I64(_) | Value::U64(_) => 9,
            Value::Str(text) => 5 + text.as_bytes().len(),
            Value::Proc(process) => 6 + process.nspace.as_bytes().len(),
            Value::Bytes(octets) => 5 + octets.as_bytes().len(),
            Value::Array(array) => array.size(),
        }
    }

    /// Returns a copy, equal to this value.
    #[cycle(copy)]
    pub fn copy(&self) -> Result<Value, AllocError>
        ensures { IfOk result (λ v. v ≡ self.now) }
    {
        Ok(match self {
            Value::Bool(b) => Value::Bool(*b),
            Value::Byte(n) => Value::Byte(*n),
            Value::Str(text) => Value::Str(text.copy()?),
            Value::Size(n) => Value::Size(*n),
            Value::I8(n) => Value::I8(*n),
            Value::I16(n) => Value::I16(*n),
            Value::I32(n) => Value::I32(*n),
            Value::I64(n) => Value::I64(*n),
            Value::U8(n) => Value::U8(*n),
            Value::U16(n) => Value::U16(*n),
            Value::U32(n) => Value::U32(*n),
            Value::U64(n) => Value::U64(*n),
            Value::Int(n) => Value::Int(*n),
            Value::Uint(n) => Value::Uint(*n),
            Value::Rank(rank) => Value::Rank(*rank),
            Value::Proc(process) => Value::Proc(process.copy()?),
            Value::Status(n) => Value::Status(*n),
            Value::Bytes(octets) => Value::Bytes(octets.copy()?),
            Value::Array(array) => Value::Array(array.copy()?),
        })
    }
}
