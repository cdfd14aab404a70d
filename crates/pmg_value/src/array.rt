//! Arrays as values.
ghost use Rattle.std.specs.Prelude.{◌≡◌, ◌≤◌, ◌+◌, length, nat_le, ◌&&◌, true, false, IfOk, IfSome, IfNone, IsTrue, if◌then◌else◌};
ghost use Rattle.pmg_value.specs.Lists.{Each};
ghost use Rattle.pmg_value.specs.Elements.{IsArray, array_body};
ghost use Rattle.pmg_value.specs.Spelling.{HoldsArray, IsValue, body_of, elements, are_plain, makes_array};
ghost use Rattle.pmg_value.specs.declared.refusal.Refusal.TheVariants as refusals;

use crate::refusal::Refusal;
use crate::value::{MAX_VALUE_SIZE, Value};
use std::alloc::AllocError;
use std::marker::Model;

/// The greatest tag of a kind of array items.
const MAX_ELEMENT_TAG: u8 = 18;

/// An array of values of one kind, which is not the kind of arrays (PMIx Standard 5.0, pmix_data_array_t). As a value it is at most as long
/// as a value may be. Numbers may be kept as such, which takes less memory.
#[cycle(value)]
#[derive(Drop)]
pub struct Array {
    pub(crate) tag: u8,
    pub(crate) size: usize,
    pub(crate) list: ItemList,
}

/// The items of an array: values, or numbers of its kind.
#[cycle(value)]
pub(crate) enum ItemList {
    Values(Vec<Value>),
    Numbers(Vec<u64>),
}

impl Drop for ItemList {
    #[cycle(drop)]
    fn drop(self) {
        match self {
            ItemList::Values(values) => drop(values),
            ItemList::Numbers(numbers) => drop(numbers),
        }
    }
}

impl Model for Array {
    ghost use Rattle.pmg_value.specs.Elements.{Elements};

    ghost Value = { Elements };

    ghost use Rattle.pmg_value.specs.Items.{listed_values};
    ghost use Rattle.pmg_value.specs.Spelling.{elements, HoldsArray};

    ghost view = { λ a. elements a.tag (listed_values a.tag a.list) };

    ghost invariant = { λ a. HoldsArray a.tag a.size (listed_values a.tag a.list) };

    ghost size = { λ e. 1 };

    ghost use Rattle.pmg_value.specs.Nesting.{is_flat};
    ghost use Rattle.std.proofs.Common.{arith};

    ghost size_decreases = { λ a h. Prim.omega (arith, is_flat a.tag a.list h.plain) };
}

impl Array {
    /// Returns the array of these items, whose kind has that tag. Errors: `BadParam` if the tag is the array's or of no kind, if an item is
    /// of another kind, or if the array as a value would be longer than 1,048,576 canonical bytes.
    pub fn new(tag: u8, items: Vec<Value>) -> Result<Array, Refusal>
        ensures { result ≡ (if makes_array tag items.items then Ok (elements tag items.items) else Err refusals.BadParam) }
    {
        match size_of(tag, &items) {
            Some(size) => Ok(Array {
                tag,
                size,
                list: ItemList::Values(items),
            }),
            None => Err(Refusal::BadParam),
        }
    }

    /// Returns the tag of the items' kind.
    pub fn tag(&self) -> u8
        ensures { result ≡ self.now.tag }
    {
        self.tag
    }

    /// Returns the number of the canonical bytes of the array as a value.
    pub fn size(&self) -> usize
        ensures value { result ≡ 1 + length (array_body self.now) }
        ensures bound { result ≤ MAX_VALUE_SIZE }
    {
        self.size
    }

    /// Returns a copy, equal to this array.
    #[cycle(copy)]
    pub fn copy(&self) -> Result<Array, AllocError>
        ensures { IfOk result (λ a. a ≡ self.now) }
    {
        let list = match &self.list {
            ItemList::Values(values) => ItemList::Values(copy_values(values)?),
            ItemList::Numbers(numbers) => ItemList::Numbers(copy_numbers(numbers)?),
        };
        Ok(Array {
            tag: self.tag,
            size: self.size,
            list,
        })
    }
}

// Copies the values.
#[cycle(copy)]
fn copy_values(values: &Vec<Value>) -> Result<Vec<Value>, AllocError>
    requires { IsTrue (are_plain values.now.items) }
    ensures { IfOk result (λ copies. copies.items ≡ values.now.items) }
{
    let mut copies = Vec::with_capacity(*values.allocator(), values.len())?;
    for value in values {
        copies.push(value.copy()?)?;
    }
    Ok(copies)
}

// Copies the numbers.
fn copy_numbers(numbers: &Vec<u64>) -> Result<Vec<u64>, AllocError>
    ensures { IfOk result (λ copies. copies.items ≡ numbers.now.items) }
{
    let mut copies = Vec::with_capacity(*numbers.allocator(), numbers.len())?;
    copies.extend_from_slice(numbers)?;
    Ok(copies)
}

// Returns the size of the array of these items as a value, if they make one.
fn size_of(tag: u8, items: &[Value]) -> Option<usize>
    ensures some { IfSome result (λ size. HoldsArray tag size items.now) }
    ensures none { IfNone result (makes_array tag items.now ≡ false) }
{
    if tag == 0 || tag > MAX_ELEMENT_TAG {
        return None;
    }
    let mut size = 6;
    for item in items {
        let more = body_size(item);
        if item.tag() != tag || more > MAX_VALUE_SIZE - size {
            return None;
        }
        size += more;
    }
    Some(size)
}

// Returns the number of the bytes that an item takes in an array.
fn body_size(item: &Value) -> usize
    ensures value { result ≡ length (body_of item.now) }
    ensures is { IsValue item.now }
{
    let _parts = item.parts();
    item.size() - 1
}
