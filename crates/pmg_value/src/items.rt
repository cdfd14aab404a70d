//! The items of an array, which are kept as values or as numbers.
ghost use Rattle.std.specs.Prelude.{◌≡◌, ◌<◌, ◌≤◌, ◌+◌, ◌*◌, nat_lt, ◌==◌, [], ◌∷◌, length, map, get_or, IfSome, IfNone, IsTrue, if◌then◌else◌};
ghost use Rattle.pmg_value.specs.Elements.{IsArray};
ghost use Rattle.pmg_value.specs.Items.{item_value, items_in, number_value, number_width};
ghost use Rattle.pmg_value.specs.Spelling.{are_plain, elements, makes_array, tag_of};
ghost use Rattle.pmg_value.specs.declared.refusal.Refusal.TheVariants as refusals;

use crate::array::{Array, ItemList};
use crate::process::Rank;
use crate::refusal::Refusal;
use crate::value::{MAX_VALUE_SIZE, Value};

/// The items of an array: values, or numbers of the kind of a tag.
#[derive(Clone, Copy)]
pub enum Items<'a> {
    /// Values.
    Values(&'a [Value]),
    /// Numbers of the kind of that tag.
    Numbers(u8, &'a [u64]),
}

/// An item of an array: a value that the array keeps, or a value made of a number.
pub enum Item<'a> {
    /// A value that is kept.
    Kept(&'a Value),
    /// A value that was made.
    Made(Value),
}

impl Drop for Item<'_> {
    fn drop(self) {
        match self {
            Item::Kept(_) => {}
            Item::Made(_) => {}
        }
    }
}

impl Item<'_> {
    /// Returns the item as a value.
    #[inline(always)]
    pub fn value(&self) -> &Value
        ensures { result.now ≡ item_value self.now }
    {
        match self {
            Item::Kept(value) => value,
            Item::Made(value) => value,
        }
    }
}

impl<'a> Items<'a> {
    /// Returns the number of items.
    pub fn len(self) -> usize
        ensures { result ≡ length (items_in self.entry) }
    {
        match self {
            Items::Values(values) => values.len(),
            Items::Numbers(_, numbers) => numbers.len(),
        }
    }

    /// Returns whether there are no items.
    pub fn is_empty(self) -> bool
        ensures { result ≡ (length (items_in self.entry) == 0) }
    {
        self.len() == 0
    }

    /// Returns the item at the index.
    #[inline(always)]
    pub fn get(self, index: usize) -> Item<'a>
        requires { index < length (items_in self) }
        ensures { item_value result ≡ get_or (items_in self.entry) index (item_value result) }
    {
        match self {
            Items::Values(values) => Item::Kept(&values[index]),
            Items::Numbers(tag, numbers) => Item::Made(number_value(tag, numbers[index])),
        }
    }

    /// Returns the first item and the others, if there are any.
    pub fn split_first(self) -> Option<(Item<'a>, Items<'a>)>
        ensures some { IfSome result (λ parts. items_in self.entry ≡ item_value parts.0 ∷ items_in parts.1) }
        ensures none { IfNone result (items_in self.entry ≡ []) }
    {
        match self {
            Items::Values(values) => {
                let (first, others) = values.split_first()?;
                Some((Item::Kept(first), Items::Values(others)))
            }
            Items::Numbers(tag, numbers) => {
                let (first, others) = numbers.split_first()?;
                Some((
                    Item::Made(number_value(tag, *first)),
                    Items::Numbers(tag, others),
                ))
            }
        }
    }
}

impl Value {
    /// Returns the number by which an array may keep the value, if its kind is a kind of numbers.
    #[tactic(auto, unfolding(crate::specs::Items::number_value, crate::specs::Items::number_width))]
    pub fn as_number(&self) -> u64
        ensures { 0 < number_width (tag_of self.now) → number_value (tag_of self.now) result ≡ self.now }
    {
        match self {
            Value::Bool(b) => u64::from(*b),
            Value::Byte(n) => u64::from(*n),
            Value::Size(n) => *n,
            Value::I8(n) => u64::from(n.cast_unsigned()),
            Value::I16(n) => u64::from(n.cast_unsigned()),
            Value::I32(n) => u64::from(n.cast_unsigned()),
            Value::I64(n) => n.cast_unsigned(),
            Value::U8(n) => u64::from(*n),
            Value::U16(n) => u64::from(*n),
            Value::U32(n) => u64::from(*n),
            Value::U64(n) => *n,
            Value::Int(n) => u64::from(n.cast_unsigned()),
            Value::Uint(n) => u64::from(*n),
            Value::Rank(rank) => u64::from(rank.number()),
            Value::Status(n) => u64::from(n.cast_unsigned()),
            Value::Str(_) | Value::Proc(_) | Value::Bytes(_) | Value::Array(_) => 0,
        }
    }
}

/// Returns whether arrays may keep items of the kind of that tag as numbers.
pub fn is_number_kind(tag: u8) -> bool
    ensures { result ≡ nat_lt 0 (number_width tag) }
{
    tag != 0 && tag != 3 && tag != 16 && tag < 18
}

/// Returns the value of a number of the kind of that tag. If the number is too great, its last bytes count.
#[tactic(auto, unfolding(crate::specs::Items::number_value))]
pub(crate) fn number_value(tag: u8, number: u64) -> Value
    ensures { result ≡ number_value tag number }
{
    let (byte, two, four) = (
        (number % 256) as u8,
        (number % 65_536) as u16,
        (number % 4_294_967_296) as u32,
    );
    match tag {
        2 => Value::Byte(byte),
        4 => Value::Size(number),
        5 => Value::I8(byte.cast_signed()),
        6 => Value::I16(two.cast_signed()),
        7 => Value::I32(four.cast_signed()),
        8 => Value::I64(number.cast_signed()),
        9 => Value::U8(byte),
        10 => Value::U16(two),
        11 => Value::U32(four),
        12 => Value::U64(number),
        13 => Value::Int(four.cast_signed()),
        14 => Value::Uint(four),
        15 => Value::Rank(Rank::new(four)),
        17 => Value::Status(four.cast_signed()),
        _ => Value::Bool(number != 0),
    }
}

impl Array {
    /// Returns the array of these numbers, whose kind has that tag. Errors: `BadParam` if the array as a value would be longer than
    /// 1,048,576 canonical bytes.
    pub fn of_numbers(tag: u8, numbers: Vec<u64>) -> Result<Array, Refusal>
        requires { 0 < number_width tag }
        ensures { result ≡ (if makes_array tag (map (number_value tag) numbers.items) then Ok (elements tag (map (number_value tag) numbers.items)) else Err refusals.BadParam) }
    {
        match numbers_size(tag, numbers.len()) {
            Some(size) => Ok(Array {
                tag,
                size,
                list: ItemList::Numbers(numbers),
            }),
            None => Err(Refusal::BadParam),
        }
    }

    /// Returns the items.
    pub fn items(&self) -> Items<'_>
        ensures items { elements self.now.tag (items_in result) ≡ self.now }
        ensures plain { IsTrue (are_plain (items_in result)) }
        ensures is { IsArray self.now }
    {
        match &self.list {
            ItemList::Values(values) => Items::Values(values.as_slice()),
            ItemList::Numbers(numbers) => Items::Numbers(self.tag, numbers.as_slice()),
        }
    }
}

// Returns the number of bytes of a number of the kind of that tag.
fn number_width(tag: u8) -> usize
    requires { 0 < number_width tag }
    ensures { result ≡ number_width tag }
{
    match tag {
        1 | 2 | 5 | 9 => 1,
        6 | 10 => 2,
        4 | 8 | 12 => 8,
        _ => 4,
    }
}

// Returns the size of the array of so many numbers as a value, if they make one.
fn numbers_size(tag: u8, count: usize) -> Option<usize>
    requires { 0 < number_width tag }
    ensures some { IfSome result (λ size. (size ≡ 6 + count * number_width tag) × (size ≤ MAX_VALUE_SIZE)) }
    ensures none { IfNone result (MAX_VALUE_SIZE < 6 + count * number_width tag) }
{
    let width = number_width(tag);
    if count > (MAX_VALUE_SIZE - 6) / width {
        return None;
    }
    Some(6 + count * width)
}
