//! Reads values. An array, and any value that could be too long, is read in two passes. The first pass finds the first fault and the
//! value's end, and takes no memory. The second pass builds the value from its bytes, which are all there. Any other value is built at
//! once.
ghost use Rattle.std.specs.Prelude.{◌≡◌, ◌-◌, ◌<◌, ◌≤◌, None, length, map, IfOk, IsTrue, OnErr};
ghost use Rattle.pmg_value.specs.Items.{number_value, number_width};
ghost use Rattle.pmg_value.specs.Spelling.{Form, form, are_plain, plains_of};
ghost use Rattle.pmg_wire.specs.Grammar.{SpellsValue, IsWholeValue};
ghost use Rattle.pmg_wire.specs.Many.{many};
ghost use Rattle.pmg_wire.specs.Reading.{Place, Reads, ReadsAll};
ghost use Rattle.pmg_wire.specs.Fields.{made, read_text, read_blob, read_any_proc, read_plain, read_array, read_value_body, read_value, whole_value};

use crate::cursor::Cursor;
use crate::fields::get_flag;
use crate::skip::{ARRAY_TAG, skip_body};
use crate::texts::{get_any_proc, get_blob, get_text};
use pmg_value::{
    Cause, MAX_VALUE_SIZE, Nspace, Octets, Proc, Rank, Refusal, Text, Value, is_number_kind,
};
use std::alloc::Global;

// Reads a string. There are no more bytes than in a value's body.
fn text_of(alloc: Global, at: &mut Cursor<'_>) -> Result<Text, Refusal>
    requires { length at.old.rest ≤ MAX_VALUE_SIZE - 1 }
    ensures { Reads (λ t. t) result at.new (read_text at.old) }
{
    // No effect at run time: the proof reads here that what is left are bytes.
    let _start = at.offset();
    let text = get_text(at)?;
    Ok(Text::from_text(alloc, text)?)
}

// Reads a byte object. There are no more bytes than in a value's body.
fn octets_of(alloc: Global, at: &mut Cursor<'_>) -> Result<Octets, Refusal>
    requires { length at.old.rest ≤ MAX_VALUE_SIZE - 1 }
    ensures { Reads (λ o. o) result at.new (read_blob at.old) }
{
    // No effect at run time: the proof reads here that what is left are bytes.
    let _start = at.offset();
    let bytes = get_blob(at)?;
    Ok(Octets::from_bytes(alloc, bytes)?)
}

// Reads any process, even one that no group registers.
fn any_proc_of(alloc: Global, at: &mut Cursor<'_>) -> Result<Proc, Refusal>
    ensures { Reads (λ p. p) result at.new (read_any_proc at.old) }
{
    let (name, rank) = get_any_proc(at)?;
    Ok(Proc::new(Nspace::from_name(alloc, name)?, Rank::new(rank)))
}

// Reads the value with this tag whose body is here. It is not an array, and at most as long as a value may be.
#[inline(always)]
#[tactic(auto, unfolding(crate::specs::Fields::read_plain))]
fn plain_of(alloc: Global, tag: u8, at: &mut Cursor<'_>) -> Result<Value, Refusal>
    requires { length at.old.rest ≤ MAX_VALUE_SIZE - 1 }
    ensures { Reads form result at.new (made Form.plain (read_plain tag at.old)) }
{
    match tag {
        1 => Ok(Value::Bool(get_flag(at)?)),
        2 => Ok(Value::Byte(at.get_u8()?)),
        3 => Ok(Value::Str(text_of(alloc, at)?)),
        4 => Ok(Value::Size(at.get_u64()?)),
        5 => Ok(Value::I8(at.get_u8()?.cast_signed())),
        6 => Ok(Value::I16(at.get_u16()?.cast_signed())),
        7 => Ok(Value::I32(at.get_u32()?.cast_signed())),
        8 => Ok(Value::I64(at.get_u64()?.cast_signed())),
        9 => Ok(Value::U8(at.get_u8()?)),
        10 => Ok(Value::U16(at.get_u16()?)),
        11 => Ok(Value::U32(at.get_u32()?)),
        12 => Ok(Value::U64(at.get_u64()?)),
        13 => Ok(Value::Int(at.get_u32()?.cast_signed())),
        14 => Ok(Value::Uint(at.get_u32()?)),
        15 => Ok(Value::Rank(Rank::new(at.get_u32()?))),
        16 => Ok(Value::Proc(any_proc_of(alloc, at)?)),
        17 => Ok(Value::Status(at.get_u32()?.cast_signed())),
        _ => Ok(Value::Bytes(octets_of(alloc, at)?)),
    }
}

// Reads so many elements of that kind. The first pass saw that all of them are here, so that room is made for all at once.
fn elements_of(
    alloc: Global,
    tag: u8,
    count: u32,
    at: &mut Cursor<'_>,
) -> Result<Vec<Value>, Refusal>
    requires { length at.old.rest ≤ MAX_VALUE_SIZE - 1 }
    ensures read { Reads (λ vs. plains_of vs.items) result at.new (many (λ _. read_plain tag) count None at.old) }
    ensures plain { IfOk result (λ vs. IsTrue (are_plain vs.items)) }
{
    // No effect at run time: the proof reads here that what is left are bytes.
    let _start = at.offset();
    let mut items = Vec::with_capacity(alloc, count as usize)?;
    for _ in 0..count {
        let item = plain_of(alloc, tag, at)?;
        items.push(item)?;
    }
    Ok(items)
}

// Reads so many elements of that kind, a kind of numbers, as numbers. As above, all of them are here.
fn numbers_of(alloc: Global, tag: u8, count: u32, at: &mut Cursor<'_>) -> Result<Vec<u64>, Refusal>
    requires short { length at.old.rest ≤ MAX_VALUE_SIZE - 1 }
    requires kind { 0 < number_width tag }
    ensures { Reads (λ ns. plains_of (map (number_value tag) ns.items)) result at.new (many (λ _. read_plain tag) count None at.old) }
{
    // No effect at run time: the proof reads here that what is left are bytes.
    let _start = at.offset();
    let mut numbers = Vec::with_capacity(alloc, count as usize)?;
    for _ in 0..count {
        let item = plain_of(alloc, tag, at)?;
        numbers.push(item.as_number())?;
    }
    Ok(numbers)
}

// Reads an array: the tag of its elements, their number, and their bodies.
#[tactic(auto, unfolding(crate::specs::Fields::read_array))]
fn array_of(alloc: Global, at: &mut Cursor<'_>) -> Result<Value, Refusal>
    requires { length at.old.rest ≤ MAX_VALUE_SIZE - 1 }
    ensures { Reads form result at.new (made Form.array (read_array at.old)) }
{
    let start = at.offset();
    let tag = at.get_u8()?;
    if tag == 0 || tag >= ARRAY_TAG {
        return Err(Refusal::bad_frame(start, Cause::Tag));
    }
    let count = at.get_u32()?;
    if is_number_kind(tag) {
        let numbers = numbers_of(alloc, tag, count, at)?;
        return Value::numbers(tag, numbers);
    }
    let items = elements_of(alloc, tag, count, at)?;
    Value::array(tag, items)
}

// Reads the value with this tag whose body is here. It is at most as long as a value may be.
#[tactic(auto, unfolding(crate::specs::Fields::read_value_body))]
fn body_of(alloc: Global, tag: u8, at: &mut Cursor<'_>) -> Result<Value, Refusal>
    requires { length at.old.rest ≤ MAX_VALUE_SIZE - 1 }
    ensures { Reads form result at.new (read_value_body tag at.old) }
{
    if tag == ARRAY_TAG {
        array_of(alloc, at)
    } else {
        plain_of(alloc, tag, at)
    }
}

// Reads a value in two passes: first its fault and its end, and then its parts.
#[cold]
#[inline(never)]
#[tactic(auto, unfolding(crate::specs::Fields::read_value))]
fn value_in_passes(alloc: Global, at: &mut Cursor<'_>) -> Result<Value, Refusal>
    ensures { Reads (λ v. v) result at.new (read_value at.old) }
{
    let start = at.offset();
    let tag = at.get_u8()?;
    if tag == 0 || tag > ARRAY_TAG {
        return Err(Refusal::bad_frame(start, Cause::Tag));
    }
    let mut behind = at.fork();
    skip_body(tag, &mut behind)?;
    if behind.offset() - start > MAX_VALUE_SIZE as u64 {
        return Err(Refusal::bad_frame(start, Cause::Size));
    }
    let len = (behind.offset() - at.offset()) as usize;
    let value = body_of(alloc, tag, &mut at.window(len))?;
    *at = behind;
    Ok(value)
}

// Reads a value. A value that is not an array and cannot be too long is built at once.
fn value_of(alloc: Global, at: &mut Cursor<'_>) -> Result<Value, Refusal>
    ensures { Reads (λ v. v) result at.new (read_value at.old) }
{
    // No effect at run time: the proof reads here that what is left are bytes.
    let _start = at.offset();
    let rest = at.rest();
    let Some(tag) = rest.first() else {
        return value_in_passes(alloc, at);
    };
    if *tag == 0 || *tag >= ARRAY_TAG || rest.len() > MAX_VALUE_SIZE {
        return value_in_passes(alloc, at);
    }
    at.skip(1);
    plain_of(alloc, *tag, at)
}

/// Reads a value: its tag, and a body of the tag's form. A refusal leaves the cursor where it was. Errors: `BadFrame` with the first fault
/// of Short, Tag, Bool, Name, Text, and at the value's end Size; `NoMemory`.
#[inline(always)]
pub fn get_value(alloc: Global, at: &mut Cursor<'_>) -> Result<Value, Refusal>
    ensures found { IfOk result (λ v. SpellsValue at.old v at.new) }
    ensures only { (v : Value) (after : Place) → SpellsValue at.old v after → Reads (λ v. v) result at.new (Ok (v, after)) }
    ensures first_fault { Reads (λ v. v) result at.new (read_value at.old) }
    ensures err { OnErr result (at.new ≡ at.old) }
{
    let start = at.fork();
    match value_of(alloc, at) {
        Ok(value) => Ok(value),
        Err(refusal) => {
            *at = start;
            Err(refusal)
        }
    }
}

/// Reads bytes that are one value and nothing after it. Errors: `BadFrame` with the first fault, counted from the first byte: a fault of
/// `get_value`, or Long if bytes are left after the value; `NoMemory`.
#[tactic(auto, unfolding(crate::specs::Fields::whole_value))]
pub fn value_from_bytes(alloc: Global, bytes: &[u8]) -> Result<Value, Refusal>
    ensures found { IfOk result (λ v. IsWholeValue bytes.now v) }
    ensures only { (v : Value) → IsWholeValue bytes.now v → ReadsAll (λ v. v) result (Ok v) }
    ensures first_fault { ReadsAll (λ v. v) result (whole_value bytes.now) }
{
    let mut at = Cursor::of(bytes);
    let value = get_value(alloc, &mut at)?;
    if !at.rest().is_empty() {
        return Err(Refusal::bad_frame(at.offset(), Cause::Long));
    }
    Ok(value)
}
