//! The texts of values.
ghost use Rattle.std.specs.Prelude.{◌≡◌, ◌++◌, ◌<◌, ◌^◌, codes, decimal, IfOk, IsTrue, OnOk, OnErr, IsSome};
ghost use Rattle.std.specs.Fmt.{signed_decimal};
ghost use Rattle.std.specs.List.{flat_map, join_by};
ghost use Rattle.pmg_value.specs.Spelling.{IsValue, form, is_plain_form, plain_of, are_plain, plains_of};
ghost use Rattle.pmg_value.specs.Elements.{IsArray};
ghost use Rattle.pmg_value.specs.Items.{items_in};
ghost use Rattle.pmg_value.specs.Plain.{kind_name, plain_text};
ghost use Rattle.pmg_value.specs.Hex.{hex_text};
ghost use Rattle.pmg_value.specs.Names.{is_nspace};
ghost use Rattle.pmg_value.specs.Text.{text_of, form_text, array_text};
ghost use Rattle.pmg_value.specs.Written.{Writes};

use crate::array::Array;
use crate::items::Items;
use crate::process::Proc;
use crate::value::Value;
use crate::written::{WatchedWriter, WriteFault};
use std::alloc::{AllocError, Global};
use std::io::Write;

impl Value {
    /// Writes the value's text: the kind's name, a colon, and the content. Fails as `put_text` does.
    pub fn write_text<W: Write>(&self, writer: &mut WatchedWriter<W>) -> Result<(), WriteFault>
        ensures text { Writes (W.contents writer.old.writer) (W.contents writer.new.writer)
            result (text_of self.now) }
        ensures failed { OnErr result (IsSome writer.new.failure) }
        ensures is { IsValue self.now }
    {
        put_held(writer, kind_prefix(self.tag()), self)
    }

    /// Writes two blanks and the value's text. Fails as `put_text` does.
    pub fn write_indented<W: Write>(&self, writer: &mut WatchedWriter<W>) -> Result<(), WriteFault>
        ensures text { Writes (W.contents writer.old.writer) (W.contents writer.new.writer)
            result (codes "  " ++ text_of self.now) }
        ensures failed { OnErr result (IsSome writer.new.failure) }
        ensures is { IsValue self.now }
    {
        put_held(writer, indented_prefix(self.tag()), self)
    }

    /// Returns the value's text, in memory.
    pub fn to_text(&self, alloc: Global) -> Result<Vec<u8>, AllocError>
        ensures text { IfOk result (λ text. text.items ≡ text_of self.now) }
        ensures is { OnOk result (IsValue self.now) }
    {
        let mut writer = WatchedWriter::new(Vec::new(alloc));
        match self.write_text(&mut writer) {
            Ok(()) => Ok(writer.into_inner()),
            Err(WriteFault) => Err(AllocError),
        }
    }
}

/// Returns two blanks, the name of the kind with that tag, and a colon.
fn indented_prefix(tag: u8) -> &'static [u8]
    ensures { result.now ≡ codes "  " ++ (kind_name tag ++ codes ":") }
{
    match tag {
        1 => b"  bool:",
        2 => b"  byte:",
        3 => b"  string:",
        4 => b"  size:",
        5 => b"  i8:",
        6 => b"  i16:",
        7 => b"  i32:",
        8 => b"  i64:",
        9 => b"  u8:",
        10 => b"  u16:",
        11 => b"  u32:",
        12 => b"  u64:",
        13 => b"  int:",
        14 => b"  uint:",
        15 => b"  rank:",
        16 => b"  proc:",
        17 => b"  status:",
        18 => b"  bytes:",
        _ => b"  array:",
    }
}

/// Returns the name of the kind with that tag, and a colon.
fn kind_prefix(tag: u8) -> &'static [u8]
    ensures { result.now ≡ kind_name tag ++ codes ":" }
{
    &indented_prefix(tag)[2..]
}

/// Returns the name of the kind with that tag.
fn kind_name(tag: u8) -> &'static [u8]
    ensures { result.now ≡ kind_name tag }
{
    let prefix = kind_prefix(tag);
    &prefix[..prefix.len() - 1]
}

/// Writes a text, and a value's content without its kind's name.
#[cycle(put_held)]
fn put_held<W: Write>(
    writer: &mut WatchedWriter<W>,
    before: &[u8],
    value: &Value,
) -> Result<(), WriteFault>
    ensures text { Writes (W.contents writer.old.writer) (W.contents writer.new.writer)
        result (before.now ++ form_text (form value.now)) }
    ensures failed { OnErr result (IsSome writer.new.failure) }
    ensures is { IsValue value.now }
{
    match value {
        Value::Bool(false) => put_text_after(writer, before, b"false"),
        Value::Bool(true) => put_text_after(writer, before, b"true"),
        Value::Byte(n) => put_hex_after(writer, before, &[*n]),
        Value::Str(text) => put_hex_after(writer, before, text.as_bytes()),
        Value::Size(n) => put_number_after(writer, before, *n),
        Value::I8(n) => put_signed_after(writer, before, i64::from(*n)),
        Value::I16(n) => put_signed_after(writer, before, i64::from(*n)),
        Value::I32(n) => put_signed_after(writer, before, i64::from(*n)),
        Value::I64(n) => put_signed_after(writer, before, *n),
        Value::U8(n) => put_number_after(writer, before, u64::from(*n)),
        Value::U16(n) => put_number_after(writer, before, u64::from(*n)),
        Value::U32(n) => put_number_after(writer, before, u64::from(*n)),
        Value::U64(n) => put_number_after(writer, before, *n),
        Value::Int(n) => put_signed_after(writer, before, i64::from(*n)),
        Value::Uint(n) => put_number_after(writer, before, u64::from(*n)),
        Value::Rank(rank) => put_number_after(writer, before, u64::from(rank.number())),
        Value::Proc(process) => put_process(writer, before, process),
        Value::Status(n) => put_signed_after(writer, before, i64::from(*n)),
        Value::Bytes(octets) => put_hex_after(writer, before, octets.as_bytes()),
        Value::Array(array) => put_array(writer, before, array),
    }
}

/// Writes a text, and another.
#[tactic(auto, using(crate::proofs::WrittenLemmas::written_in_parts))]
fn put_text_after<W: Write>(
    writer: &mut WatchedWriter<W>,
    before: &[u8],
    text: &[u8],
) -> Result<(), WriteFault>
    ensures text { Writes (W.contents writer.old.writer) (W.contents writer.new.writer)
        result (before.now ++ text.now) }
    ensures failed { OnErr result (IsSome writer.new.failure) }
{
    writer.put_text(before)?;
    writer.put_text(text)
}

/// Writes a text, and bytes in hexadecimal.
#[tactic(auto, using(crate::proofs::WrittenLemmas::written_in_parts))]
fn put_hex_after<W: Write>(
    writer: &mut WatchedWriter<W>,
    before: &[u8],
    bytes: &[u8],
) -> Result<(), WriteFault>
    ensures text { Writes (W.contents writer.old.writer) (W.contents writer.new.writer)
        result (before.now ++ hex_text bytes.now) }
    ensures failed { OnErr result (IsSome writer.new.failure) }
{
    writer.put_text(before)?;
    writer.put_hex(bytes)
}

/// Writes a text, and a number in decimal.
#[tactic(auto, using(crate::proofs::WrittenLemmas::written_in_parts))]
fn put_number_after<W: Write>(
    writer: &mut WatchedWriter<W>,
    before: &[u8],
    number: u64,
) -> Result<(), WriteFault>
    ensures text { Writes (W.contents writer.old.writer) (W.contents writer.new.writer)
        result (before.now ++ decimal number) }
    ensures failed { OnErr result (IsSome writer.new.failure) }
{
    writer.put_text(before)?;
    writer.put_number(number)
}

/// Writes a text, and an integer in decimal.
#[tactic(auto, using(crate::proofs::WrittenLemmas::written_in_parts))]
fn put_signed_after<W: Write>(
    writer: &mut WatchedWriter<W>,
    before: &[u8],
    integer: i64,
) -> Result<(), WriteFault>
    ensures text { Writes (W.contents writer.old.writer) (W.contents writer.new.writer)
        result (before.now ++ signed_decimal integer) }
    ensures failed { OnErr result (IsSome writer.new.failure) }
{
    writer.put_text(before)?;
    writer.put_signed(integer)
}

/// Writes a text, and a process: the namespace in hexadecimal, and the rank.
fn put_process<W: Write>(
    writer: &mut WatchedWriter<W>,
    before: &[u8],
    process: &Proc,
) -> Result<(), WriteFault>
    ensures text { Writes (W.contents writer.old.writer) (W.contents writer.new.writer) result
        (before.now ++ (hex_text process.now.nspace ++ (codes "/" ++ decimal process.now.rank))) }
    ensures failed { OnErr result (IsSome writer.new.failure) }
    ensures name { IsTrue (is_nspace process.now.nspace) }
    ensures rank { process.now.rank < 2 ^ 32 }
{
    let name = process.nspace.as_bytes();
    let rank = process.rank.number();
    put_hex_after(writer, before, name)?;
    put_number_after(writer, b"/", u64::from(rank))
}

/// Writes a text, and an array: the name of its items' kind, and their contents in brackets.
#[cycle(put_held)]
fn put_array<W: Write>(
    writer: &mut WatchedWriter<W>,
    before: &[u8],
    array: &Array,
) -> Result<(), WriteFault>
    ensures text { Writes (W.contents writer.old.writer) (W.contents writer.new.writer)
        result (before.now ++ array_text array.now) }
    ensures failed { OnErr result (IsSome writer.new.failure) }
    ensures is { IsArray array.now }
{
    let items = array.items();
    put_text_after(writer, before, kind_name(array.tag()))?;
    writer.put_text(b"[")?;
    put_items(writer, items)?;
    writer.put_text(b"]")
}

/// Writes the contents of the items, with commas between them.
#[cycle(put_held)]
fn put_items<W: Write>(writer: &mut WatchedWriter<W>, items: Items<'_>) -> Result<(), WriteFault>
    requires { IsTrue (are_plain (items_in items)) }
    ensures text { Writes (W.contents writer.old.writer) (W.contents writer.new.writer)
        result (join_by plain_text (codes ",") (plains_of (items_in items.entry))) }
    ensures failed { OnErr result (IsSome writer.new.failure) }
{
    let Some((first, others)) = items.split_first() else {
        return Ok(());
    };
    put_held(writer, b"", first.value())?;
    put_others(writer, others)
}

/// Writes a comma before each item, and its content.
#[cycle(put_held)]
fn put_others<W: Write>(writer: &mut WatchedWriter<W>, items: Items<'_>) -> Result<(), WriteFault>
    requires { IsTrue (are_plain (items_in items)) }
    ensures text { Writes (W.contents writer.old.writer) (W.contents writer.new.writer)
        result (flat_map (λ p. codes "," ++ plain_text p) (plains_of (items_in items.entry))) }
    ensures failed { OnErr result (IsSome writer.new.failure) }
{
    for i in 0..items.len() {
        let item = items.get(i);
        put_next(writer, item.value())?;
    }
    Ok(())
}

/// Writes a comma, and the content of the item.
#[cycle(put_held)]
fn put_next<W: Write>(writer: &mut WatchedWriter<W>, item: &Value) -> Result<(), WriteFault>
    requires { IsTrue (is_plain_form (form item.now)) }
    ensures text { Writes (W.contents writer.old.writer) (W.contents writer.new.writer)
        result (codes "," ++ plain_text (plain_of (form item.now))) }
    ensures failed { OnErr result (IsSome writer.new.failure) }
{
    put_held(writer, b",", item)
}
