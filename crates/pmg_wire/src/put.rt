ghost use Rattle.std.specs.Prelude.{◌≡◌, ◌<◌, ◌≤◌, ◌+◌, ◌^◌, ◌++◌, length, IsTrue, OnOk, OnErr};
ghost use Rattle.pmg_wire.specs.Spelling.{key_spelling, proc_spelling, front_of};
ghost use Rattle.pmg_value.specs.Elements.{bodies};
ghost use Rattle.pmg_value.specs.Items.{items_in};
ghost use Rattle.pmg_value.specs.Names.{is_nspace, is_key};
ghost use Rattle.pmg_value.specs.Spelling.{spelling, are_plain, plains_of, IsValue};

use bytes::BytesMut;
use pmg_value::{Items, Key, Parts, Proc, Value};
use std::alloc::AllocError;

/// Writes a key's encoding at the end of a buffer: two bytes of length, and the key.
pub fn put_key(out: &mut BytesMut, key: &Key) -> Result<(), AllocError>
    ensures ok { OnOk result (out.new.items ≡ out.old.items ++ key_spelling key.now) }
    ensures key { IsTrue (is_key key.now) }
    ensures err { OnErr result (out.new.items ≡ out.old.items) }
{
    let text = key.as_bytes();
    out.reserve(2 + text.len())?;
    out.extend_reserved(&(text.len() as u16).to_be_bytes());
    out.extend_reserved(text);
    Ok(())
}

/// Writes a process's encoding at the end of a buffer: one byte of length, the namespace, and four bytes of rank.
pub fn put_proc(out: &mut BytesMut, process: &Proc) -> Result<(), AllocError>
    ensures ok { OnOk result (out.new.items ≡ out.old.items ++ proc_spelling process.now) }
    ensures name { IsTrue (is_nspace process.now.nspace) }
    ensures rank { process.now.rank < 2 ^ 32 }
    ensures err { OnErr result (out.new.items ≡ out.old.items) }
{
    let name = process.nspace.as_bytes();
    let rank = process.rank.number();
    out.reserve(5 + name.len())?;
    out.extend_reserved(&[name.len() as u8]);
    out.extend_reserved(name);
    out.extend_reserved(&rank.to_be_bytes());
    Ok(())
}

/// Writes a value's canonical bytes at the end of a buffer.
pub fn put_value(out: &mut BytesMut, value: &Value) -> Result<(), AllocError>
    ensures ok { OnOk result (out.new.items ≡ out.old.items ++ spelling value.now) }
    ensures is { IsValue value.now }
    ensures err { OnErr result (out.new.items ≡ out.old.items) }
{
    let parts = value.parts();
    out.reserve(value.size())?;
    out.extend_reserved(&[value.tag()]);
    put_parts(out, &parts);
    put_items(out, parts.items);
    Ok(())
}

// Writes the parts before the items of a body. There is room for them.
fn put_parts(out: &mut BytesMut, parts: &Parts<'_>)
    requires { length (front_of parts.now.head.items parts.now.middle.now parts.now.end.items) ≤ out.old.spare }
    ensures items { out.new.items ≡ out.old.items ++ front_of parts.now.head.items parts.now.middle.now parts.now.end.items }
    ensures spare { out.new.spare + length (front_of parts.now.head.items parts.now.middle.now parts.now.end.items) ≡ out.old.spare }
{
    out.extend_reserved(parts.head.as_slice());
    out.extend_reserved(parts.middle);
    out.extend_reserved(parts.end.as_slice());
}

// Writes the bodies of items that are not arrays, one after another. There is room for them.
fn put_items(out: &mut BytesMut, items: Items<'_>)
    requires plain { IsTrue (are_plain (items_in items)) }
    requires room { length (bodies (plains_of (items_in items))) ≤ out.old.spare }
    ensures { out.new.items ≡ out.old.items ++ bodies (plains_of (items_in items.entry)) }
{
    for i in 0..items.len() {
        let item = items.get(i);
        put_parts(out, &item.value().parts());
    }
}
