//! The parts of a value's body, by which it is written and ordered.
ghost use Rattle.std.specs.Prelude.{◌≡◌, ◌≤◌, ◌<◌, ◌^◌, [], ◌∷◌, ◌++◌, length, IsTrue};
ghost use Rattle.std.specs.Ordering.{nat_cmp, ordering_then};
ghost use Rattle.std.specs.Int.{w32, from_be_bytes, to_be_bytes};
ghost use Rattle.std.specs.Cmp.Lexicographic.{slice_cmp};
ghost use Rattle.pmg_value.specs.Elements.{IsArray, bodies, array_body};
ghost use Rattle.pmg_value.specs.Spelling.{spelling, tag_of, body_of, plains_of, IsValue};
ghost use Rattle.pmg_value.specs.Items.{items_in};
ghost use Rattle.pmg_value.specs.Plain.{counted};
ghost use Rattle.pmg_value.specs.Parts.{in_parts, head_len, middle_len, end_len, AreItems, AreAlike};
ghost use Rattle.pmg_value.specs.Names.{is_nspace};
ghost use Rattle.pmg_value.specs.declared.blobs.TheConstants.{MAX_BLOB_LEN};

use crate::array::Array;
use crate::items::Items;
use crate::process::Proc;
use crate::value::Value;
use arrayvec::ArrayVec;
use std::cmp::Ordering;

/// The canonical bytes after a value's tag, in parts: a head of at most eight bytes; the bytes of a namespace, a string or a byte object; a
/// rank; and the items of an array, whose bodies come last.
pub struct Parts<'a> {
    pub head: ArrayVec<u8, 8>,
    pub middle: &'a [u8],
    pub end: ArrayVec<u8, 8>,
    pub items: Items<'a>,
}

impl Drop for Parts<'_> {
    fn drop(self) {
        let Self {
            head,
            middle,
            end,
            items,
        } = self;
    }
}

impl Value {
    /// Returns the canonical bytes after the tag, in parts.
    pub fn parts(&self) -> Parts<'_>
        ensures body { in_parts result.head.items result.middle.now result.end.items (items_in result.items) ≡ body_of self.now }
        ensures head { length result.head.items ≡ head_len (tag_of self.now) }
        ensures middle { length result.middle.now ≡ middle_len (tag_of self.now) result.head.items }
        ensures end { length result.end.items ≡ end_len (tag_of self.now) }
        ensures items { AreItems (tag_of self.now) result.head.items (items_in result.items) }
        ensures is { IsValue self.now }
    {
        match self {
            Value::Bool(b) => head_alone(&[u8::from(*b)]),
            Value::Byte(n) => head_alone(&[*n]),
            Value::Str(text) => counted_body(text.as_bytes()),
            Value::Size(n) => head_alone(&n.to_be_bytes()),
            Value::I8(n) => head_alone(&n.to_be_bytes()),
            Value::I16(n) => head_alone(&n.to_be_bytes()),
            Value::I32(n) => head_alone(&n.to_be_bytes()),
            Value::I64(n) => head_alone(&n.to_be_bytes()),
            Value::U8(n) => head_alone(&[*n]),
            Value::U16(n) => head_alone(&n.to_be_bytes()),
            Value::U32(n) => head_alone(&n.to_be_bytes()),
            Value::U64(n) => head_alone(&n.to_be_bytes()),
            Value::Int(n) => head_alone(&n.to_be_bytes()),
            Value::Uint(n) => head_alone(&n.to_be_bytes()),
            Value::Rank(rank) => head_alone(&rank.number().to_be_bytes()),
            Value::Proc(process) => proc_body(process),
            Value::Status(n) => head_alone(&n.to_be_bytes()),
            Value::Bytes(octets) => counted_body(octets.as_bytes()),
            Value::Array(array) => array_parts(array),
        }
    }

    /// Compares the canonical bytes.
    pub fn cmp(&self, other: &Value) -> Ordering
        ensures { result ≡ slice_cmp nat_cmp (spelling self.now) (spelling other.now) }
    {
        let order = self.tag().cmp(&other.tag());
        if order.is_ne() {
            return order;
        }
        let (own, others) = (self.parts(), other.parts());
        let order = cmp_parts(&own, &others);
        if order.is_ne() {
            return order;
        }
        cmp_items(own.items, others.items)
    }
}

// Returns these bytes, at most eight.
fn short_bytes(bytes: &[u8]) -> ArrayVec<u8, 8>
    requires { length bytes.now ≤ 8 }
    ensures { result.items ≡ bytes.now }
{
    let mut held = ArrayVec::new();
    held.try_extend_from_slice(bytes).unwrap();
    held
}

// Returns a body that is only a head, of these bytes.
fn head_alone(bytes: &[u8]) -> Parts<'static>
    requires { length bytes.now ≤ 8 }
    ensures body { in_parts result.head.items result.middle.now result.end.items (items_in result.items) ≡ bytes.now }
    ensures head { result.head.items ≡ bytes.now }
    ensures middle { result.middle.now ≡ [] }
    ensures end { result.end.items ≡ [] }
    ensures items { items_in result.items ≡ [] }
{
    Parts {
        head: short_bytes(bytes),
        middle: &[],
        end: ArrayVec::new(),
        items: Items::Values(&[]),
    }
}

// Returns a body of these bytes, after four bytes of their number.
#[tactic(auto, using(crate::proofs::OrderLemmas::length_again))]
fn counted_body(bytes: &[u8]) -> Parts<'_>
    requires { length bytes.now ≤ MAX_BLOB_LEN }
    ensures body { in_parts result.head.items result.middle.now result.end.items (items_in result.items) ≡ counted bytes.now }
    ensures head { length result.head.items ≡ 4 }
    ensures middle { length result.middle.now ≡ from_be_bytes w32 result.head.items }
    ensures end { result.end.items ≡ [] }
    ensures items { items_in result.items ≡ [] }
{
    Parts {
        head: short_bytes(&(bytes.len() as u32).to_be_bytes()),
        middle: bytes,
        end: ArrayVec::new(),
        items: Items::Values(&[]),
    }
}

// Returns a body of a process: one byte of length, the namespace, and four bytes of rank.
fn proc_body(process: &Proc) -> Parts<'_>
    ensures body { in_parts result.head.items result.middle.now result.end.items (items_in result.items)
        ≡ (length process.now.nspace ∷ process.now.nspace) ++ to_be_bytes w32 process.now.rank }
    ensures head { result.head.items ≡ length process.now.nspace ∷ [] }
    ensures middle { result.middle.now ≡ process.now.nspace }
    ensures end { length result.end.items ≡ 4 }
    ensures items { items_in result.items ≡ [] }
    ensures name { IsTrue (is_nspace process.now.nspace) }
    ensures rank { process.now.rank < 2 ^ 32 }
{
    let name = process.nspace.as_bytes();
    Parts {
        head: short_bytes(&[name.len() as u8]),
        middle: name,
        end: short_bytes(&process.rank.number().to_be_bytes()),
        items: Items::Values(&[]),
    }
}

// Returns a body of an array: the tag of its items, four bytes of their number, and their bodies.
fn array_parts(array: &Array) -> Parts<'_>
    ensures body { in_parts result.head.items result.middle.now result.end.items (items_in result.items) ≡ array_body array.now }
    ensures head { length result.head.items ≡ 5 }
    ensures middle { result.middle.now ≡ [] }
    ensures end { result.end.items ≡ [] }
    ensures items { AreItems 19 result.head.items (items_in result.items) }
    ensures is { IsArray array.now }
{
    let items = array.items();
    let count = (items.len() as u32).to_be_bytes();
    Parts {
        head: short_bytes(&[array.tag(), count[0], count[1], count[2], count[3]]),
        middle: &[],
        end: ArrayVec::new(),
        items,
    }
}

// Compares the parts before the items: the heads, then the middles, then the ends.
fn cmp_parts(a: &Parts<'_>, b: &Parts<'_>) -> Ordering
    ensures { result ≡ ordering_then (slice_cmp nat_cmp a.now.head.items b.now.head.items)
        (ordering_then (slice_cmp nat_cmp a.now.middle.now b.now.middle.now) (slice_cmp nat_cmp a.now.end.items b.now.end.items)) }
{
    let order = a.head.as_slice().cmp(b.head.as_slice());
    if order.is_ne() {
        return order;
    }
    let order = a.middle.cmp(b.middle);
    if order.is_ne() {
        return order;
    }
    a.end.as_slice().cmp(b.end.as_slice())
}

// Compares equally many bodies of one kind, one after another.
fn cmp_items(a: Items<'_>, b: Items<'_>) -> Ordering
    requires { AreAlike (items_in a) (items_in b) }
    ensures { result ≡ slice_cmp nat_cmp (bodies (plains_of (items_in a.entry))) (bodies (plains_of (items_in b.entry))) }
{
    for i in 0..a.len() {
        let (own, other) = (a.get(i), b.get(i));
        let order = cmp_parts(&own.value().parts(), &other.value().parts());
        if order.is_ne() {
            return order;
        }
    }
    Ordering::Equal
}
