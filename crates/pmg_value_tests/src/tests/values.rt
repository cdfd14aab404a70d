//! What no dump shows of values: that they are made, copied and written where there is memory, which items make no array, and
//! how long values may be.
use crate::tests::making::MEMORY;
use bytes::BytesMut;
use pmg_value::{Cause, MAX_BLOB_LEN, MAX_VALUE_SIZE, Refusal, Value};
use pmg_wire::{put_value, value_from_bytes};
use std::alloc::Global;
use std::process::Abort;

// Values of each kind, by their bytes.
const VALUES: &str = "\
0101
02a9
03000000036a2f30
04ffffffffffffffff
0580
05ff
068000
0780000000
088000000000000000
09ff
0a0102
0b01020304
0c0102030405060708
0d80000000
0effffffff
0fffffffff
1005706d69787e00001000
11ffffffd2
1200000003000af0
131000000000
130100000003010001
13020000000200a9
130300000002000000026a2f00000000
1304000000010000000000000100
13050000000380ff7f
1306000000018000
13070000000180000000
1308000000018000000000000000
130900000001ff
130a000000020102ffff
130b0000000101020304
130c000000010102030405060708
130d0000000180000000
130e00000001ffffffff
130f0000000200000000fffffffe
131000000002016a0000000005706d69787e00001000
131100000001ffffffd2
1312000000020000000100000000020af0
";

// The bytes of these digits.
fn bytes_of(rt: &impl Abort, alloc: Global, digits: &str) -> Vec<u8> {
    hex::decode(alloc, digits).expect(rt, MEMORY)
}

// The value of these bytes.
fn value_of(rt: &impl Abort, alloc: Global, bytes: &[u8]) -> Value {
    value_from_bytes(alloc, bytes).expect(rt, MEMORY)
}

// The bytes of a copy of the value.
fn copied(rt: &impl Abort, alloc: Global, value: &Value) -> BytesMut {
    let copy = value.copy().expect(rt, MEMORY);
    let mut out = BytesMut::new(alloc);
    put_value(&mut out, &copy).expect(rt, MEMORY);
    out
}

// Requires that a copy of the value of these bytes has the same.
fn assert_copied(rt: &impl Abort, alloc: Global, bytes: &[u8]) {
    let out = copied(rt, alloc, &value_of(rt, alloc, bytes));
    assert!(rt; out.as_slice() == bytes);
}

#[test]
fn a_copy_is_written_as_its_value_was_read(rt: HostRuntime) {
    for digits in VALUES.lines() {
        assert_copied(&rt, rt.alloc(), &bytes_of(&rt, rt.alloc(), digits));
    }
}

// The value of these digits.
fn read(rt: &impl Abort, alloc: Global, digits: &str) -> Value {
    value_of(rt, alloc, &bytes_of(rt, alloc, digits))
}

// The values of these digits.
fn values_of(rt: &impl Abort, alloc: Global, items: &[&str]) -> Vec<Value> {
    let mut values = Vec::new(alloc);
    for digits in items {
        values.push(read(rt, alloc, digits)).expect(rt, MEMORY);
    }
    values
}

// The size of the value; none, where it is refused as BadParam.
fn size_of(rt: &impl Abort, value: &Result<Value, Refusal>) -> Option<usize> {
    match value {
        Ok(value) => Some(value.size()),
        Err(Refusal::BadParam) => None,
        Err(refusal) => Err(*refusal).expect(rt, MEMORY),
    }
}

// Whether there is an array of the tag with items of these bytes.
fn is_array(rt: &impl Abort, alloc: Global, tag: u8, items: &[&str]) -> bool {
    let array = Value::array(tag, values_of(rt, alloc, items));
    size_of(rt, &array).is_some()
}

// A tag, items, and whether there is an array of them.
const ARRAYS: &[(u8, &[&str], bool)] = &[
    (9, &[], true),
    (9, &["0900", "09ff", "0910"], true),
    (0, &[], false),
    (19, &[], false),
    (20, &[], false),
    (0, &["0901"], false),
    (2, &["0901"], false),
    (10, &["0901"], false),
    (18, &["0901"], false),
    (19, &["0901"], false),
    (255, &["0901"], false),
    (9, &["0901", "0201"], false),
    (9, &["13090000000101"], false),
    (19, &["13090000000101"], false),
];

#[test]
fn items_of_one_kind_make_an_array(rt: HostRuntime) {
    for (tag, items, wanted) in ARRAYS {
        assert!(rt; is_array(&rt, rt.alloc(), *tag, items) == *wanted);
    }
}

// Bytes of a value: the first of them, so many of one byte, the last of them, and their first fault, if they are none of a value.
type Row = (
    &'static [u8],
    usize,
    u8,
    &'static [u8],
    Option<(u64, Cause)>,
);

// The bytes of the row.
fn long(rt: &impl Abort, alloc: Global, row: &Row) -> Vec<u8> {
    let (front, count, byte, back, _) = row;
    let mut bytes = Vec::with_capacity(alloc, 2_000_000).expect(rt, MEMORY);
    bytes.extend_from_slice(front).expect(rt, MEMORY);
    for _ in 0..*count {
        bytes.push(*byte).expect(rt, MEMORY);
    }
    bytes.extend_from_slice(back).expect(rt, MEMORY);
    bytes
}

// The first fault of these bytes as a value, if they are none.
fn fault_of(rt: &impl Abort, alloc: Global, bytes: &[u8]) -> Option<(u64, Cause)> {
    match value_from_bytes(alloc, bytes).err() {
        Some(Refusal::BadFrame(fault)) => Some((fault.offset, fault.cause)),
        Some(refusal) => Err(refusal).expect(rt, MEMORY),
        None => None,
    }
}

const FAULT_OF_SIZE: Option<(u64, Cause)> = Some((0, Cause::Size));

// What stands before the bytes of one kind in an array of two strings, of which the first is too long.
const TWO: &[u8] = b"\x13\x03\0\0\0\x02\x00\x0f\xff\xfc";

// Values of the greatest size and longer ones: strings, byte objects, arrays of bytes, and an array of two strings, of which the first
// is too long, and the second has one byte, then lacks it, and then has a zero in its place. Then short ones, whose faults count from
// the first of their bytes too.
const ROWS: &[Row] = &[
    (b"\x03\x00\x0f\xff\xfb", 1_048_571, 1, b"", None),
    (b"\x03\x00\x0f\xff\xfc", 1_048_572, 1, b"", FAULT_OF_SIZE),
    (
        b"\x03\x00\x0f\xff\xfc",
        1_048_572,
        0,
        b"",
        Some((5, Cause::Text)),
    ),
    (b"\x12\x00\x0f\xff\xfb", 1_048_571, 1, b"", None),
    (b"\x12\x00\x0f\xff\xfc", 1_048_572, 1, b"", FAULT_OF_SIZE),
    (b"\x13\x02\x00\x0f\xff\xfa", 1_048_570, 9, b"", None),
    (
        b"\x13\x02\x00\x0f\xff\xfb",
        1_048_571,
        9,
        b"",
        FAULT_OF_SIZE,
    ),
    (TWO, 1_048_572, 1, b"\0\0\0\x01\x01", FAULT_OF_SIZE),
    (
        TWO,
        1_048_572,
        1,
        b"\0\0\0\x01",
        Some((1_048_586, Cause::Short)),
    ),
    (
        TWO,
        1_048_572,
        1,
        b"\0\0\0\x01\0",
        Some((1_048_586, Cause::Text)),
    ),
    (b"\x01\x02", 0, 0, b"", Some((1, Cause::Bool))),
    (b"", 0, 0, b"", Some((0, Cause::Short))),
    (b"\x03\0\0\0\x03ab", 0, 0, b"", Some((5, Cause::Short))),
    (b"\x09\xff\0", 0, 0, b"", Some((2, Cause::Long))),
    (
        b"\x13\x02\0\0\0\x01\xa9\xa9",
        0,
        0,
        b"",
        Some((7, Cause::Long)),
    ),
];

// Requires that the bytes of the row have that fault.
fn assert_fault(rt: &impl Abort, alloc: Global, row: &Row) {
    let bytes = long(rt, alloc, row);
    assert!(rt; fault_of(rt, alloc, &bytes) == row.4);
}

#[test]
fn a_value_has_at_most_1048576_bytes(rt: HostRuntime) {
    for row in ROWS {
        assert_fault(&rt, rt.alloc(), row);
    }
}

// Requires that a string and a byte object of these bytes have that size, or are refused as BadParam.
fn assert_sizes(rt: &impl Abort, alloc: Global, text: &[u8], wanted: Option<usize>) {
    assert!(rt; size_of(rt, &Value::string(alloc, text)) == wanted);
    assert!(rt; size_of(rt, &Value::bytes(alloc, text)) == wanted);
}

// Strings and byte objects of the greatest length and longer ones.
fn assert_blobs(rt: &impl Abort, alloc: Global) {
    let mut text = vec![in alloc; 1; MAX_BLOB_LEN].expect(rt, MEMORY);
    assert_sizes(rt, alloc, &text, Some(MAX_VALUE_SIZE));
    text.push(1).expect(rt, MEMORY);
    assert_sizes(rt, alloc, &text, None);
}

// So many values of one byte.
fn byte_values(rt: &impl Abort, alloc: Global, count: usize) -> Vec<Value> {
    let mut values = Vec::with_capacity(alloc, count).expect(rt, MEMORY);
    for _ in 0..count {
        values.push(Value::Byte(9)).expect(rt, MEMORY);
    }
    values
}

#[test]
fn longer_strings_byte_objects_and_arrays_are_not_made(rt: HostRuntime) {
    let alloc = rt.alloc();
    assert_blobs(&rt, alloc);
    assert!(rt; size_of(&rt, &Value::string(alloc, b"a\0b")) == None);
    let array = Value::array(2, byte_values(&rt, alloc, 1_048_571));
    assert!(rt; size_of(&rt, &array) == None);
}
