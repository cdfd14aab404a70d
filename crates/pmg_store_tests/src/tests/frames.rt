//! What no clause says: that frames of which bytes, faults and offsets were found by hand are read and written so,
//! however their bytes come.
use crate::tests::making::{MEMORY, fence_name};
use crate::tests::spelled::{FRAMES, edit_frame, full_header, make_frame};
use pmg_frame::{FenceName, Frame, HEAD_SIZE, Stream};
use pmg_value::{Cause, Fault, Refusal};
use std::alloc::Global;
use std::process::Abort;

// Requires that these bytes say this frame alone, which is written so in their version, and that a copy is the same.
fn assert_one(rt: &impl Abort, alloc: Global, bytes: &[u8], frame: &Frame) {
    let version = bytes.first().copied().unwrap_or(0);
    let written = frame.encode_as(alloc, version).expect(rt, MEMORY);
    assert!(rt; written.as_slice() == bytes);
    let fed = Stream::new(alloc).feed(bytes).expect(rt, MEMORY);
    assert!(rt; fed.fault == None && fed.frames.len() == 1);
    for read in &fed.frames {
        assert!(rt; read.is_same(frame) && read.copy().expect(rt, MEMORY).is_same(frame));
    }
}

// Requires that these bytes say the frame of that name alone.
fn assert_kind(rt: &impl Abort, alloc: Global, bytes: &[u8], name: &str) {
    assert_one(rt, alloc, bytes, &make_frame(rt, alloc, name))
}

// Feeds bytes, and requires that so many frames are in them and no fault.
fn assert_fed(rt: &impl Abort, stream: &mut Stream, bytes: &[u8], frames: usize) {
    let fed = stream.feed(bytes).expect(rt, MEMORY);
    assert!(rt; fed.frames.len() == frames && fed.fault == None);
}

// Requires that a frame of which only a part has come is no frame and no fault, but cut where the stream ends.
fn assert_splits(rt: &impl Abort, alloc: Global, bytes: &[u8]) {
    for cut in 1..bytes.len() {
        let (front, back) = bytes.split_at(cut);
        let mut stream = Stream::new(alloc);
        assert_fed(rt, &mut stream, front, 0);
        assert!(rt; stream.finish() == Err(Refusal::bad_frame(0, Cause::Cut)));
        assert_fed(rt, &mut stream, back, 1);
        assert!(rt; stream.finish() == Ok(()));
    }
}

#[test]
fn each_kind_is_read_and_written_whole_and_split(rt: HostRuntime) {
    let alloc = rt.alloc();
    for line in FRAMES.lines() {
        let (name, _) = line.split_once(' ').unwrap_or(("", ""));
        let bytes = edit_frame(&rt, alloc, name);
        assert_kind(&rt, alloc, &bytes, name);
        assert_splits(&rt, alloc, &bytes);
    }
}

#[test]
fn frames_are_written_in_version_2_and_in_no_version_past_it(rt: HostRuntime) {
    let alloc = rt.alloc();
    let frame = make_frame(&rt, alloc, "short-header");
    let written = frame.encode(alloc).expect(&rt, MEMORY);
    assert!(rt; written.as_slice() == edit_frame(&rt, alloc, "short-header").as_slice());
    for version in [0, 3, 255] {
        assert!(rt; frame.encode_as(alloc, version).err() == Some(Refusal::BadParam));
    }
}

// Requires that the frame has a body of that size in that version, and is read back.
fn assert_size(rt: &impl Abort, alloc: Global, frame: &Frame, version: u8, size: usize) {
    let bytes = frame.encode_as(alloc, version).expect(rt, MEMORY);
    assert!(rt; bytes.get(HEAD_SIZE..).unwrap_or(&[]).len() == size);
    assert_one(rt, alloc, &bytes, frame);
}

#[test]
fn a_header_of_all_ranks_is_short_as_one_run(rt: HostRuntime) {
    let frame = Frame::Header(full_header(&rt, rt.alloc()));
    assert_size(&rt, rt.alloc(), &frame, 1, 86_037);
    assert_size(&rt, rt.alloc(), &frame, 2, 50);
}

// Feeds bytes, and requires that so many frames are in them and then a fault at that offset.
fn assert_fault(rt: &impl Abort, stream: &mut Stream, bytes: &[u8], frames: usize, offset: u64) {
    let fed = stream.feed(bytes).expect(rt, MEMORY);
    assert!(rt; fed.frames.len() == frames);
    assert!(rt; matches!(fed.fault, Some(fault) if fault.offset == offset));
}

// Requires that the stream takes no more.
fn assert_closed(rt: &impl Abort, stream: &mut Stream, more: &[u8]) {
    assert!(rt; stream.feed(&[]).err() == Some(Refusal::Closed));
    assert!(rt; stream.feed(more).err() == Some(Refusal::Closed));
    assert!(rt; stream.finish() == Err(Refusal::Closed));
}

#[test]
fn a_fault_closes_the_stream(rt: HostRuntime) {
    let mut bytes = edit_frame(&rt, rt.alloc(), "piece");
    for frame in ["piece 27=02 42=02", "piece 44=02", "piece"] {
        let more = edit_frame(&rt, rt.alloc(), frame);
        bytes.extend_from_slice(&more).expect(&rt, MEMORY);
    }
    for cut in 0..bytes.len().min(135) {
        let (front, back) = bytes.split_at(cut);
        let whole = cut / 45;
        let mut stream = Stream::new(rt.alloc());
        assert_fed(&rt, &mut stream, front, whole);
        assert_fault(&rt, &mut stream, back, 2usize.wrapping_sub(whole), 134);
        assert_closed(&rt, &mut stream, back);
    }
}

// Frames with edits, and of each the first fault, which is found with its last byte.
const FAULTS: &str = "\
piece 0=00 1=09 ..6: Version at 0
piece 0=03 1=09 ..6: Version at 0
piece 0=02 5=00 ..6: Short at 6
piece 1=00 2=09 ..6: Kind at 1
piece 1=07 ..6: Kind at 1
piece 2=01 5=01 ..6: Length at 2
piece 6=00 11=01: Name at 6
piece 7=20 19=01: Name at 6
piece 10=10 19=01: Rank at 8
piece 19=01 29=09: Range at 12
piece 23=01 27=00: Range at 12
piece 5=1a 29=01 31=01 ..32: Count at 28
piece 5=1a 29=01 31=00 ..32: Short at 32
piece 31=02: Short at 45
piece 31=00: Long at 32
piece 33=00 44=02: Key at 32
piece 34=1f 42=00: Key at 32
piece 42=00 44=02: Number at 35
piece 42=02 44=02: Number at 35
piece 43=00 44=02: Tag at 43
piece 44=02: Bool at 44
piece 5=26 ..44: Short at 44
pair 34=62 47=61: Order at 45
pair 47=61: Order at 45
header 9=40 10=02: Node at 6
header 10=02 18=00: Bool at 10
header 18=00 22=00: Number at 11
header 14=01 22=00: Number at 11
header 22=00 23=00: Count at 19
header 21=10 22=01: Count at 19
header 23=00 34=00: Name at 23
header 24=20 34=00: Name at 23
header 27=10 34=00: Rank at 25
header 34=00 38=00: Order at 29
header 28=02 38=00: Order at 29
header 38=00 39=00: Count at 35
header 38=03 39=00: Count at 35
header 39=00 45=02: Name at 39
header 44=02 45=02: Member at 39
header 45=02 49=01: Bool at 45
header 49=01: Level at 46
header 5=2f ..53: Short at 46
header 38=02: Short at 54
header 22=01: Count at 29
fence-ask 9=40: Node at 6
fence-ask 10=02: Bool at 10
fence-ask 22=01: Long at 29
fence-ask 22=03: Short at 35
fence-ask 34=00: Order at 29
range-ask 9=40: Node at 6
range-ask 10=00: Name at 10
range-ask 14=10: Rank at 12
range-ask 19=01: Level at 16
range-ask 5=11 ..23: Short at 16
direct-ask 19=01: Level at 16
refresh-ask 9=40: Node at 6
refresh-ask 17=00 18=02: Number at 10
refresh-ask 18=02 19=00: Bool at 18
refresh-ask 19=00 28=01: Name at 19
refresh-ask 23=10 28=01: Rank at 21
refresh-ask 28=01: Level at 25
refresh-ask 5=1a ..32: Short at 25
refresh-ask 5=0c ..18: Short at 18
refresh-ask 18=01: Short at 33
refresh-reply 17=00: Number at 10
refresh-reply 18=02: Bool at 18
refresh-reply 18=00: Long at 33
refresh-reply 32=02: Range at 25
refresh-reply 36=01 44=09: Range at 25
refresh-reply 32=01: Number at 48
refresh-reply 44=02: Short at 58
refresh-reply 42=01 46=00: Count at 41
refresh-reply 44=00: Long at 45
refresh-reply 57=02: Bool at 57
short-header 1=07 ..6: Kind at 1
short-header 9=40: Node at 6
short-header 10=02 18=00: Bool at 10
short-header 18=00 22=00: Number at 11
short-header 22=00 23=00: Count at 19
short-header 21=10 22=01: Count at 19
short-header 23=00 31=10: Name at 23
short-header 27=10 31=10: Rank at 25
short-header 31=10 36=00: Rank at 29
short-header 28=02 36=00: Rank at 29
short-header 36=00 37=00: Count at 33
short-header 35=10 36=01: Count at 33
short-header 37=00 45=10: Name at 37
short-header 41=10 45=10: Rank at 39
short-header 38=6b 45=10: Rank at 43
short-header 42=01 47=02: Rank at 43
short-header 38=6b 47=02: Member at 37
short-header 46=02 47=02: Member at 37
short-header 47=02 51=01: Bool at 47
short-header 51=01: Level at 48
short-header 5=31 ..55: Short at 48
short-header 36=02: Short at 56
mixed-header 76=00: Order at 66
mixed-header 71=01 75=10: Order at 66
mixed-header 67=69 75=10: Order at 66
mixed-header 70=10 71=00: Rank at 68
mixed-header 71=03 75=03: Member at 66
mixed-header 75=03 76=02: Member at 66
mixed-header 76=02 80=01: Bool at 76
mixed-header 76=00 80=01: Level at 77
mixed-header 42=03 103=01: Rank at 39
mixed-header 46=02: Long at 85
mixed-header 46=04: Short at 104
mixed-ask 9=40: Node at 6
mixed-ask 38=02 41=10: Order at 33
mixed-ask 38=01 41=10: Order at 33
mixed-ask 34=69 41=10: Order at 33
mixed-ask 34=69 37=10: Rank at 35
mixed-ask 31=0f 32=ff 34=6b: Count at 39
mixed-ask 31=0f 32=ff 34=6b 41=10: Rank at 39
mixed-ask 22=01: Long at 33
mixed-ask 22=03: Short at 43
mixed-ask 5=24 ..42: Short at 39
refresh-none 40=02: Range at 25
refresh-none 40=04 44=01: Short at 45
";

// The fault of these bytes, which is found with the last of them.
fn last_fault(rt: &impl Abort, alloc: Global, bytes: &[u8]) -> Option<Fault> {
    let (last, front) = bytes.split_last().unwrap_or((&0, &[]));
    let mut stream = Stream::new(alloc);
    assert_fed(rt, &mut stream, front, 0);
    let fed = stream.feed(&[*last]).expect(rt, MEMORY);
    assert!(rt; fed.frames.is_empty());
    fed.fault
}

// The text of the fault.
fn fault_text(rt: &impl Abort, alloc: Global, fault: Option<Fault>) -> String {
    match fault {
        Some(fault) => format!(in alloc; "{fault}").expect(rt, MEMORY),
        None => String::new(alloc),
    }
}

#[test]
fn the_first_fault_is_found_with_its_last_byte(rt: HostRuntime) {
    let alloc = rt.alloc();
    for line in FAULTS.lines() {
        let (text, want) = line.split_once(": ").unwrap_or(("", ""));
        let fault = last_fault(&rt, alloc, &edit_frame(&rt, alloc, text));
        assert_eq!(rt; fault_text(&rt, alloc, fault).as_str(), want, "{line}");
    }
}

// Fences of which each is less than those after it.
fn rising(rt: &impl Abort, alloc: Global) -> [FenceName; 6] {
    [
        fence_name(rt, alloc, &[0], false, 9),
        fence_name(rt, alloc, &[0], true, 1),
        fence_name(rt, alloc, &[0], true, 2),
        fence_name(rt, alloc, &[1, 0], false, 1),
        fence_name(rt, alloc, &[2, 0], false, 1),
        fence_name(rt, alloc, &[1], false, 1),
    ]
}

// Whether the fence is less than those after that place, and greater than those before it.
fn stands_at(fences: &[FenceName], place: usize, fence: &FenceName) -> bool {
    for (i, other) in fences.iter().enumerate() {
        if fence.cmp(other) != place.cmp(&i) || (fence == other) != (place == i) {
            return false;
        }
    }
    true
}

#[test]
fn fences_rise_by_participants_collecting_and_instance(rt: HostRuntime) {
    let fences = rising(&rt, rt.alloc());
    for (place, fence) in fences.iter().enumerate() {
        assert!(rt; stands_at(&fences, place, fence));
    }
}
