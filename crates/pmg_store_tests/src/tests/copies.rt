//! What no clause says of the copy of a stream: that it is made where there is memory, and goes on by itself.
use crate::tests::making::MEMORY;
use crate::tests::spelled::edit_frame;
use pmg_frame::Stream;
use std::process::Abort;

// How many frames these bytes make whole, and whether no part of a frame is left then.
fn feed(rt: &impl Abort, stream: &mut Stream, bytes: &[u8]) -> (usize, bool) {
    let fed = stream.feed(bytes).expect(rt, MEMORY);
    let (frames, _fault) = fed.into_parts();
    (frames.len(), stream.finish().is_ok())
}

#[test]
fn a_copy_of_a_stream_goes_on_by_itself(rt: HostRuntime) {
    let bytes = edit_frame(&rt, rt.alloc(), "piece");
    let head = bytes.get(..20).unwrap_or(&[]);
    let tail = bytes.get(20..).unwrap_or(&[]);
    let mut stream = Stream::new(rt.alloc());
    assert!(rt; feed(&rt, &mut stream, head) == (0, false));
    let mut copy = stream.copy().expect(&rt, MEMORY);
    assert!(rt; feed(&rt, &mut stream, tail) == (1, true));
    assert!(rt; feed(&rt, &mut copy, &[]) == (0, false));
    assert!(rt; feed(&rt, &mut copy, tail) == (1, true));
}
