//! How refusals are displayed, and what a writer holds that fails in mid-stream.
use crate::tests::making::MEMORY;
use pmg_value::{Cause, Fault, Refusal, WatchedWriter};
use std::alloc::Global;
use std::fmt::Display;
use std::io;
use std::io::{ErrorKind, Write};
use std::process::Abort;

// What these display, each with the text after it.
fn displayed<T: Display>(rt: &impl Abort, alloc: Global, shown: &[T], after: &str) -> String {
    let mut text = String::new(alloc);
    for one in shown {
        write!(text, "{one}{after}").expect(rt, MEMORY);
    }
    text
}

#[test]
fn refusals_show_their_numbers_and_names(rt: HostRuntime) {
    let refusals = [
        Refusal::NoMemory,
        Refusal::BadParam,
        Refusal::NotFound,
        Refusal::OutsideScope,
        Refusal::UnknownNamespace,
        Refusal::NotMine,
        Refusal::Busy,
        Refusal::Terminated,
        Refusal::NotAParticipant,
        Refusal::TooMany,
        Refusal::bad_frame(0, Cause::Hex),
        Refusal::Exists,
        Refusal::Collision,
        Refusal::Stale,
        Refusal::Unordered,
        Refusal::Closed,
    ];
    let want = "0 NoMemory, 1 BadParam, 2 NotFound, 3 OutsideScope, 4 UnknownNamespace, 5 NotMine, \
        6 Busy, 7 Terminated, 8 NotAParticipant, 9 TooMany, 10 BadFrame: Hex at 0, 11 Exists, \
        12 Collision, 13 Stale, 14 Unordered, 15 Closed, ";
    let text = displayed(&rt, rt.alloc(), &refusals, ", ");
    assert!(rt; text.as_str() == want);
}

const CAUSES: [Cause; 23] = [
    Cause::Version,
    Cause::Kind,
    Cause::Length,
    Cause::Short,
    Cause::Long,
    Cause::Name,
    Cause::Rank,
    Cause::Range,
    Cause::Count,
    Cause::Key,
    Cause::Order,
    Cause::Member,
    Cause::Number,
    Cause::Level,
    Cause::Node,
    Cause::Tag,
    Cause::Bool,
    Cause::Text,
    Cause::Size,
    Cause::Cut,
    Cause::Hex,
    Cause::Script,
    Cause::Input,
];

#[test]
fn causes_show_their_names(rt: HostRuntime) {
    let want =
        "Version Kind Length Short Long Name Rank Range Count Key Order Member Number Level Node \
        Tag Bool Text Size Cut Hex Script Input ";
    let text = displayed(&rt, rt.alloc(), &CAUSES, " ");
    assert!(rt; text.as_str() == want);
}

// Fails at one of its calls alone, is interrupted at each third, and else takes at most four bytes.
#[derive(Drop)]
struct Failing {
    held: Vec<u8>,
    calls: usize,
    fails_at: usize,
    kind: ErrorKind,
}

impl Write for Failing {
    fn write(&mut self, buf: &[u8]) -> io::Result<usize> {
        self.calls = self.calls.wrapping_add(1);
        if self.calls == self.fails_at {
            return match self.kind {
                ErrorKind::WriteZero => Ok(0),
                kind => Err(io::Error::from(kind)),
            };
        }
        if self.calls % 3 == 0 {
            return Err(io::Error::from(ErrorKind::Interrupted));
        }
        let taken = buf.len().min(4);
        self.held.extend_from_slice(&buf[..taken])?;
        Ok(taken)
    }

    fn flush(&mut self) -> io::Result<()> {
        self.calls = self.calls.wrapping_add(1);
        if self.calls == self.fails_at {
            return Err(io::Error::from(self.kind));
        }
        Ok(())
    }
}

const REFUSED: Refusal = Refusal::BadFrame(Fault {
    offset: 18446744073709551615,
    cause: Cause::Input,
});

const WHOLE: &[u8] = b"10 BadFrame: Input at 18446744073709551615!";

// Writes the text, and its last byte after a flush: whether each was done.
fn written(writer: &mut WatchedWriter<Failing>) -> (bool, bool) {
    let is_written = REFUSED.write_text(writer).is_ok();
    writer.flush();
    (is_written, writer.put_text(b"!").is_ok())
}

// A writer that fails at this call so.
fn writer_that_fails(
    rt: &impl Abort,
    alloc: Global,
    fails_at: usize,
    kind: ErrorKind,
) -> WatchedWriter<Failing> {
    let held = Vec::with_capacity(alloc, 64).expect(rt, MEMORY);
    WatchedWriter::new(Failing {
        held,
        calls: 0,
        fails_at,
        kind,
    })
}

// Whether the writer told that it failed so.
fn has_told(writer: &WatchedWriter<Failing>, kind: ErrorKind) -> bool {
    match writer.failure() {
        Some(failure) => failure.kind() == kind,
        None => false,
    }
}

// Whether a writer that fails at this call holds a prefix of the text then, and is not called
// again; or holds all of the text, if it was not called so often.
fn stops(rt: &impl Abort, alloc: Global, fails_at: usize, kind: ErrorKind) -> bool {
    let mut writer = writer_that_fails(rt, alloc, fails_at, kind);
    let (is_written, is_ended) = written(&mut writer);
    let is_told = has_told(&writer, kind);
    let failing = writer.into_inner();
    if failing.calls < fails_at {
        return is_written && is_ended && failing.held.as_slice() == WHOLE;
    }
    !is_ended && is_told && failing.calls == fails_at && WHOLE.starts_with(&failing.held)
}

#[test]
fn a_writer_that_failed_is_not_called_again(rt: HostRuntime) {
    for fails_at in 1..24 {
        assert!(rt; stops(&rt, rt.alloc(), fails_at, ErrorKind::StorageFull));
        assert!(rt; stops(&rt, rt.alloc(), fails_at, ErrorKind::WriteZero));
        assert!(rt; stops(&rt, rt.alloc(), fails_at, ErrorKind::WouldBlock));
    }
}
