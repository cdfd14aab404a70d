//! What no clause says: that streams are read, merged and dumped, and what is left where a reader or a writer fails.
use crate::tests::making::MEMORY;
use crate::tests::spelled::{PIECE_DUMPED, edit_frame};
use pmg_store::{
    Failure, INPUT_LIMIT, WatchedReader, dump_stream, merge_inputs, merge_streams, read_input,
};
use pmg_value::{Cause, Refusal, WatchedWriter};
use std::alloc::Global;
use std::io;
use std::io::{ErrorKind, Read, Write};
use std::process::Abort;

// Gives one byte a read. The read of number `fails_at` fails with an error of that kind.
#[derive(Drop)]
struct Slow<'a> {
    left: &'a [u8],
    fails_at: usize,
    kind: ErrorKind,
}

impl Read for Slow<'_> {
    fn read(&mut self, buf: &mut [u8]) -> io::Result<usize> {
        if self.fails_at == 1 {
            return Err(io::Error::from(self.kind));
        }
        self.fails_at = self.fails_at.saturating_sub(1);
        match (self.left.split_first(), buf.first_mut()) {
            (Some((first, others)), Some(place)) => {
                *place = *first;
                self.left = others;
                Ok(1)
            }
            _ => Ok(0),
        }
    }
}

// Takes one byte a write, and fails once it holds as many as it may.
#[derive(Drop)]
struct Short {
    held: Vec<u8>,
    most: usize,
}

impl Write for Short {
    fn write(&mut self, buf: &[u8]) -> io::Result<usize> {
        match buf.first() {
            Some(first) if self.held.len() < self.most => {
                self.held.push(*first)?;
                Ok(1)
            }
            _ => Err(io::Error::from(ErrorKind::StorageFull)),
        }
    }

    fn flush(&mut self) -> io::Result<()> {
        Ok(())
    }
}

// A writer that keeps the text of a small dump.
fn page(rt: &impl Abort, alloc: Global) -> WatchedWriter<Vec<u8>> {
    WatchedWriter::new(Vec::with_capacity(alloc, 64).expect(rt, MEMORY))
}

// The failure of a call, where memory was not wanting.
fn with_memory(rt: &impl Abort, failure: Option<Failure>) -> Option<Failure> {
    let known = match failure {
        Some(Failure::Refused(Refusal::NoMemory)) => Err(Refusal::NoMemory),
        other => Ok(other),
    };
    known.expect(rt, MEMORY)
}

#[test]
fn a_failed_read_leaves_nothing_written(rt: HostRuntime) {
    let alloc = rt.alloc();
    let bytes = edit_frame(&rt, alloc, "piece");
    for fails_at in 1..=46 {
        let kind = match fails_at % 3 {
            0 => ErrorKind::Other,
            1 => ErrorKind::Interrupted,
            _ => ErrorKind::UnexpectedEof,
        };
        let left = bytes.as_slice();
        let mut reader = WatchedReader::new(Slow {
            left,
            fails_at,
            kind,
        });
        let mut writer = page(&rt, alloc);
        let failure = with_memory(&rt, dump_stream(alloc, &mut reader, &mut writer).err());
        assert!(rt; failure == Some(Failure::Read) && writer.into_inner().is_empty());
        assert!(rt; matches!(reader.failure(), Some(error) if error.kind() == kind));
        assert!(rt; reader.reads() == fails_at);
    }
}

#[test]
fn a_failed_write_leaves_a_prefix(rt: HostRuntime) {
    let alloc = rt.alloc();
    let bytes = edit_frame(&rt, alloc, "piece");
    for most in 0..=31 {
        let held = Vec::with_capacity(alloc, most).expect(&rt, MEMORY);
        let mut reader = WatchedReader::new(bytes.as_slice());
        let mut writer = WatchedWriter::new(Short { held, most });
        let failure = with_memory(&rt, dump_stream(alloc, &mut reader, &mut writer).err());
        assert!(rt; failure == (most < 31).then_some(Failure::Write));
        assert!(rt; Some(writer.into_inner().held.as_slice()) == PIECE_DUMPED.get(..most));
    }
}

// Requires that a merge of the two streams writes the piece: as readers, and as inputs in memory.
fn assert_merged(rt: &impl Abort, alloc: Global, first: &[u8], second: &[u8]) {
    let mut readers = [WatchedReader::new(first), WatchedReader::new(second)];
    let mut read = page(rt, alloc);
    merge_streams(alloc, &mut readers, &mut read).expect(rt, MEMORY);
    assert!(rt; read.into_inner().as_slice() == PIECE_DUMPED.as_slice());
    let inputs = [
        Vec::from_slice(alloc, first).expect(rt, MEMORY),
        Vec::from_slice(alloc, second).expect(rt, MEMORY),
    ];
    let mut held = page(rt, alloc);
    merge_inputs(alloc, &inputs, &mut held).expect(rt, MEMORY);
    assert!(rt; held.into_inner().as_slice() == PIECE_DUMPED.as_slice());
}

// How a merge of the two streams fails.
fn merge_fault(rt: &impl Abort, alloc: Global, first: &[u8], second: &[u8]) -> Option<Failure> {
    let mut readers = [WatchedReader::new(first), WatchedReader::new(second)];
    with_memory(
        rt,
        merge_streams(alloc, &mut readers, &mut page(rt, alloc)).err(),
    )
}

#[test]
fn streams_are_merged_up_to_a_fault(rt: HostRuntime) {
    let alloc = rt.alloc();
    let whole = edit_frame(&rt, alloc, "piece");
    let none = Vec::new(alloc);
    for (first, second) in [(&whole, &none), (&none, &whole), (&whole, &whole)] {
        assert_merged(&rt, alloc, first, second);
    }
    let cut = edit_frame(&rt, alloc, "piece ..44");
    let late = merge_fault(&rt, alloc, &whole, &cut);
    assert!(rt; matches!(late, Some(Failure::InStream(2, fault)) if fault.cause == Cause::Cut));
    let early = merge_fault(&rt, alloc, &cut, b"\x03\x01\x00\x00\x00\x00");
    assert!(rt; matches!(early, Some(Failure::InStream(1, fault)) if fault.cause == Cause::Cut));
}

// Gives as many bytes as are left, which are those that lie there.
#[derive(Drop)]
struct Long(usize);

impl Read for Long {
    fn read(&mut self, buf: &mut [u8]) -> io::Result<usize> {
        let given = self.0.min(buf.len());
        self.0 -= given;
        Ok(given)
    }
}

#[test]
fn input_is_read_up_to_its_limit(rt: HostRuntime) {
    let alloc = rt.alloc();
    let text = vec![in alloc; 7u8; 200_000].expect(&rt, MEMORY);
    assert!(rt;
        read_input(alloc, &mut WatchedReader::new(text.as_slice())).expect(&rt, MEMORY) == text
    );

    let mut whole = WatchedReader::new(Long(INPUT_LIMIT));
    assert!(rt;
        read_input(alloc, &mut whole).expect(&rt, MEMORY).len() == INPUT_LIMIT
            && whole.reads() == 1025
    );

    let mut longer = WatchedReader::new(Long(INPUT_LIMIT + 10));
    let failure = with_memory(&rt, read_input(alloc, &mut longer).err());
    let too_long = Refusal::bad_frame(67_108_864, Cause::Input);
    assert!(rt; failure == Some(Failure::Refused(too_long)));
    assert!(rt; longer.reads() == 1025 && !longer.has_failed());
}
