//! The cost of fences, reads and headers: each line on standard input is a number and, unless it is of fences, the name of the work to
//! repeat.
#![tactic(auto)]

mod calls;
mod fences;
mod headers;
mod processes;
mod reads;

use crate::headers::Way;
use pmg_value::Refusal;
use std::alloc::Global;
use std::io;
use std::sync::Wait;

/// The work that a line repeats.
#[derive(Clone, Copy, PartialEq)]
enum Work {
    Fences,
    Reads,
    LockedReads,
    ReadsOfClient,
    Headers(Way, u8),
}

impl Work {
    /// Returns the text that is printed after the number.
    fn name(self) -> &'static str {
        match self {
            Work::Fences => "fences of 32 participants released",
            Work::Reads => "reads of 100 processes without a lock",
            Work::LockedReads => "reads of 100 processes under a lock",
            Work::ReadsOfClient => "reads of 100 processes by a client",
            Work::Headers(Way::Written, _) => "headers of 4095 ranks written",
            Work::Headers(Way::Read, _) => "headers of 4095 ranks read",
            Work::Headers(Way::Delivered, _) => "headers of 4095 ranks delivered",
        }
    }
}

fn main(rt: HostRuntime) -> io::Result<()> {
    let alloc = rt.alloc();
    for line in rt.lines(alloc) {
        let line = line?;
        let (work, number) = work_of(line.as_str());
        match times_done(&rt, alloc, work, number) {
            Ok(count) => println!(rt; "{count} {}", work.name())?,
            Err(refusal) => println!(rt; "{refusal}")?,
        }
    }
    Ok(())
}

/// Returns the work of the line, and the text of the number.
fn work_of(line: &str) -> (Work, &str) {
    if let Some(number) = line.strip_suffix(" reads") {
        return (Work::Reads, number);
    }
    if let Some(number) = line.strip_suffix(" locked") {
        return (Work::LockedReads, number);
    }
    if let Some(number) = line.strip_suffix(" now") {
        return (Work::ReadsOfClient, number);
    }
    match line.split_once(" headers ") {
        Some((number, how)) => (headers_of(how), number),
        None => (Work::Fences, line),
    }
}

/// Returns the work on headers with this name: in version 2 of frames unless the name ends in 1.
fn headers_of(how: &str) -> Work {
    let version = if how.strip_suffix(" 1").is_some() {
        1
    } else {
        2
    };
    if how.starts_with("written") {
        return Work::Headers(Way::Written, version);
    }
    if how.starts_with("read") {
        return Work::Headers(Way::Read, version);
    }
    Work::Headers(Way::Delivered, version)
}

/// Does the work as often as the text says, and returns how often it succeeded. Errors: `BadParam` if the text is no number; the refusals
/// of the work.
fn times_done<R: Wait>(rt: &R, alloc: Global, work: Work, text: &str) -> Result<u64, Refusal> {
    let Ok(count) = text.parse::<u64>() else {
        return Err(Refusal::BadParam);
    };
    match work {
        Work::Fences => fences_released(alloc, count),
        Work::Reads => reads::read_published(rt, alloc, count),
        Work::LockedReads => reads::read_locked(rt, alloc, count),
        Work::ReadsOfClient => calls::read_now(rt, alloc, count),
        Work::Headers(way, version) => headers::run(alloc, way, version, count),
    }
}

/// Enters and releases so many fences, and returns the number of released fences: all of them, or zero.
fn fences_released(alloc: Global, count: u64) -> Result<u64, Refusal> {
    if fences::run(alloc, count)? {
        Ok(count)
    } else {
        Ok(0)
    }
}
