//! Audits that are asked for again where an allocation failed in them. This test passes whichever allocation fails.
use crate::tests::accounts::{Accounts, NO_CHANGE};
use crate::tests::fences;
use pmg_audit::Run;
use pmg_node::Request;
use pmg_value::Refusal;
use pmg_world::{Event, reply_line};
use std::alloc::Global;
use std::process::Abort;
use std::str;

// The answer, asked for a second time where an allocation failed.
macro_rules! again {
    ($call:expr) => {
        match $call {
            Err(Refusal::NoMemory) => $call,
            answer => answer,
        }
    };
}

// What happened, as a word and a blank.
fn word_of(event: &Event) -> &'static [u8] {
    match event {
        Event::Put(..) => b"put ".as_slice(),
        Event::Commit(..) => b"commit ".as_slice(),
        Event::Request(_, Request::Enter(..)) => b"enter ".as_slice(),
        Event::Request(_, Request::Leave(..)) => b"leave ".as_slice(),
        Event::Request(..) => b"? ".as_slice(),
        Event::Deliver(_) => b"deliver ".as_slice(),
    }
}

// A line for each event of the run: what happened, and the answer.
fn lines(alloc: Global, run: &Run) -> Result<Vec<u8>, Refusal> {
    let mut text = Vec::new(alloc);
    for told in run.events() {
        text.extend_from_slice(word_of(&told.event))?;
        text.extend_from_slice(&reply_line(Vec::new(alloc), false, &told.answer)?)?;
    }
    Ok(text)
}

// The events of both nodes in one order, in which each frame is delivered after it was sent.
const TWO_FENCES: &str = "\
put ok
put ok
commit commit 1
enter entered 1
enter entered 1
deliver delivered 1
leave released 1 gone -
enter entered 2
deliver delivered 1
leave waiting
deliver delivered 1
leave released 1 gone -
enter entered 2
deliver delivered 1
leave released 2 gone -
";

#[test]
fn an_audit_gives_the_run(rt: HostRuntime) -> Result<(), Refusal> {
    let alloc = rt.alloc();
    let texts = [fences::AT_ZERO, fences::AT_ONE];
    let both = again!(Accounts::new(alloc, texts, &NO_CHANGE))?;
    let run = again!(both.run())?;
    let text = again!(lines(alloc, &run))?;
    assert_eq!(rt; str::from_utf8(&text).unwrap_or("no text"), TWO_FENCES);
    Ok(())
}
