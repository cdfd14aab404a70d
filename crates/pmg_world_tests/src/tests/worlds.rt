//! What no clause says: that events happen where there is memory, and that a world tells them; runs
//! whose answers were worked out by hand.
mod asked_again;

use crate::tests::nodes::group::registry;
use crate::tests::nodes::text::{as_text, put_line};
use crate::tests::nodes::words::{
    MEMORY, key, number, process, request, scope_of, value, word, words_of,
};
use pmg_value::Refusal;
use pmg_world::{Event, World, reply_line};
use std::alloc::Global;
use std::process::Abort;

// The event of the words, of which the first names the node.
fn event(alloc: Global, words: &[&str]) -> Result<Event, Refusal> {
    let node = number(words, 0);
    match word(words, 1) {
        "put" => {
            let proc = process(alloc, word(words, 2))?;
            let key = key(alloc, word(words, 4))?;
            Ok(Event::Put(proc, scope_of(word(words, 3)), key, value(words, 5)))
        }
        "commit" => Ok(Event::Commit(node, process(alloc, word(words, 2))?)),
        "deliver" => Ok(Event::Deliver(number(words, 2))),
        _ => match request(alloc, words)? {
            Some(request) => Ok(Event::Request(node, request)),
            None => Err(Refusal::BadParam),
        },
    }
}

// The event of a line.
fn event_of(alloc: Global, line: &str) -> Result<Event, Refusal> {
    let words = words_of(alloc, line)?;
    event(alloc, &words)
}

// Puts the events of the rows and the lines of their answers.
fn put_events(
    events: &mut Vec<Event>,
    answers: &mut Vec<u8>,
    alloc: Global,
    rows: &str,
) -> Result<(), Refusal> {
    for row in rows.lines() {
        if let Some((line, answer)) = row.split_once('|') {
            events.push(event_of(alloc, line)?)?;
            put_line(answers, answer)?;
        }
    }
    Ok(())
}

// The events of the rows, each up to a bar, and the lines of the answers that are wanted, each
// after it.
fn events(alloc: Global, rows: &str) -> Result<(Vec<Event>, Vec<u8>), Refusal> {
    let mut events = Vec::new(alloc);
    let mut answers = Vec::new(alloc);
    put_events(&mut events, &mut answers, alloc, rows)?;
    Ok((events, answers))
}

// Puts the lines of all answers of a world.
fn put_lines(text: &mut Vec<u8>, alloc: Global, world: &World) -> Result<(), Refusal> {
    for told in world.events() {
        let line = reply_line(Vec::new(alloc), false, &told.answer)?;
        text.extend_from_slice(&line)?;
    }
    Ok(())
}

// The lines of all answers of a world.
fn lines(alloc: Global, world: &World) -> Result<Vec<u8>, Refusal> {
    let mut text = Vec::new(alloc);
    put_lines(&mut text, alloc, world)?;
    Ok(text)
}

// These events happen. Where an allocation fails, the world stands after the events that it tells
// of, and the others happen then.
fn run(rt: &impl Abort, world: &mut World, events: &[Event]) {
    if let Err(failed) = world.run(events) {
        let told = world.events().len();
        let left = events.get(told..).unwrap_or(events);
        assert!(rt; told == failed.done);
        assert!(rt; world.run(left).is_ok());
    }
}

// What these events are answered with, from the start on.
fn answers(rt: &impl Abort, alloc: Global, events: &[Event]) -> Vec<u8> {
    let registry = registry(alloc, 2, &[0, 1]).expect(rt, MEMORY);
    let mut world = World::new(&registry).expect(rt, MEMORY);
    run(rt, &mut world, events);
    lines(alloc, &world).expect(rt, MEMORY)
}

// The events of the rows are answered as is wanted, in a group of two nodes with one process of
// namespace j each.
fn happens(rt: &impl Abort, alloc: Global, rows: &str) {
    let (events, wanted) = events(alloc, rows).expect(rt, MEMORY);
    let text = answers(rt, alloc, &events);
    assert_eq!(rt; as_text(&text), as_text(&wanted));
}

// Process 1 puts, commits and enters; its header and its commit reach node 0, where process 0
// entered.
const MEETING: &str = "\
1 put j1 global a 7|ok
1 commit j1|commit 1
0 enter j0 collect|entered 1
1 enter j1 collect|entered 1
0 leave j0|waiting
- deliver 1|delivered 1
- deliver 2|delivered 1
- deliver 3|delivered 1
1 leave j1|released 1 gone -
0 leave j0|released 1 gone -
0 now j0 j1 a|found u8:7
";

#[test]
fn both_meet(rt: HostRuntime) {
    happens(&rt, rt.alloc(), MEETING);
}

// A node and frames that are not there, and a process that is at home elsewhere.
const STRANGE: &str = "\
2 commit j0|refused 1 BadParam
4294967296 commit j0|refused 1 BadParam
- deliver 0|refused 1 BadParam
- deliver 1|refused 1 BadParam
1 leave j0|refused 5 NotMine
0 leave j0|idle
";

#[test]
fn nothing_is_there(rt: HostRuntime) {
    happens(&rt, rt.alloc(), STRANGE);
}

// What no commit sealed is seen by nobody but the process itself; a refused put changes nothing.
const PUTS: &str = "\
0 put j0 global a 1|ok
0 put j0 undef a 2|refused 1 BadParam
0 now j0 j0 a|found u8:1
0 commit j0|commit 1
0 put j0 global a 3|ok
0 now j0 j0 a|found u8:3
1 now j1 j0 a|refused 2 NotFound
";

#[test]
fn puts_are_sealed_by_commits(rt: HostRuntime) {
    happens(&rt, rt.alloc(), PUTS);
}
