//! What no clause says of links: that two of them answer their processes while the bytes of their frames go over in small pieces,
//! and what an inbox says of bytes that are no frames, and of frames that nobody delivers.
use crate::tests::nodes::group::registry;
use crate::tests::nodes::text::{as_text, put_answer};
use crate::tests::nodes::words::{MEMORY, batch, number, process, request, word, words_of};
use pmg_link::{Inbox, Link};
use pmg_node::{Act, Server};
use pmg_value::{NodeId, Refusal};
use std::alloc::Global;
use std::process::Abort;

// Lines, each of which names a node and what a process calls there, and after each the reply. After
// each line all frames go over, three bytes at a time.
const LINES: &[(&str, &str)] = &[
    ("0 commit j0 global a 7", "commit 1\n"),
    ("1 now j1 j0 a", "NotFound\n"),
    ("0 enter j0 collect", "entered 1\n"),
    ("0 leave j0", "waiting\n"),
    ("1 leave j1", "idle\n"),
    ("1 enter j1 collect", "entered 1\n"),
    ("0 leave j0", "released 1 gone -\n"),
    ("1 leave j1", "released 1 gone -\n"),
    ("1 now j1 j0 a", "found u8:7\n"),
    ("0 wait j0 j1 b", "parked\n"),
    ("1 commit j1 global b 9", "commit 1\n"),
    ("0 take j0", "found u8:9\n"),
    ("1 end j1", "ended 2\n"),
    ("1 enter j1 collect", "Terminated\n"),
];

// The link of the node of that number, in a group of two.
fn link(rt: &impl Abort, alloc: Global, index: u32) -> Link {
    let registry = registry(alloc, 2, &[0, 1]).expect(rt, MEMORY);
    let id = NodeId::new(index).expect(rt, MEMORY);
    assert!(rt; registry.has_node(id));
    Link::new(Server::new(id, registry).expect(rt, MEMORY))
}

// The act of the words.
fn act_of(rt: &impl Abort, alloc: Global, words: &[&str]) -> Act {
    if word(words, 1) == "commit" {
        let proc = process(alloc, word(words, 2)).expect(rt, MEMORY);
        return Act::Commit(proc, batch(rt, alloc, words));
    }
    let request = request(alloc, words).expect(rt, MEMORY);
    Act::Request(request.expect(rt, "a request"))
}

// The line of the link's reply to the act of the words, which is asked again where an allocation fails.
fn reply_line(rt: &impl Abort, alloc: Global, link: &mut Link, words: &[&str]) -> Vec<u8> {
    let act = act_of(rt, alloc, words);
    let mut answer = link.act(&act);
    if matches!(answer, Err(Refusal::NoMemory)) {
        answer = Ok(link.act(&act).expect(rt, MEMORY));
    }
    let mut text = Vec::new(alloc);
    put_answer(&mut text, &answer, alloc).expect(rt, MEMORY);
    text
}

// The link takes all that waits in the inbox.
fn deliver_all(rt: &impl Abort, link: &mut Link, inbox: &mut Inbox) {
    for _ in 0..inbox.waiting() {
        let reply = link.deliver_next(inbox).expect(rt, MEMORY);
        assert!(rt; reply.is_some());
    }
    assert!(rt; link.deliver_next(inbox).expect(rt, MEMORY).is_none());
}

// All frames of the one link that wait go to the other.
fn carry(rt: &impl Abort, alloc: Global, from: &mut Link, to: &mut Link, inbox: &mut Inbox) {
    for _ in 0..from.waiting() {
        let sent = from.outbox().expect(rt, "a frame");
        let bytes = sent.frame.encode(alloc).expect(rt, MEMORY);
        for part in bytes.chunks(3) {
            inbox.feed(part).expect(rt, MEMORY);
            deliver_all(rt, to, inbox);
        }
    }
}

#[test]
fn two_links_answer(rt: HostRuntime) {
    let alloc = rt.alloc();
    let mut links = (link(&rt, alloc, 0), link(&rt, alloc, 1));
    let mut inboxes = (Inbox::new(alloc), Inbox::new(alloc));
    for (line, want) in LINES {
        let words = words_of(alloc, line).expect(&rt, MEMORY);
        let reply = match number(&words, 0) {
            0 => reply_line(&rt, alloc, &mut links.0, &words),
            _ => reply_line(&rt, alloc, &mut links.1, &words),
        };
        assert_eq!(&rt; (*line, as_text(&reply)), (*line, *want));
        for _ in 0..3 {
            carry(&rt, alloc, &mut links.0, &mut links.1, &mut inboxes.1);
            carry(&rt, alloc, &mut links.1, &mut links.0, &mut inboxes.0);
        }
    }
    assert!(&rt; links.0.waiting() == 0 && links.1.waiting() == 0);
}

#[test]
fn an_inbox_is_full_until_its_frames_are_delivered(rt: HostRuntime) {
    let alloc = rt.alloc();
    let mut zero = link(&rt, alloc, 0);
    let words = words_of(alloc, "0 wait j0 j1 b").expect(&rt, MEMORY);
    let _ = reply_line(&rt, alloc, &mut zero, &words);
    let sent = zero.outbox().expect(&rt, "a frame");
    let bytes = sent.frame.encode(alloc).expect(&rt, MEMORY);
    let mut one = link(&rt, alloc, 1);
    let mut inbox = Inbox::new(alloc);
    inbox.feed(&bytes).expect(&rt, MEMORY);
    assert!(&rt; inbox.waiting() == 1 && inbox.fault().is_none());
    assert!(&rt; matches!(inbox.feed(&bytes), Err(Refusal::Busy)));
    deliver_all(&rt, &mut one, &mut inbox);
    inbox.feed(b"\x09\x01\0\0\0\0").expect(&rt, MEMORY);
    assert!(&rt; inbox.waiting() == 0 && inbox.fault().is_some_and(|fault| fault.offset == 24));
    assert!(&rt; matches!(inbox.feed(&bytes), Err(Refusal::Closed)));
}
