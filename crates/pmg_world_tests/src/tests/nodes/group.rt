//! The nodes of a group, and scripts of what they do, line by line.
use crate::tests::nodes::text::{as_text, put, put_answer, put_line, put_sent};
use crate::tests::nodes::words::{
    MEMORY, batch, frame, key, number, process, request, word, words_of,
};
use pmg_jobinfo::Registry;
use pmg_node::{Act, Reply, Server, Status};
use pmg_node_model::Sent;
use pmg_value::{Items, NodeId, Nspace, Refusal, WatchedWriter};
use std::alloc::Global;
use std::collections::VecDeque;
use std::process::Abort;

/// A name, the number of nodes of a group, at most three, the nodes where the processes of its
/// namespace j are at home, and scripts that are played there one after another.
///
/// After each line of a script stands what is to come of it, a blank before each line of that. A
/// line names the node first.
pub(crate) type Row = (&'static str, usize, &'static [u32], &'static [&'static str]);

// The nodes of a group, and all frames that they sent.
#[derive(Drop)]
struct Group {
    alloc: Global,
    nodes: Vec<Server>,
    sent: VecDeque<Sent>,
}

// The nodes of these indices.
fn node_ids(alloc: Global, indices: &[u32]) -> Result<Vec<NodeId>, Refusal> {
    let mut nodes = Vec::new(alloc);
    for index in indices {
        nodes.push(NodeId::new(*index)?)?;
    }
    Ok(nodes)
}

/// A registry of this many nodes, at most three, and of namespace j, whose processes are at home at
/// these nodes.
pub(crate) fn registry(alloc: Global, count: usize, homes: &[u32]) -> Result<Registry, Refusal> {
    let names: [&[u8]; 3] = [b"n0", b"n1", b"n2"];
    let Some(names) = names.get(..count) else {
        return Err(Refusal::BadParam);
    };
    let mut registry = Registry::new(alloc, names)?;
    registry.register(Nspace::read(alloc, b"j")?, &node_ids(alloc, homes)?)?;
    Ok(registry)
}

// The node of that number, of which no process has called.
fn node_of(rt: &impl Abort, registry: &Registry, id: NodeId) -> Server {
    let registry = registry.copy().expect(rt, MEMORY);
    assert!(rt; registry.has_node(id));
    Server::new(id, registry).expect(rt, MEMORY)
}

fn nodes_of(rt: &impl Abort, registry: &Registry) -> Vec<Server> {
    let mut nodes = Vec::new(registry.allocator());
    for index in 0..registry.node_count() {
        let id = NodeId::new(index as u32).expect(rt, MEMORY);
        nodes.push(node_of(rt, registry, id)).expect(rt, MEMORY);
    }
    nodes
}

// How the process stands.
fn status(rt: &impl Abort, node: &Server, proc: &str, alloc: Global) -> &'static str {
    let proc = process(alloc, proc).expect(rt, MEMORY);
    match node.status(&proc) {
        Status::Stranger => "stranger",
        Status::Idle => "idle",
        Status::InFence => "in fence",
        Status::Released => "released",
        Status::Parked => "parked",
        Status::Answered => "answered",
        Status::Ended => "ended",
    }
}

// Puts the texts of the members.
fn put_items(rt: &impl Abort, text: &mut Vec<u8>, members: Items<'_>, alloc: Global) {
    put(text, "members").expect(rt, MEMORY);
    for i in 0..members.len() {
        let member = members.get(i).value().to_text(alloc).expect(rt, MEMORY);
        put(text, " ").expect(rt, MEMORY);
        text.extend_from_slice(&member).expect(rt, MEMORY);
    }
    put(text, "\n").expect(rt, MEMORY);
}

// Puts who belongs to the set, or why it is not told.
fn put_members(rt: &impl Abort, text: &mut Vec<u8>, node: &Server, name: &str, alloc: Global) {
    let name = key(alloc, name).expect(rt, MEMORY);
    match node.set_members(&name) {
        Ok(members) => put_items(rt, text, members.items(), alloc),
        Err(refusal) => put_line(text, refusal.name()).expect(rt, MEMORY),
    }
}

// What the node has to tell to other nodes.
fn dump_lines(rt: &impl Abort, alloc: Global, node: &Server) -> Vec<u8> {
    let mut writer = WatchedWriter::new(Vec::new(alloc));
    // A list fails to take a text where memory runs out, and nowhere else.
    let dumped = match node.board().far().dump(&mut writer) {
        Ok(()) => Ok(()),
        Err(_) => Err(Refusal::NoMemory),
    };
    dumped.expect(rt, MEMORY);
    writer.into_inner()
}

// Puts the line, and the lines of what comes of it with a blank before each.
fn put_played(rt: &impl Abort, text: &mut Vec<u8>, line: &str, found: &[u8]) {
    put_line(text, line).expect(rt, MEMORY);
    for line in as_text(found).lines() {
        put(text, " ").expect(rt, MEMORY);
        put_line(text, line).expect(rt, MEMORY);
    }
}

// What the node replies to the act, or why it is refused.
fn reply_to(node: &mut Server, act: &Act, sent: &mut VecDeque<Sent>) -> Result<Reply, Refusal> {
    let acted = node.act_into(act, sent)?;
    Ok(acted.reply)
}

impl Group {
    // The group of that registry: none of its processes has called.
    fn new(rt: &impl Abort, registry: &Registry) -> Group {
        let alloc = registry.allocator();
        Group {
            alloc,
            nodes: nodes_of(rt, registry),
            sent: VecDeque::new(alloc),
        }
    }

    // The node of that number.
    fn node(&self, rt: &impl Abort, at: usize) -> &Server {
        self.nodes.get(at).expect(rt, "a node")
    }

    // The delivery of the frame that was sent to the node as the one of that number, from 1.
    fn delivery(&self, rt: &impl Abort, at: usize, number: usize) -> Act {
        let sent = self.sent.get(number.wrapping_sub(1)).expect(rt, "a frame");
        assert!(rt; sent.to.index() as usize == at);
        Act::Deliver(sent.frame.copy().expect(rt, MEMORY))
    }

    // The commit of the words.
    fn commit(&self, rt: &impl Abort, words: &[&str]) -> Act {
        let puts = batch(rt, self.alloc, words);
        let proc = process(self.alloc, word(words, 2)).expect(rt, MEMORY);
        Act::Commit(proc, puts)
    }

    // The delivery of the frame of the words, if they are those of one.
    fn arrival(&self, rt: &impl Abort, words: &[&str]) -> Option<Act> {
        match frame(rt, self.alloc, words) {
            Some(frame) => Some(Act::Deliver(frame)),
            None => None,
        }
    }

    // The act of the words, unless they only look.
    fn act(&self, rt: &impl Abort, at: usize, words: &[&str]) -> Option<Act> {
        match word(words, 1) {
            "commit" => Some(self.commit(rt, words)),
            "deliver" => Some(self.delivery(rt, at, number(words, 2) as usize)),
            _ => match request(self.alloc, words).expect(rt, MEMORY) {
                Some(request) => Some(Act::Request(request)),
                None => self.arrival(rt, words),
            },
        }
    }

    // All that is seen of the node: what is known to other nodes, how each process stands, and what
    // was sent.
    fn text_seen(&self, rt: &impl Abort, at: usize) -> Vec<u8> {
        let node = self.node(rt, at);
        let mut text = dump_lines(rt, self.alloc, node);
        for proc in ["j0", "j1", "j2", "j3"] {
            put_line(&mut text, status(rt, node, proc, self.alloc)).expect(rt, MEMORY);
        }
        self.put_sent_after(rt, &mut text, 0);
        text
    }

    // Puts the lines of the frames that were sent after so many.
    fn put_sent_after(&self, rt: &impl Abort, text: &mut Vec<u8>, before: usize) {
        for sent in self.sent.iter().skip(before) {
            put_sent(text, sent, self.alloc).expect(rt, MEMORY);
        }
    }

    // The node does the act: the reply, or why it is refused.
    fn act_once(&mut self, rt: &impl Abort, at: usize, act: &Act) -> Result<Reply, Refusal> {
        let node = self.nodes.get_mut(at).expect(rt, "a node");
        reply_to(node, act, &mut self.sent)
    }

    // The same. Where an allocation of the act fails, nothing that is seen may change, and the act
    // is asked for again.
    fn answer(&mut self, rt: &impl Abort, at: usize, act: &Act) -> Result<Reply, Refusal> {
        let before = self.text_seen(rt, at);
        let answer = self.act_once(rt, at, act);
        if matches!(answer, Err(Refusal::NoMemory)) && self.text_seen(rt, at) == before {
            return self.act_once(rt, at, act);
        }
        answer
    }

    // The lines of what the act is answered with, and of the frames that are sent with it.
    fn act_lines(&mut self, rt: &impl Abort, at: usize, act: &Act) -> Vec<u8> {
        let before = self.sent.len();
        let mut text = Vec::new(self.alloc);
        let answer = self.answer(rt, at, act);
        put_answer(&mut text, &answer, self.alloc).expect(rt, MEMORY);
        self.put_sent_after(rt, &mut text, before);
        text
    }

    // The lines of what is looked at.
    fn look(&self, rt: &impl Abort, at: usize, words: &[&str]) -> Vec<u8> {
        let node = self.node(rt, at);
        let what = word(words, 1);
        if what == "dump" {
            return dump_lines(rt, self.alloc, node);
        }
        let mut text = Vec::new(self.alloc);
        if what == "members" {
            put_members(rt, &mut text, node, word(words, 2), self.alloc);
        } else {
            assert_eq!(rt; what, "status");
            let status = status(rt, node, word(words, 2), self.alloc);
            put_line(&mut text, status).expect(rt, MEMORY);
        }
        text
    }

    // What comes of a line: its words name the node, and then what is done there.
    fn play(&mut self, rt: &impl Abort, line: &str) -> Vec<u8> {
        let words = words_of(self.alloc, line).expect(rt, MEMORY);
        let at = number(&words, 0) as usize;
        match self.act(rt, at, &words) {
            Some(act) => self.act_lines(rt, at, &act),
            None => self.look(rt, at, &words),
        }
    }

    // Plays those lines of the script that begin with no blank, and gives each with what comes of
    // it.
    fn transcript(&mut self, rt: &impl Abort, script: &str) -> Vec<u8> {
        let mut text = Vec::new(self.alloc);
        for line in script.lines() {
            if !line.starts_with(' ') {
                put_played(rt, &mut text, line, &self.play(rt, line));
            }
        }
        text
    }

    // What comes of each line of the scripts is what stands after it there.
    fn plays(&mut self, rt: &impl Abort, name: &str, scripts: &[&str]) {
        for script in scripts {
            let text = self.transcript(rt, script);
            assert_eq!(rt; (name, as_text(&text)), (name, *script));
        }
    }
}

/// The scripts of each row come out on a group of its own.
pub(crate) fn play_all(rt: &impl Abort, alloc: Global, rows: &[Row]) {
    for (name, count, homes, scripts) in rows {
        let registry = registry(alloc, *count, homes).expect(rt, MEMORY);
        Group::new(rt, &registry).plays(rt, name, scripts);
    }
}
