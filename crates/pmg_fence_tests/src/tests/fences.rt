//! What no clause says: that each call gives its answer where there is memory; and whole fences over tables whose headers
//! are handed across, with answers found by hand.
use crate::tests::making::{MEMORY, process};
use pmg_fence::Table;
use pmg_frame::{FenceName, Header, Signature};
use pmg_jobinfo::Registry;
use pmg_value::{NodeId, Nspace, Proc};
use std::alloc::Global;
use std::process::Abort;

mod back;
mod old;

// Three nodes. The processes of rank 0 and 1 of j are at home at the nodes of their numbers, that of rank 2 at node 1, and
// that of rank 3 at node 2.
#[derive(Drop)]
struct Group {
    zero: Table,
    one: Table,
    two: Table,
}

// A fence of the first processes of j.
#[derive(Clone, Copy)]
struct Meeting {
    alloc: Global,
    count: u32,
    collect: bool,
}

impl Meeting {
    // A fence of so many processes, which collects data or not.
    fn of(alloc: Global, count: u32, collect: bool) -> Meeting {
        Meeting {
            alloc,
            count,
            collect,
        }
    }

    fn signature(self, rt: &impl Abort) -> Signature {
        let mut list = Vec::new(self.alloc);
        for rank in 0..self.count {
            list.push(process(rt, self.alloc, rank)).expect(rt, MEMORY);
        }
        Signature::new(list, self.collect).expect(rt, MEMORY)
    }

    fn name(self, rt: &impl Abort, instance: u64) -> FenceName {
        FenceName::new(self.signature(rt), instance).expect(rt, MEMORY)
    }

    // The process of that rank enters its next such fence.
    fn enter(self, rt: &impl Abort, table: &mut Table, rank: u32, level: u64) -> u64 {
        let signature = self.signature(rt);
        let proc = process(rt, self.alloc, rank);
        let entry = table.enter(&signature, &proc, level % 10);
        entry.expect(rt, MEMORY)
    }

    // Whether the fence is ready, where all commits up to the level are known.
    fn is_ready(self, rt: &impl Abort, table: &Table, instance: u64, level: u64) -> bool {
        table.ready(&self.name(rt, instance), |_| level)
    }

    // The ranks of the participants that are gone, as the digits of a number; 0 where there is none.
    fn gone_ranks(self, rt: &impl Abort, table: &Table, instance: u64) -> u32 {
        let name = self.name(rt, instance);
        let gone = table.release(&name).expect(rt, MEMORY);
        let mut ranks = 0_u32;
        for proc in &gone {
            ranks = ranks.wrapping_mul(10).wrapping_add(proc.rank.number());
        }
        ranks
    }

    // Who is gone from the first fence at nodes 0 and 1.
    fn gone_at_both(self, rt: &impl Abort, group: &Group) -> [u32; 2] {
        [
            self.gone_ranks(rt, &group.zero, 1),
            self.gone_ranks(rt, &group.one, 1),
        ]
    }
}

fn table(rt: &impl Abort, alloc: Global, node: u32) -> Table {
    let names: [&[u8]; 3] = [b"n0", b"n1", b"n2"];
    let homes = [
        NodeId::new(0).expect(rt, MEMORY),
        NodeId::new(1).expect(rt, MEMORY),
        NodeId::new(1).expect(rt, MEMORY),
        NodeId::new(2).expect(rt, MEMORY),
    ];
    let node = NodeId::new(node).expect(rt, MEMORY);
    let mut registry = Registry::new(alloc, &names).expect(rt, MEMORY);
    let nspace = Nspace::read(alloc, b"j").expect(rt, MEMORY);
    registry.register(nspace, &homes).expect(rt, MEMORY);
    Table::new(node, registry)
}

fn three_nodes(rt: &impl Abort, alloc: Global) -> Box<Group> {
    let group = Group {
        zero: table(rt, alloc, 0),
        one: table(rt, alloc, 1),
        two: table(rt, alloc, 2),
    };
    Box::new(alloc, group).expect(rt, MEMORY)
}

fn put(rt: &impl Abort, table: &mut Table, header: &Header) {
    table
        .put_header(header.copy().expect(rt, MEMORY))
        .expect(rt, MEMORY);
}

// The process of that rank ends.
fn end(rt: &impl Abort, table: &mut Table, alloc: Global, rank: u32, level: u64) {
    let proc = process(rt, alloc, rank);
    table.gone(&proc, level % 10).expect(rt, MEMORY);
}

// Hands the next own header across.
fn hand_over(rt: &impl Abort, from: &mut Table, to: &mut Table) -> bool {
    match from.take_header() {
        Some(header) => {
            put(rt, to, &header);
            true
        }
        None => false,
    }
}

// Hands the next own header to both others.
fn hand_to_both(rt: &impl Abort, from: &mut Table, one: &mut Table, other: &mut Table) -> bool {
    match from.take_header() {
        Some(header) => {
            put(rt, one, &header);
            put(rt, other, &header);
            true
        }
        None => false,
    }
}

// Process 0 made one commit before it enters. Whether node 1 waits for its header, and then for that commit; whether node
// 0 is ready with the header of node 1; and who is gone at both.
fn waits_twice(rt: &impl Abort, group: &mut Group, meeting: Meeting) -> ([bool; 5], [u32; 2]) {
    meeting.enter(rt, &mut group.zero, 0, 1);
    meeting.enter(rt, &mut group.one, 1, 0);
    let before = meeting.is_ready(rt, &group.one, 1, 1);
    let handed = hand_over(rt, &mut group.zero, &mut group.one);
    let below = meeting.is_ready(rt, &group.one, 1, 0);
    let known = meeting.is_ready(rt, &group.one, 1, 1);
    hand_over(rt, &mut group.one, &mut group.zero);
    let back = meeting.is_ready(rt, &group.zero, 1, 1);
    (
        [before, handed, below, known, back],
        meeting.gone_at_both(rt, group),
    )
}

#[test]
fn a_header_and_its_levels_are_waited_for(rt: HostRuntime) {
    let alloc = rt.alloc();
    // a fence that collects no data waits for no commit
    for collect in [true, false] {
        let meeting = Meeting::of(alloc, 2, collect);
        let found = waits_twice(&rt, &mut *three_nodes(&rt, alloc), meeting);
        assert!(rt; found.0 == [false, true, !collect, true, true] && found.1 == [0, 0]);
    }
}

// The first fence, at both nodes; the header of node 0 is taken and comes back.
fn meets_once(rt: &impl Abort, group: &mut Group, meeting: Meeting) -> Option<Header> {
    meeting.enter(rt, &mut group.zero, 0, 0);
    meeting.enter(rt, &mut group.one, 1, 0);
    hand_over(rt, &mut group.one, &mut group.zero);
    let header = group.zero.take_header();
    if let Some(header) = &header {
        put(rt, &mut group.one, header);
    }
    header
}

// Whether both were ready; whether the second fence is ready at node 1 when that header of the first comes once more, and
// with its own; and the numbers of the second entries.
fn comes_again(
    rt: &impl Abort,
    group: &mut Group,
    meeting: Meeting,
    header: &Header,
) -> ([bool; 4], [u64; 2]) {
    let first = [
        meeting.is_ready(rt, &group.zero, 1, 0),
        meeting.is_ready(rt, &group.one, 1, 0),
    ];
    let here = meeting.enter(rt, &mut group.one, 1, 0);
    put(rt, &mut group.one, header);
    let old = meeting.is_ready(rt, &group.one, 2, 0);
    let there = meeting.enter(rt, &mut group.zero, 0, 0);
    hand_over(rt, &mut group.zero, &mut group.one);
    let new = meeting.is_ready(rt, &group.one, 2, 0);
    ([first[0], first[1], old, new], [here, there])
}

fn meets_again(
    rt: &impl Abort,
    group: &mut Group,
    meeting: Meeting,
) -> Option<([bool; 4], [u64; 2])> {
    match meets_once(rt, group, meeting) {
        Some(header) => Some(comes_again(rt, group, meeting, &header)),
        None => None,
    }
}

#[test]
fn an_old_header_is_no_news(rt: HostRuntime) {
    let alloc = rt.alloc();
    let meeting = Meeting::of(alloc, 2, false);
    let found = meets_again(&rt, &mut *three_nodes(&rt, alloc), meeting);
    assert!(rt; found == Some(([true, true, false, true], [2, 2])));
}

// Process 3 ends after two commits, the end among them, before anybody enters. Whether its node has no header before it
// hears of the fence, and one after; whether node 0 waits for those commits; and who is gone at nodes 0 and 1.
fn ends_elsewhere(rt: &impl Abort, group: &mut Group, meeting: Meeting) -> ([bool; 5], [u32; 2]) {
    end(rt, &mut group.two, meeting.alloc, 3, 2);
    let early = group.two.take_header().is_some();
    meeting.enter(rt, &mut group.zero, 0, 0);
    meeting.enter(rt, &mut group.one, 1, 0);
    meeting.enter(rt, &mut group.one, 2, 0);
    hand_to_both(rt, &mut group.zero, &mut group.one, &mut group.two);
    hand_to_both(rt, &mut group.one, &mut group.zero, &mut group.two);
    let waits = meeting.is_ready(rt, &group.zero, 1, 2);
    let told = hand_to_both(rt, &mut group.two, &mut group.zero, &mut group.one);
    let below = meeting.is_ready(rt, &group.zero, 1, 1);
    let ready = meeting.is_ready(rt, &group.zero, 1, 2) && meeting.is_ready(rt, &group.one, 1, 2);
    (
        [early, waits, told, below, ready],
        meeting.gone_at_both(rt, group),
    )
}

#[test]
fn who_ended_before_is_gone_at_each_node(rt: HostRuntime) {
    let alloc = rt.alloc();
    let meeting = Meeting::of(alloc, 4, true);
    let found = ends_elsewhere(&rt, &mut *three_nodes(&rt, alloc), meeting);
    assert!(rt; found.0 == [false, false, true, false, true] && found.1 == [3, 3]);
}

// A process that names itself and its like enters alone: the number of the entry, and whether the fence is ready at once.
fn meets_itself(rt: &impl Abort, table: &mut Table, meeting: Meeting) -> (u64, bool, u32) {
    let alloc = meeting.alloc;
    let list = twice(rt, alloc);
    let signature = Signature::new(list, meeting.collect).expect(rt, MEMORY);
    let proc = process(rt, alloc, 0);
    let entry = table.enter(&signature, &proc, 0).expect(rt, MEMORY);
    (
        entry,
        meeting.is_ready(rt, table, 1, 0),
        meeting.gone_ranks(rt, table, 1),
    )
}

fn twice(rt: &impl Abort, alloc: Global) -> Vec<Proc> {
    let mut list = Vec::new(alloc);
    list.push(process(rt, alloc, 0)).expect(rt, MEMORY);
    list.push(process(rt, alloc, 0)).expect(rt, MEMORY);
    list
}

#[test]
fn one_participant_meets_itself(rt: HostRuntime) {
    let alloc = rt.alloc();
    let meeting = Meeting::of(alloc, 1, true);
    let found = meets_itself(&rt, &mut table(&rt, alloc, 0), meeting);
    assert!(rt; found.0 == 1 && found.1 && found.2 == 0);
}

// Who is gone at node 0, where the process of rank 2 ended, once it had entered or before, and the others enter; and whether the
// fence is ready there at that level.
fn ends_and_meets(
    rt: &impl Abort,
    group: &mut Group,
    meeting: Meeting,
    has_entered: bool,
    level: u64,
) -> (u32, bool) {
    if has_entered {
        meeting.enter(rt, &mut group.one, 2, 1);
    }
    end(rt, &mut group.one, meeting.alloc, 2, 2);
    meeting.enter(rt, &mut group.zero, 0, 0);
    meeting.enter(rt, &mut group.one, 1, 0);
    hand_over(rt, &mut group.one, &mut group.zero);
    (
        meeting.gone_ranks(rt, &group.zero, 1),
        meeting.is_ready(rt, &group.zero, 1, level),
    )
}

#[test]
fn who_entered_and_ended_is_not_gone(rt: HostRuntime) {
    let alloc = rt.alloc();
    let meeting = Meeting::of(alloc, 3, true);
    let found = ends_and_meets(&rt, &mut *three_nodes(&rt, alloc), meeting, false, 2);
    assert!(rt; found.0 == 2 && found.1);
    let found = ends_and_meets(&rt, &mut *three_nodes(&rt, alloc), meeting, true, 1);
    assert!(rt; found.0 == 0 && found.1);
}

// The header of a node whose process ended exists as soon as its name is learned.
fn learns(rt: &impl Abort, group: &mut Group, meeting: Meeting) -> [bool; 2] {
    end(rt, &mut group.zero, meeting.alloc, 0, 1);
    let early = hand_over(rt, &mut group.zero, &mut group.one);
    let name = meeting.name(rt, 1);
    group.zero.learn(&name).expect(rt, MEMORY);
    [early, hand_over(rt, &mut group.zero, &mut group.one)]
}

#[test]
fn an_end_counts_in_fences_learned_later(rt: HostRuntime) {
    let alloc = rt.alloc();
    let meeting = Meeting::of(alloc, 2, false);
    let found = learns(&rt, &mut *three_nodes(&rt, alloc), meeting);
    assert!(rt; found == [false, true]);
}

// What a copy of node 1's table holds goes on as the table itself does: whether it has the own header, what the number of
// the next entry is, and who is gone.
fn goes_on(rt: &impl Abort, table: &mut Table, meeting: Meeting) -> (bool, u64, bool, u32) {
    let own = table.take_header().is_some();
    let entry = meeting.enter(rt, table, 1, 0);
    let ready = meeting.is_ready(rt, table, 1, 2);
    (own, entry, ready, meeting.gone_ranks(rt, table, 1))
}

fn copies(rt: &impl Abort, group: &mut Group, meeting: Meeting) -> bool {
    end(rt, &mut group.one, meeting.alloc, 2, 2);
    meeting.enter(rt, &mut group.zero, 0, 0);
    meeting.enter(rt, &mut group.one, 1, 0);
    hand_over(rt, &mut group.zero, &mut group.one);
    let found = goes_on(rt, &mut group.one.copy().expect(rt, MEMORY), meeting);
    let itself = goes_on(rt, &mut group.one, meeting);
    found == (true, 2, true, 2) && itself == found
}

#[test]
fn a_copy_goes_on_by_itself(rt: HostRuntime) {
    let alloc = rt.alloc();
    let meeting = Meeting::of(alloc, 3, true);
    let found = copies(&rt, &mut *three_nodes(&rt, alloc), meeting);
    assert!(rt; found);
}

// The most participants that a fence has.
const MOST: u32 = 4096;

// A node with that many processes of j.
fn large_table(rt: &impl Abort, alloc: Global) -> Table {
    let names: [&[u8]; 1] = [b"n0"];
    let mut homes = Vec::new(alloc);
    for _ in 0..MOST {
        homes
            .push(NodeId::new(0).expect(rt, MEMORY))
            .expect(rt, MEMORY);
    }
    let mut registry = Registry::new(alloc, &names).expect(rt, MEMORY);
    let nspace = Nspace::read(alloc, b"j").expect(rt, MEMORY);
    registry.register(nspace, &homes).expect(rt, MEMORY);
    Table::new(NodeId::new(0).expect(rt, MEMORY), registry)
}

// All but the first enter, from the last to the second, and the first ends: how many lines the header has then, and whether
// there was one before.
fn meets_all(rt: &impl Abort, table: &mut Table, meeting: Meeting) -> (usize, bool) {
    let signature = meeting.signature(rt);
    for back in 1..MOST {
        let proc = process(rt, meeting.alloc, MOST - back);
        table.enter(&signature, &proc, 1).expect(rt, MEMORY);
    }
    let early = table.take_header().is_some();
    let first = process(rt, meeting.alloc, 0);
    table.gone(&first, 1).expect(rt, MEMORY);
    match table.take_header() {
        Some(header) => (header.locals().len(), early),
        None => (0, early),
    }
}

#[test]
fn the_most_participants_meet_at_one_node(rt: HostRuntime) {
    let alloc = rt.alloc();
    let meeting = Meeting::of(alloc, MOST, true);
    let found = meets_all(&rt, &mut large_table(&rt, alloc), meeting);
    assert!(rt; found.0 == 4096 && !found.1);
}
