//! What no script shows of a registry, found by hand: what the program does not ask of it, refusals that the program's own come
//! before, and how many ranks a namespace has.
use crate::tests::words::{MEMORY, cause_of, list_of, process_of};
use pmg_jobinfo::Registry;
use pmg_scope::Reach;
use pmg_value::{Key, NodeId, Nspace, Refusal};
use std::alloc::Global;
use std::process::Abort;

// Registers the namespace of so many processes, all at home at this node: why that is refused.
fn register(
    rt: &impl Abort,
    alloc: Global,
    registry: &mut Registry,
    name: &[u8],
    node: u32,
    count: usize,
) -> Option<Refusal> {
    let home = NodeId::new(node).expect(rt, MEMORY);
    let homes = vec![in alloc; home; count].expect(rt, MEMORY);
    let nspace = Nspace::read_any(alloc, name).expect(rt, MEMORY);
    cause_of(rt, registry.register(nspace, &homes))
}

// Nodes n0 and n1; the namespace j of two processes at home at node 1, and k of one at node 0.
fn three_processes(rt: &impl Abort, alloc: Global) -> Registry {
    let names: [&[u8]; 2] = [b"n0", b"n1"];
    let mut registry = Registry::new(alloc, &names).expect(rt, MEMORY);
    register(rt, alloc, &mut registry, b"j", 1, 2);
    register(rt, alloc, &mut registry, b"k", 0, 1);
    registry
}

// How j/0 stands to the process that it reads.
fn reach(rt: &impl Abort, alloc: Global, registry: &Registry, target: &str) -> Reach {
    let reader = process_of(rt, alloc, "j/0");
    registry.reach(&reader, &process_of(rt, alloc, target))
}

#[test]
fn a_registry_tells_sizes_and_reaches(rt: HostRuntime) {
    let alloc = rt.alloc();
    let registry = three_processes(&rt, alloc);
    assert!(rt; registry.size(&Nspace::read(alloc, b"j").expect(&rt, MEMORY)) == Ok(2));
    let unknown = registry.size(&Nspace::read(alloc, b"l").expect(&rt, MEMORY));
    assert!(rt; unknown == Err(Refusal::UnknownNamespace));
    let reaches = [
        ("j/0", Reach::Own),
        ("j/1", Reach::Near),
        ("k/0", Reach::Far),
    ];
    for (target, want) in reaches {
        assert!(rt; reach(&rt, alloc, &registry, target) == want);
    }
}

#[test]
fn a_registry_tells_homes(rt: HostRuntime) {
    let alloc = rt.alloc();
    let registry = three_processes(&rt, alloc);
    let homes = [
        ("j/1", NodeId::new(1)),
        ("k/0", NodeId::new(0)),
        ("pmix.host/0", NodeId::new(0)),
        ("j/2", Err(Refusal::BadParam)),
        ("j/*", Err(Refusal::BadParam)),
        ("l/0", Err(Refusal::UnknownNamespace)),
        ("pmix.host/1", Err(Refusal::UnknownNamespace)),
    ];
    for (who, want) in homes {
        assert!(rt; registry.home(&process_of(&rt, alloc, who)) == want);
    }
}

// Why the registry has no answer for the key, asked of the process from the node.
fn key_cause(
    rt: &impl Abort,
    alloc: Global,
    registry: &Registry,
    asking: u32,
    who: &str,
    key: &[u8],
) -> Option<Refusal> {
    let key = Key::read_any(alloc, key).expect(rt, MEMORY);
    let asking = NodeId::new(asking).expect(rt, MEMORY);
    cause_of(
        rt,
        registry.reserved(asking, &process_of(rt, alloc, who), &key),
    )
}

#[test]
fn a_registry_refuses_by_itself(rt: HostRuntime) {
    let alloc = rt.alloc();
    let registry = three_processes(&rt, alloc);
    let cases: [(u32, &str, &[u8], Refusal); 5] = [
        (0, "j/0", b"a", Refusal::NotFound),
        (0, "j/2", b"a", Refusal::BadParam),
        (0, "l/0", b"a", Refusal::UnknownNamespace),
        (0, "pmix.host/0", b"pmix.rank", Refusal::UnknownNamespace),
        (2, "l/0", b"pmix.job.size", Refusal::BadParam),
    ];
    for (asking, who, key, want) in cases {
        assert!(rt; key_cause(&rt, alloc, &registry, asking, who, key) == Some(want));
    }
    let lists = [
        ("j/0,pmix.host/0", Refusal::UnknownNamespace),
        ("j/0,j/2", Refusal::BadParam),
    ];
    for (words, want) in lists {
        let list = list_of(&rt, alloc, words);
        assert!(rt; cause_of(&rt, registry.expand(&list)) == Some(want));
    }
}

// The local rank of the last process of m, and how many processes it has.
fn last_rank_and_size(rt: &impl Abort, alloc: Global, registry: &Registry) -> (Vec<u8>, usize) {
    let key = Key::read_any(alloc, b"pmix.lrank").expect(rt, MEMORY);
    let asking = NodeId::new(0).expect(rt, MEMORY);
    let last = process_of(rt, alloc, "m/4095");
    let rank = registry.reserved(asking, &last, &key).expect(rt, MEMORY);
    let all = registry
        .expand(&list_of(rt, alloc, "m/*"))
        .expect(rt, MEMORY);
    (rank.to_text(alloc).expect(rt, MEMORY), all.len())
}

#[test]
fn a_namespace_has_4096_ranks(rt: HostRuntime) {
    let alloc = rt.alloc();
    let mut registry = three_processes(&rt, alloc);
    let more = register(&rt, alloc, &mut registry, b"m", 1, 4097);
    assert!(rt; more == Some(Refusal::TooMany));
    assert!(rt; register(&rt, alloc, &mut registry, b"m", 1, 4096).is_none());
    let (rank, size) = last_rank_and_size(&rt, alloc, &registry);
    assert!(rt; rank.as_slice() == b"u16:4095".as_slice() && size == 4096);
}
