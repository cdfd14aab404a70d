//! What no clause says: that a sealer answers where there is memory, and what it has sealed after
//! some steps, found by hand.
use crate::tests::steps::{piece_text, push_row, put};
use crate::tests::words::{MEMORY, assert_told, cut, process_of};
use pmg_commit::Sealer;
use pmg_scope::{Batch, Cache, Reach};
use pmg_value::{Refusal, push_number};
use std::alloc::Global;
use std::process::Abort;

// Of each process's steps the level, and what it has sealed near and far: of each key its commit's
// number and its digit. A step `c` is a commit, and `e` the process's end; another is a put.
const PLAYS: &str = "\
ix1,ly2,rz3,gw4,c 1 w14y12/w14z13
las,rat,c 1 a1s/a1t
ga1,gb2,c,ga3,c,c 3 a23b12/a23b12
ga1,gb2,lc3,c,ga4,c,gb5 2 a24b12c13/a24b12
ga5,c,ga6,e,e 2 a15pmix.term2./a15pmix.term2.
e,c TooMany
";

// Seals what the cache has not sealed.
fn commit(rt: &impl Abort, cache: &mut Cache, sealer: &mut Sealer) -> Result<(), Refusal> {
    sealer.seal(&cache.unsealed().expect(rt, MEMORY))?;
    cache.mark_sealed();
    Ok(())
}

// Takes one step of the process.
fn take(
    rt: &impl Abort,
    alloc: Global,
    cache: &mut Cache,
    sealer: &mut Sealer,
    step: &str,
) -> Result<(), Refusal> {
    match step {
        "c" => commit(rt, cache, sealer),
        "e" => {
            sealer.seal_end().expect(rt, MEMORY);
            Ok(())
        }
        _ => put(rt, cache, alloc, step),
    }
}

// Takes the steps of the process.
fn take_all(
    rt: &impl Abort,
    alloc: Global,
    cache: &mut Cache,
    sealer: &mut Sealer,
    steps: &str,
) -> Result<(), Refusal> {
    for step in steps.split(',') {
        take(rt, alloc, cache, sealer, step)?;
    }
    Ok(())
}

// The sealer of j/0, which has sealed nothing.
fn sealer_of(rt: &impl Abort, alloc: Global) -> Sealer {
    Sealer::new(alloc, &process_of(rt, alloc, "j/0")).expect(rt, MEMORY)
}

// The sealer of j/0 once these steps are taken.
fn sealer_after(rt: &impl Abort, alloc: Global, steps: &str) -> Sealer {
    let mut cache = Cache::new(alloc);
    let mut sealer = sealer_of(rt, alloc);
    take_all(rt, alloc, &mut cache, &mut sealer, steps).expect(rt, MEMORY);
    sealer
}

// What the contribution of the commits above that number tells.
fn piece(
    rt: &impl Abort,
    alloc: Global,
    sealer: &Sealer,
    from: u64,
    reach: Reach,
) -> Result<Vec<u8>, Refusal> {
    let piece = sealer.piece_of(from, reach)?;
    Ok(piece_text(rt, alloc, piece.entries()))
}

// Appends what was sealed far, as the sealer lends it.
fn push_far(rt: &impl Abort, text: &mut Vec<u8>, sealer: &Sealer) {
    for key in &sealer.far_keys().expect(rt, MEMORY) {
        if let Some(put) = sealer.far_put(key) {
            push_row(rt, text, key, put.number(), put.value());
        }
    }
}

// The level, what was sealed near, as a contribution tells it, and what was sealed far.
fn text_of(rt: &impl Abort, alloc: Global, sealer: &Sealer) -> Vec<u8> {
    let mut text = Vec::new(alloc);
    push_number(&mut text, sealer.level()).expect(rt, MEMORY);
    text.push(b' ').expect(rt, MEMORY);
    let near = piece(rt, alloc, sealer, 0, Reach::Near).expect(rt, MEMORY);
    text.extend_from_slice(&near).expect(rt, MEMORY);
    text.push(b'/').expect(rt, MEMORY);
    push_far(rt, &mut text, sealer);
    text
}

// What a copy of the sealer has once these steps are taken.
fn shown_after(
    rt: &impl Abort,
    alloc: Global,
    cache: &mut Cache,
    sealer: &mut Sealer,
    steps: &str,
) -> Result<Vec<u8>, Refusal> {
    take_all(rt, alloc, cache, sealer, steps)?;
    let copy = sealer.copy().expect(rt, MEMORY);
    Ok(text_of(rt, alloc, &copy))
}

#[test]
fn commits_seal_what_was_put(rt: HostRuntime) {
    let alloc = rt.alloc();
    for line in PLAYS.lines() {
        let (steps, want) = cut(&rt, line, ' ');
        let mut cache = Cache::new(alloc);
        let mut sealer = sealer_of(&rt, alloc);
        let answer = shown_after(&rt, alloc, &mut cache, &mut sealer, steps);
        assert_told(&rt, answer, want);
    }
}

#[test]
fn a_piece_is_of_commits_for_others(rt: HostRuntime) {
    let alloc = rt.alloc();
    let sealer = sealer_after(&rt, alloc, "ga1,gb2,c,ga3,c,c");
    let cases = [
        (0, Reach::Far, "a23b12"),
        (1, Reach::Far, "a23"),
        (3, Reach::Far, "BadParam"),
        (0, Reach::Own, "BadParam"),
    ];
    for (from, reach, want) in cases {
        assert_told(&rt, piece(&rt, alloc, &sealer, from, reach), want);
    }
}

// A commit that is taken back at once; gives the level in between.
fn try_commit(rt: &impl Abort, sealer: &mut Sealer, batch: &Batch) -> u64 {
    let before = sealer.commit(batch).expect(rt, MEMORY);
    let level = sealer.level();
    sealer.rollback(before);
    level
}

// An end that is taken back at once.
fn try_end(rt: &impl Abort, sealer: &mut Sealer) {
    if let Some(before) = sealer.end().expect(rt, MEMORY) {
        sealer.rollback(before);
    }
}

// What a process has to seal after these puts.
fn batch_of(rt: &impl Abort, alloc: Global, steps: &str) -> Batch {
    let mut cache = Cache::new(alloc);
    for step in steps.split(',') {
        put(rt, &mut cache, alloc, step).expect(rt, MEMORY);
    }
    cache.unsealed().expect(rt, MEMORY)
}

#[test]
fn a_commit_and_an_end_are_taken_back(rt: HostRuntime) {
    let alloc = rt.alloc();
    let mut sealer = sealer_after(&rt, alloc, "ga5,c");
    let level = try_commit(&rt, &mut sealer, &batch_of(&rt, alloc, "ga6,rb6"));
    assert!(rt; level == 2);
    assert_told(&rt, Ok(text_of(&rt, alloc, &sealer)), "1 a15/a15");
    try_end(&rt, &mut sealer);
    assert_told(&rt, Ok(text_of(&rt, alloc, &sealer)), "1 a15/a15");
}
