//! The words of the tables: a process is `j/2`, all of its namespace `j/*`, and one of no rank
//! `j/?`; a refusal is its name.
use pmg_value::{Nspace, Proc, Rank, Refusal};
use std::alloc::Global;
use std::process::Abort;

/// A test gives up where a call of it fails, and says this word and the error.
pub const MEMORY: &str = "memory";

// What stands before the first such sign and what stands after it.
pub fn cut<'a>(rt: &impl Abort, text: &'a str, sign: char) -> (&'a str, &'a str) {
    text.split_once(sign).expect(rt, "no such sign")
}

// The rank of the word: of PMIX_RANK_WILDCARD, of PMIX_RANK_UNDEF, or of a number.
fn rank_of(rt: &impl Abort, word: &str) -> Rank {
    match word {
        "*" => Rank::new(4_294_967_294),
        "?" => Rank::new(4_294_967_295),
        number => Rank::new(number.parse::<u32>().expect(rt, "no rank")),
    }
}

// The process of the word.
pub fn process_of(rt: &impl Abort, alloc: Global, word: &str) -> Proc {
    let (name, rank) = cut(rt, word, '/');
    let nspace = Nspace::read_any(alloc, name.as_bytes()).expect(rt, MEMORY);
    Proc::new(nspace, rank_of(rt, rank))
}

// The processes of the words, between which commas stand.
pub fn list_of(rt: &impl Abort, alloc: Global, words: &str) -> Vec<Proc> {
    let mut list = Vec::new(alloc);
    for word in words.split_terminator(',') {
        list.push(process_of(rt, alloc, word)).expect(rt, MEMORY);
    }
    list
}

// The refusal, if it is not for memory.
fn with_memory(rt: &impl Abort, refusal: Refusal) -> Refusal {
    let known = match refusal {
        Refusal::NoMemory => Err(refusal),
        other => Ok(other),
    };
    known.expect(rt, MEMORY)
}

// Requires that this text was answered, or that the call was refused by this name.
pub fn assert_told(rt: &impl Abort, answer: Result<Vec<u8>, Refusal>, want: &str) {
    match answer {
        Err(refusal) => assert!(rt; with_memory(rt, refusal).name() == want),
        Ok(text) => assert!(rt; text.as_slice() == want.as_bytes()),
    }
}

// Why the call was refused, if not for memory.
pub fn cause_of<T: Drop>(rt: &impl Abort, answer: Result<T, Refusal>) -> Option<Refusal> {
    match answer {
        Ok(_) => None,
        Err(refusal) => Some(with_memory(rt, refusal)),
    }
}
