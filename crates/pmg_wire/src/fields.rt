ghost use Rattle.std.specs.Prelude.{◌≡◌, ℕ, List, IfOk, OnErr};
ghost use Rattle.pmg_wire.specs.Grammar.{SpellsKey, SpellsProc};
ghost use Rattle.pmg_wire.specs.Reading.{Place, Reads};
ghost use Rattle.pmg_wire.specs.Fields.{is_admitted, is_named, is_ranked, read_flag, read_key, read_proc};

use crate::cursor::Cursor;
use pmg_value::{
    Cause, HOST_NAME, Key, MAX_KEY_LEN, MAX_RANK, Nspace, Proc, Rank, Refusal, is_key_text,
    is_nspace_name, is_reserved_name,
};
use std::alloc::Global;

/// The processes that a place in the bytes allows.
#[derive(Clone, Copy, PartialEq, Eq)]
pub enum Admits {
    /// Processes that a group may register.
    Clients,
    /// Such processes, and the process `pmix.host 0` that stands for the host.
    ClientsAndHost,
}

impl Admits {
    /// Returns whether such a place allows the process.
    pub fn admits(self, process: &Proc) -> bool
        ensures { result ≡ is_admitted self process.now }
    {
        match self {
            Admits::Clients => process.is_client(),
            Admits::ClientsAndHost => process.can_commit(),
        }
    }

    fn admits_name(self, name: &[u8]) -> bool
        ensures { result ≡ is_named self name.now }
    {
        match self {
            Admits::Clients => is_nspace_name(name) && !is_reserved_name(name),
            Admits::ClientsAndHost => is_nspace_name(name)
                && (!is_reserved_name(name) || name == HOST_NAME),
        }
    }
}

/// Reads a flag, the byte 0 or 1.
#[tactic(auto, unfolding(crate::specs::Fields::read_flag))]
pub fn get_flag(at: &mut Cursor<'_>) -> Result<bool, Refusal>
    ensures read { Reads (λ b. b) result at.new (read_flag at.old) }
{
    let start = at.offset();
    let byte = at.get_u8()?;
    if byte > 1 {
        return Err(Refusal::bad_frame(start, Cause::Bool));
    }
    Ok(byte == 1)
}

#[tactic(auto, unfolding(crate::specs::Fields::read_key))]
fn key_of(alloc: Global, at: &mut Cursor<'_>) -> Result<Key, Refusal>
    ensures { Reads (λ k. k) result at.new (read_key at.old) }
{
    let start = at.offset();
    let len = at.get_u16()? as usize;
    if len == 0 || len > MAX_KEY_LEN {
        return Err(Refusal::bad_frame(start, Cause::Key));
    }
    let text = at.take(len)?;
    if !is_key_text(text) {
        return Err(Refusal::bad_frame(start, Cause::Key));
    }
    Ok(Key::from_text(alloc, text)?)
}

/// Reads a key: two bytes of length, and the key. A refusal leaves the cursor where it was. Errors: `BadFrame` with the first fault of
/// Short, Key; `NoMemory`.
pub fn get_key(alloc: Global, at: &mut Cursor<'_>) -> Result<Key, Refusal>
    ensures found { IfOk result (λ k. SpellsKey at.old k at.new) }
    ensures only { (k : List ℕ) (after : Place) → SpellsKey at.old k after → Reads (λ k. k) result at.new (Ok (k, after)) }
    ensures first_fault { Reads (λ k. k) result at.new (read_key at.old) }
    ensures err { OnErr result (at.new ≡ at.old) }
{
    let mut ahead = at.fork();
    let key = key_of(alloc, &mut ahead)?;
    *at = ahead;
    Ok(key)
}

#[tactic(auto, unfolding(crate::specs::Fields::read_proc))]
fn proc_of(alloc: Global, admits: Admits, at: &mut Cursor<'_>) -> Result<Proc, Refusal>
    ensures { Reads (λ p. p) result at.new (read_proc admits at.old) }
{
    let start = at.offset();
    let len = at.get_u8()? as usize;
    if len == 0 {
        return Err(Refusal::bad_frame(start, Cause::Name));
    }
    let name = at.take(len)?;
    if !admits.admits_name(name) {
        return Err(Refusal::bad_frame(start, Cause::Name));
    }
    let rank_at = at.offset();
    let rank = at.get_u32()?;
    if !admits_rank(name, rank) {
        return Err(Refusal::bad_frame(rank_at, Cause::Rank));
    }
    Ok(Proc::new(Nspace::from_name(alloc, name)?, Rank::new(rank)))
}

fn admits_rank(name: &[u8], rank: u32) -> bool
    ensures { result ≡ is_ranked name.now rank }
{
    if name == HOST_NAME {
        rank == 0
    } else {
        rank <= MAX_RANK
    }
}

/// Reads a process: one byte of length, the namespace, and four bytes of rank. A refusal leaves the cursor where it was. Errors: `BadFrame`
/// with the first fault of Short, Name, Rank; `NoMemory`.
pub fn get_proc(alloc: Global, admits: Admits, at: &mut Cursor<'_>) -> Result<Proc, Refusal>
    ensures found { IfOk result (λ p. SpellsProc admits at.old p at.new) }
    ensures only { (p : Proc) (after : Place) → SpellsProc admits at.old p after → Reads (λ p. p) result at.new (Ok (p, after)) }
    ensures first_fault { Reads (λ p. p) result at.new (read_proc admits at.old) }
    ensures err { OnErr result (at.new ≡ at.old) }
{
    let mut ahead = at.fork();
    let process = proc_of(alloc, admits, &mut ahead)?;
    *at = ahead;
    Ok(process)
}
