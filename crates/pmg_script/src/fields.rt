//! The meaning of the words of a line.
ghost use Rattle.std.specs.Prelude.{◌≡◌};
ghost use Rattle.pmg_script.specs.Lines.{ReadsWords, ReadsAllWords, read_as, read_words};
ghost use Rattle.pmg_script.specs.Scripts.{texts};
ghost use Rattle.pmg_script.specs.Fields.{number_in, rank_in, scope_in, collect_in, mode_in, value_in, read_proc_words, read_procs, all_numbers, read_proc_list};
ghost use Rattle.std.specs.Result.{result_ok};
ghost use Rattle.pmg_wire.specs.Fields.{whole_value};

use crate::lines::{LineFault, Words};
use pmg_get::Mode;
use pmg_scope::Scope;
use pmg_value::{Rank, Refusal, Value};
use pmg_wire::value_from_bytes;
use std::alloc::Global;
use std::marker::Model;

/// A process as a line names it: the bytes of its namespace's name, which may be any bytes, and its rank.
#[derive(Drop)]
pub struct Named<'a> {
    pub nspace: &'a [u8],
    pub rank: Rank,
}

impl<'a> Model for Named<'a> {
    ghost use Rattle.pmg_value.specs.Process.{coded_proc};
    ghost use Rattle.pmg_value.specs.declared.process.Proc.{Proc};

    ghost Value = { Proc };

    ghost coded = { coded_proc };

    ghost view = { λ a. record { nspace = a.nspace.now; rank = a.rank } };
}

/// Reads a number, which has only digits; a number above 64 bits becomes the greatest number of 64 bits.
#[tactic(auto, unfolding(crate::specs::Fields::number_in))]
pub fn number_of(word: &[u8]) -> Result<u64, LineFault>
    ensures { ReadsAllWords (λ n. n) result (number_in word.now) }
{
    let mut value = 0u64;
    for digit in word {
        if !digit.is_ascii_digit() {
            return Err(LineFault::Malformed);
        }
        value = value
            .saturating_mul(10)
            .saturating_add(u64::from(*digit - b'0'));
    }
    Ok(value)
}

/// Reads a rank: a number of 32 bits, or `*` for all ranks.
#[tactic(auto, unfolding(crate::specs::Fields::rank_in))]
fn rank_of(word: &[u8]) -> Result<Rank, LineFault>
    ensures { ReadsAllWords (λ r. r) result (rank_in word.now) }
{
    if matches!(word, b"*") {
        return Ok(Rank::WILDCARD);
    }
    let number = number_of(word)?;
    if number > u64::from(u32::MAX) {
        return Err(LineFault::Malformed);
    }
    Ok(Rank::new(number as u32))
}

/// Reads a scope.
#[tactic(auto, unfolding(crate::specs::Fields::scope_in))]
fn scope_of(word: &[u8]) -> Result<Scope, LineFault>
    ensures { ReadsAllWords (λ s. s) result (scope_in word.now) }
{
    if word == b"internal".as_slice() {
        Ok(Scope::Internal)
    } else if word == b"local".as_slice() {
        Ok(Scope::Local)
    } else if word == b"remote".as_slice() {
        Ok(Scope::Remote)
    } else if word == b"global".as_slice() {
        Ok(Scope::Global)
    } else if word == b"undef".as_slice() {
        Ok(Scope::Undef)
    } else {
        Err(LineFault::Malformed)
    }
}

/// Reads whether a fence collects data.
#[tactic(auto, unfolding(crate::specs::Fields::collect_in))]
fn collect_of(word: &[u8]) -> Result<bool, LineFault>
    ensures { ReadsAllWords (λ c. c) result (collect_in word.now) }
{
    if word == b"plain".as_slice() {
        Ok(false)
    } else if word == b"collect".as_slice() {
        Ok(true)
    } else {
        Err(LineFault::Malformed)
    }
}

/// Reads whether a get waits, and whether it asks the home of its target anew.
#[tactic(auto, unfolding(crate::specs::Fields::mode_in))]
fn mode_of(word: &[u8]) -> Result<Mode, LineFault>
    ensures { ReadsAllWords (λ m. m) result (mode_in word.now) }
{
    if matches!(word, b"wait") {
        Ok(Mode::Wait)
    } else if matches!(word, b"now") {
        Ok(Mode::Now)
    } else if word == b"refresh".as_slice() {
        Ok(Mode::Refresh)
    } else {
        Err(LineFault::Malformed)
    }
}

/// Reads a value from its canonical bytes in hexadecimal.
#[tactic(auto, unfolding(crate::specs::Fields::value_in))]
fn value_by_hex(alloc: Global, word: &[u8]) -> Result<Value, LineFault>
    ensures { ReadsAllWords (λ v. v) result (value_in word.now) }
{
    match hex::decode(alloc, word) {
        Ok(bytes) => value_by_bytes(alloc, &bytes),
        Err(hex::FromHexError::OutOfMemory) => Err(LineFault::NoMemory),
        Err(_) => Err(LineFault::Malformed),
    }
}

/// Reads a value from its canonical bytes.
fn value_by_bytes(alloc: Global, bytes: &[u8]) -> Result<Value, LineFault>
    ensures { ReadsAllWords (λ v. v) result (result_ok (whole_value bytes.now)) }
{
    match value_from_bytes(alloc, bytes) {
        Ok(value) => Ok(value),
        Err(Refusal::NoMemory) => Err(LineFault::NoMemory),
        Err(_) => Err(LineFault::Malformed),
    }
}

impl<'a> Words<'a> {
    /// Reads the next word, which is a number.
    pub fn number(&mut self) -> Result<u64, LineFault>
        ensures { ReadsWords (λ n. n) result self.new (read_as number_in self.old) }
    {
        let word = self.word()?;
        number_of(word)
    }

    /// Reads the next word, which is a scope.
    pub fn scope(&mut self) -> Result<Scope, LineFault>
        ensures { ReadsWords (λ s. s) result self.new (read_as scope_in self.old) }
    {
        let word = self.word()?;
        scope_of(word)
    }

    /// Reads the next word, which says whether a fence collects data.
    pub fn collect(&mut self) -> Result<bool, LineFault>
        ensures { ReadsWords (λ c. c) result self.new (read_as collect_in self.old) }
    {
        let word = self.word()?;
        collect_of(word)
    }

    /// Reads the next word, which is the mode of a get.
    pub fn mode(&mut self) -> Result<Mode, LineFault>
        ensures { ReadsWords (λ m. m) result self.new (read_as mode_in self.old) }
    {
        let word = self.word()?;
        mode_of(word)
    }

    /// Reads the next word, which is a value in hexadecimal.
    pub fn value(&mut self, alloc: Global) -> Result<Value, LineFault>
        ensures { ReadsWords (λ v. v) result self.new (read_as value_in self.old) }
    {
        let word = self.word()?;
        value_by_hex(alloc, word)
    }

    /// Reads the next two words, which name a process.
    #[inline(always)]
    #[tactic(auto, unfolding(crate::specs::Fields::read_proc_words))]
    pub fn proc(&mut self) -> Result<Named<'a>, LineFault>
        ensures { ReadsWords (λ p. p) result self.new (read_proc_words self.old) }
    {
        let nspace = self.word()?;
        let word = self.word()?;
        let rank = rank_of(word)?;
        Ok(Named { nspace, rank })
    }

    /// Reads so many processes.
    pub fn procs(&mut self, alloc: Global, count: u64) -> Result<Vec<Named<'a>>, LineFault>
        ensures { ReadsWords (λ ps. ps.items) result self.new (read_procs count self.old) }
    {
        let mut procs = Vec::new(alloc);
        for _ in 0..count {
            let proc = self.proc()?;
            procs.push(proc)?;
        }
        Ok(procs)
    }

    /// Reads all words that are left.
    pub fn all_words(&mut self, alloc: Global) -> Result<Vec<&'a [u8]>, LineFault>
        ensures { ReadsAllWords (λ words. texts words.items) result (read_words self.old) }
    {
        let mut words = Vec::new(alloc);
        while !self.is_at_end() {
            let word = self.word()?;
            words.push(word)?;
        }
        Ok(words)
    }

    /// Reads all words that are left, as numbers.
    pub fn all_numbers(&mut self, alloc: Global) -> Result<Vec<u64>, LineFault>
        ensures { ReadsAllWords (λ ns. ns.items) result (all_numbers self.old) }
    {
        let mut numbers = Vec::new(alloc);
        while !self.is_at_end() {
            let number = self.number()?;
            numbers.push(number)?;
        }
        Ok(numbers)
    }

    /// Reads all words that are left, as processes.
    pub fn all_procs(&mut self, alloc: Global) -> Result<Vec<Named<'a>>, LineFault>
        ensures { ReadsAllWords (λ ps. ps.items) result (read_proc_list self.old) }
    {
        let mut procs = Vec::new(alloc);
        while !self.is_at_end() {
            let proc = self.proc()?;
            procs.push(proc)?;
        }
        Ok(procs)
    }
}
