//! The puts that a process's commits sealed last under each key, and their size.
ghost use Rattle.std.specs.Prelude.{◌≡◌, ◌+◌, ◌-◌, ◌*◌, ◌≤◌, ◌<◌, ◌&&◌, nat_le, ℕ, List, length, map, IfOk, OnOk, OnErr, IsTrue};
ghost use Rattle.std.specs.FinMap as finite;
ghost use Rattle.std.specs.Option.{option_map};
ghost use Rattle.pmg_scope.specs.Rows.{IsRising, table_of};
ghost use Rattle.pmg_commit.specs.Pieces.{entry_of};
ghost use Rattle.pmg_commit.specs.Growth.{sealed_counted_at, new_keys, replaced_size, puts_size};
ghost use Rattle.pmg_commit.specs.Sealed.{stamped, stamps_size, are_within, newer_than};
ghost use Rattle.pmg_commit.specs.Stamped.{stamp_of};
ghost use Rattle.pmg_commit.specs.TakenBack.{stamps_back, FitsBack};
ghost use Rattle.pmg_value.specs.declared.value.TheConstants.{MAX_VALUE_SIZE};
ghost use Rattle.pmg_scope.specs.declared.sizes.TheConstants.{MAX_ENTRY_SIZE};

use crate::last_puts::{LastPuts, SealedPut};
use crate::piece::PieceEntry;
use pmg_scope::{MAX_CACHE_SIZE, MAX_KEYS, row_size, size_with_key};
use pmg_value::{Key, Value};
use std::alloc::{AllocError, Global};
use std::marker::Model;

/// The put that a process's commits sealed last under each key, with the size of all.
#[derive(Drop)]
pub struct Stamps {
    puts: LastPuts,
    size: usize,
}

impl Model for Stamps {
    ghost use Rattle.std.specs.Prelude.{◌≡◌};
    ghost use Rattle.pmg_commit.specs.Sealed.{Stamps, coded_stamps, stamps_size};

    ghost Value = { Stamps };

    ghost coded = { coded_stamps };

    ghost view = { λ a. a.puts };

    ghost invariant = { λ a. a.size ≡ stamps_size a.puts };
}

/// The state of stamps before a commit, by which the commit can be taken back.
#[derive(Drop)]
pub struct StampsUndo {
    size: usize,
    puts: Vec<(Key, Option<SealedPut>)>,
}

impl Stamps {
    /// Makes stamps without sealed puts.
    pub fn new(alloc: Global) -> Stamps
        ensures { result ≡ finite.empty }
    {
        Stamps {
            puts: LastPuts::new(alloc),
            size: 0,
        }
    }

    /// Returns the put that was sealed last under the key.
    pub fn get(&self, key: &Key) -> Option<&SealedPut>
        ensures { option_map (λ p. stamp_of p.now) result ≡ finite.get self.now key.now }
    {
        self.puts.get(key)
    }

    /// Copies the keys, in their order.
    pub fn keys(&self, alloc: Global) -> Result<Vec<Key>, AllocError>
        ensures { IfOk result (λ keys. keys.items ≡ finite.keys self.now) }
    {
        self.puts.keys(alloc)
    }

    /// Returns a copy, equal to these stamps.
    pub fn copy(&self, alloc: Global) -> Result<Stamps, AllocError>
        ensures { IfOk result (λ s. s ≡ self.now) }
    {
        Ok(Stamps {
            puts: self.puts.copy(alloc)?,
            size: self.size,
        })
    }

    /// Returns the puts that the commits above that number sealed, in the order of the keys.
    pub fn newer(&self, alloc: Global, from: u64) -> Result<Vec<PieceEntry>, AllocError>
        ensures { IfOk result (λ es. map entry_of es.items ≡ newer_than from self.now) }
    {
        self.puts.newer(alloc, from)
    }

    /// Seals the puts, whose keys rise, by the commit of that number, and returns the earlier state. If an allocation fails, nothing
    /// changes. It takes time in proportion to the puts, times the logarithm of the sealed puts.
    pub fn stamp(
        &mut self,
        alloc: Global,
        number: u64,
        puts: &[(Key, Value)],
    ) -> Result<StampsUndo, AllocError>
        requires rising { IsRising puts.now }
        requires keys { length puts.now ≤ MAX_KEYS }
        requires small { stamps_size self.old ≤ MAX_CACHE_SIZE + 21 }
        ensures ok { OnOk result (self.new ≡ stamped number (table_of puts.now) self.old) }
        ensures before { IfOk result (λ b. stamps_back self.new b ≡ self.old) }
        ensures fits { IfOk result (λ b. FitsBack self.new b) }
        ensures err { OnErr result (self.new ≡ self.old) }
    {
        let size = self.size + puts_size(puts) - self.replaced_size(puts);
        let mut before = Vec::new(alloc);
        if let Err(AllocError) = self.puts.stamp_all(number, puts, &mut before) {
            self.puts.rollback(before);
            return Err(AllocError);
        }
        let before = StampsUndo {
            size: self.size,
            puts: before,
        };
        self.size = size;
        Ok(before)
    }

    /// Takes a commit back, by the earlier state. It takes no memory.
    pub fn rollback(&mut self, before: StampsUndo)
        requires { FitsBack self.old before }
        ensures { self.new ≡ stamps_back self.old before }
    {
        self.size = before.size;
        self.puts.rollback(before.puts);
    }

    /// Returns whether a put was sealed under the key.
    fn has(&self, key: &Key) -> bool
        ensures { result ≡ finite.contains_key self.now key.now }
    {
        self.puts.get(key).is_some()
    }

    /// Returns the size of the put that was sealed last under the key, 0 without one.
    fn counted_at(&self, key: &Key) -> usize
        ensures value { result ≡ sealed_counted_at self.now key.now }
        ensures bound { result ≤ MAX_ENTRY_SIZE }
    {
        match self.puts.get(key) {
            Some(put) => row_size(key, put.value()),
            None => 0,
        }
    }

    /// Returns how many of the puts have a key without a sealed put.
    fn new_keys(&self, puts: &[(Key, Value)]) -> usize
        ensures value { result ≡ new_keys self.now puts.now }
        ensures bound { result ≤ length puts.now }
    {
        let mut keys = 0;
        for (key, _) in puts {
            if !self.has(key) {
                keys += 1;
            }
        }
        keys
    }

    /// Returns the size of the puts that were sealed last under the keys of these puts.
    fn replaced_size(&self, puts: &[(Key, Value)]) -> usize
        requires { length puts.now ≤ MAX_KEYS }
        ensures { result ≡ replaced_size self.now puts.now }
    {
        let mut size = 0;
        for (key, _) in puts {
            size += self.counted_at(key);
        }
        size
    }

    /// Returns whether a sealer's limits have room for so many more keys, and for so many bytes, which replace others.
    fn has_room(&self, keys: usize, added: usize, replaced: usize) -> bool
        requires within { IsTrue (are_within self.now) }
        requires keys { keys ≤ MAX_KEYS }
        requires added { added ≤ MAX_ENTRY_SIZE * MAX_KEYS }
        requires replaced { replaced ≤ stamps_size self.now + added }
        ensures { result ≡ (nat_le (finite.len self.now + keys) MAX_KEYS
            && nat_le (stamps_size self.now + added - replaced) MAX_CACHE_SIZE) }
    {
        self.puts.len() + keys <= MAX_KEYS && self.size + added - replaced <= MAX_CACHE_SIZE
    }

    /// Returns whether a sealer's limits hold after a commit that seals these puts, whose keys rise. It takes no memory.
    pub fn can_take(&self, puts: &[(Key, Value)]) -> bool
        requires rising { IsRising puts.now }
        requires within { IsTrue (are_within self.now) }
        ensures value { (n : ℕ) → result ≡ are_within (stamped n (table_of puts.now) self.now) }
        ensures few { IsTrue result → length puts.now ≤ MAX_KEYS }
    {
        if puts.len() > MAX_KEYS {
            return false;
        }
        self.has_room(
            self.new_keys(puts),
            puts_size(puts),
            self.replaced_size(puts),
        )
    }

    /// Returns whether a sealer's limits hold after a commit that seals only a value of that many canonical bytes under the key. It takes
    /// no memory.
    pub fn can_take_one(&self, key: &Key, size: usize) -> bool
        requires within { IsTrue (are_within self.now) }
        requires small { size ≤ MAX_VALUE_SIZE }
        ensures { (n : ℕ) (bytes : List ℕ) → length bytes ≡ size
            → result ≡ are_within (stamped n (finite.insert finite.empty key.now bytes) self.now) }
    {
        let keys = if self.has(key) { 0 } else { 1 };
        self.has_room(keys, size_with_key(key, size), self.counted_at(key))
    }
}

/// Returns the size of the puts.
fn puts_size(puts: &[(Key, Value)]) -> usize
    requires { length puts.now ≤ MAX_KEYS }
    ensures value { result ≡ puts_size puts.now }
    ensures bound { result ≤ MAX_ENTRY_SIZE * MAX_KEYS }
{
    let mut size = 0;
    for (key, value) in puts {
        size += row_size(key, value);
    }
    size
}
