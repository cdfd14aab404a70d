//! The puts that were sealed last under each key.
ghost use Rattle.std.specs.Prelude.{◌≡◌, ℕ, List, [], map, IfOk, OnOk, OnErr};
ghost use Rattle.std.specs.FinMap as finite;
ghost use Rattle.std.specs.Option.{option_map};
ghost use Rattle.pmg_value.specs.Spelling.{spelling};
ghost use Rattle.pmg_value.specs.Rows.{rows_of, put_back};
ghost use Rattle.pmg_scope.specs.Rows.{IsRising, table_of};
ghost use Rattle.pmg_commit.specs.Pieces.{entry_of};
ghost use Rattle.pmg_commit.specs.Sealed.{Stamp, stamped, newer_than};
ghost use Rattle.pmg_commit.specs.Stamped.{stamp_of};
ghost use Rattle.pmg_commit.specs.TakenBack.{all_back};

use crate::piece::PieceEntry;
use pmg_value::{Copied, Key, Value, copy_rows, put_back};
use std::alloc::{AllocError, Global};
use std::collections::BTreeMap;
use std::marker::Model;

/// The put under a key that was sealed last: the number of its commit, and the value.
#[derive(Drop)]
pub struct SealedPut {
    number: u64,
    value: Value,
}

impl SealedPut {
    /// Returns the number of the commit that sealed it.
    pub fn number(&self) -> u64
        ensures { result ≡ (stamp_of self.now).number }
    {
        self.number
    }

    /// Returns the value that was put.
    pub fn value(&self) -> &Value
        ensures { spelling result.now ≡ (stamp_of self.now).bytes }
    {
        &self.value
    }
}

impl Copied for SealedPut {
    fn copy(&self) -> Result<SealedPut, AllocError> {
        Ok(SealedPut {
            number: self.number,
            value: self.value.copy()?,
        })
    }
}

/// The put that was sealed last under each key.
#[derive(Drop)]
pub struct LastPuts {
    rows: BTreeMap<Key, SealedPut>,
}

impl Model for LastPuts {
    ghost use Rattle.pmg_commit.specs.Sealed.{Stamps, coded_stamps};

    ghost Value = { Stamps };

    ghost coded = { coded_stamps };

    ghost use Rattle.pmg_value.specs.Rows.{rows_of};
    ghost use Rattle.pmg_commit.specs.Stamped.{stamp_of};

    ghost view = { λ a. rows_of stamp_of a.rows.entries };
}

impl LastPuts {
    /// Makes a table without sealed puts.
    pub fn new(alloc: Global) -> LastPuts
        ensures { result ≡ finite.empty }
    {
        LastPuts {
            rows: BTreeMap::new(alloc),
        }
    }

    /// Copies the keys, in their order.
    pub fn keys(&self, alloc: Global) -> Result<Vec<Key>, AllocError>
        ensures { IfOk result (λ keys. keys.items ≡ finite.keys self.now) }
    {
        let mut keys = Vec::new(alloc);
        for (key, _) in self.rows.iter() {
            keys.push(key.copy()?)?;
        }
        Ok(keys)
    }

    /// Returns the number of keys.
    pub fn len(&self) -> usize
        ensures { result ≡ finite.len self.now }
    {
        self.rows.len()
    }

    /// Returns the put that was sealed last under the key.
    pub fn get(&self, key: &Key) -> Option<&SealedPut>
        ensures { option_map (λ p. stamp_of p.now) result ≡ finite.get self.now key.now }
    {
        self.rows.get(key)
    }

    /// Copies the put that was sealed last under the key.
    fn copy_of(&self, key: &Key) -> Result<Option<SealedPut>, AllocError>
        ensures { IfOk result (λ p. option_map stamp_of p ≡ finite.get self.now key.now) }
    {
        match self.get(key) {
            Some(put) => Ok(Some(put.copy()?)),
            None => Ok(None),
        }
    }

    /// Returns a copy, equal to this one.
    pub fn copy(&self, alloc: Global) -> Result<LastPuts, AllocError>
        ensures { IfOk result (λ s. s ≡ self.now) }
    {
        Ok(LastPuts {
            rows: copy_rows(alloc, &self.rows)?,
        })
    }

    /// Keeps this put as the last one under the key.
    fn set(&mut self, key: Key, put: SealedPut) -> Result<(), AllocError>
        ensures ok { OnOk result (self.new ≡ finite.insert self.old key (stamp_of put)) }
        ensures err { OnErr result (self.new ≡ self.old) }
    {
        let _ = self.rows.insert(key, put)?;
        Ok(())
    }

    /// Puts back the earlier put under the key. It takes no memory.
    fn take_one_back(&mut self, key: Key, before: Option<SealedPut>)
        ensures { self.new ≡ put_back self.old key (option_map stamp_of before) }
    {
        put_back(&mut self.rows, &key, before);
    }

    /// Notes the put under the key, by which a change there can be taken back.
    fn note(&self, key: &Key, before: &mut Vec<(Key, Option<SealedPut>)>) -> Result<(), AllocError>
        ensures same { all_back self.now before.new.items ≡ all_back self.now before.old.items }
        ensures back { OnOk result ((s : Stamp) → all_back (finite.insert self.now key.now s) before.new.items
            ≡ all_back self.now before.old.items) }
    {
        let noted = key.copy()?;
        let there = self.copy_of(&noted)?;
        before.push((noted, there))?;
        Ok(())
    }

    /// Seals the put under the key, and notes the earlier put.
    fn stamp(
        &mut self,
        key: &Key,
        put: SealedPut,
        before: &mut Vec<(Key, Option<SealedPut>)>,
    ) -> Result<(), AllocError>
        ensures ok { OnOk result (self.new ≡ finite.insert self.old key.now (stamp_of put)) }
        ensures back { all_back self.new before.new.items ≡ all_back self.old before.old.items }
    {
        self.note(key, before)?;
        self.set(key.copy()?, put)
    }

    /// Seals the puts, whose keys rise, by the commit of that number, and notes the earlier puts under their keys.
    pub fn stamp_all(
        &mut self,
        number: u64,
        puts: &[(Key, Value)],
        before: &mut Vec<(Key, Option<SealedPut>)>,
    ) -> Result<(), AllocError>
        requires { IsRising puts.now }
        ensures ok { OnOk result (self.new ≡ stamped number (table_of puts.now) self.old) }
        ensures back { all_back self.new before.new.items ≡ all_back self.old before.old.items }
    {
        for (key, value) in puts {
            let put = SealedPut {
                number,
                value: value.copy()?,
            };
            self.stamp(key, put, before)?;
        }
        Ok(())
    }

    /// Puts back the earlier puts under the keys, the last noted change first. It takes no memory.
    pub fn rollback(&mut self, before: Vec<(Key, Option<SealedPut>)>)
        ensures { self.new ≡ all_back self.old before.items }
    {
        let mut before = before;
        while let Some((key, put)) = before.pop() {
            self.take_one_back(key, put);
        }
    }

    /// Returns the puts that the commits above that number sealed, in the order of the keys.
    pub fn newer(&self, alloc: Global, from: u64) -> Result<Vec<PieceEntry>, AllocError>
        ensures { IfOk result (λ es. map entry_of es.items ≡ newer_than from self.now) }
    {
        let mut entries = Vec::new(alloc);
        for (key, put) in self.rows.iter() {
            if from < put.number {
                entries.push(PieceEntry {
                    key: key.copy()?,
                    number: put.number,
                    value: put.value.copy()?,
                })?;
            }
        }
        Ok(entries)
    }
}
