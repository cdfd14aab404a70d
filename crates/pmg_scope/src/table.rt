ghost use Rattle.std.specs.Prelude.{◌≡◌, IfOk, OnOk, OnErr};
ghost use Rattle.std.specs.FinMap as map;
ghost use Rattle.std.specs.Option.{option_map};
ghost use Rattle.pmg_value.specs.Spelling.{spelling};
ghost use Rattle.pmg_scope.specs.Cached.{put_if};
ghost use Rattle.pmg_scope.specs.Rows.{IsRising, restored, table_of};

use pmg_value::{Key, Value, copy_rows, put_back};
use std::alloc::{AllocError, Global};
use std::collections::BTreeMap;
use std::marker::Model;

/// Values under keys, in the order of the keys.
#[derive(Drop)]
pub struct Table {
    rows: BTreeMap<Key, Value>,
}

impl Model for Table {
    ghost use Rattle.pmg_scope.specs.Cached.{Table, coded_table};

    ghost Value = { Table };

    ghost coded = { coded_table };

    ghost use Rattle.pmg_scope.specs.Rows.{table_of};

    ghost view = { λ a. table_of a.rows.entries };
}

/// The earlier content that a put found in a table, by which the put can be taken back.
#[derive(Drop)]
pub enum Before {
    /// The table's reach does not see the put.
    Unseen,
    /// The table's reach sees the put, and this was under the key.
    Seen(Option<Value>),
}

impl Table {
    /// Makes an empty table. It keeps the allocator.
    pub fn new(alloc: Global) -> Table
        ensures { result ≡ map.empty }
    {
        Table {
            rows: BTreeMap::new(alloc),
        }
    }

    /// Returns the value under the key.
    pub fn get(&self, key: &Key) -> Option<&Value>
        ensures { option_map (λ v. spelling v.now) result ≡ map.get self.now key.now }
    {
        self.rows.get(key)
    }

    /// Puts the value under the key, if the put is seen there, and returns the earlier content.
    pub fn put_if(&mut self, seen: bool, key: &Key, value: &Value) -> Result<Before, AllocError>
        ensures ok { OnOk result (self.new ≡ put_if seen self.old key.now (spelling value.now)) }
        ensures before { IfOk result (λ b. restored self.new key.now b ≡ self.old) }
        ensures err { OnErr result (self.new ≡ self.old) }
    {
        if !seen {
            return Ok(Before::Unseen);
        }
        Ok(Before::Seen(self.set(key.copy()?, value.copy()?)?))
    }

    /// Puts the value under the key, and returns the earlier value.
    fn set(&mut self, key: Key, value: Value) -> Result<Option<Value>, AllocError>
        ensures ok { OnOk result (self.new ≡ map.insert self.old key (spelling value)) }
        ensures before { IfOk result (λ b. option_map spelling b ≡ map.get self.old key) }
        ensures err { OnErr result (self.new ≡ self.old) }
    {
        Ok(self.rows.insert(key, value)?)
    }

    /// Takes a put of the key back, by what `put_if` returned.
    pub fn rollback(&mut self, key: &Key, before: Before)
        ensures { self.new ≡ restored self.old key.now before }
    {
        match before {
            Before::Unseen => {}
            Before::Seen(found) => put_back(&mut self.rows, key, found),
        }
    }

    /// Returns the number of keys.
    pub fn len(&self) -> usize
        ensures { result ≡ map.len self.now }
    {
        self.rows.len()
    }

    /// Copies the keys and values, in their order.
    pub fn rows(&self, alloc: Global) -> Result<Vec<(Key, Value)>, AllocError>
        ensures table { IfOk result (λ rs. table_of rs.items ≡ self.now) }
        ensures rising { IfOk result (λ rs. IsRising rs.items) }
    {
        let mut rows = Vec::with_capacity(alloc, self.rows.len())?;
        for (key, value) in self.rows.iter() {
            rows.push((key.copy()?, value.copy()?))?;
        }
        Ok(rows)
    }

    /// Returns a copy, equal to this table.
    pub fn copy(&self, alloc: Global) -> Result<Table, AllocError>
        ensures { IfOk result (λ t. t ≡ self.now) }
    {
        Ok(Table {
            rows: copy_rows(alloc, &self.rows)?,
        })
    }

    /// Takes all values out.
    pub fn clear(&mut self)
        ensures { self.new ≡ map.empty }
    {
        self.rows.clear();
    }
}
