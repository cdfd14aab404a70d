ghost use Rattle.std.specs.Prelude.{◌≡◌, ◌+◌, ◌≤◌, length, Some, None, is_some, IfSome, IsTrue, if◌then◌else◌};
ghost use Rattle.std.specs.FinMap as map;
ghost use Rattle.pmg_value.specs.Spelling.{spelling};
ghost use Rattle.pmg_scope.specs.Cached.{put_if, with_put, row_size, table_size, is_within, is_cache};
ghost use Rattle.pmg_scope.specs.Rows.{counted_at, cached_of, AreSizes};
ghost use Rattle.pmg_scope.specs.Scopes.{reaches};
ghost use Rattle.pmg_value.specs.declared.value.TheConstants.{MAX_VALUE_SIZE};
ghost use Rattle.pmg_scope.specs.declared.sizes.TheConstants.{MAX_ENTRY_SIZE};

use crate::scope::{Reach, Scope, includes};
use crate::table::Table;
use crate::tables::Tables;
use pmg_value::{Key, Value};

/// The most keys that a cache holds for a reach.
pub const MAX_KEYS: usize = 65_535;

/// The greatest size of a cache's keys and values for a reach.
pub const MAX_CACHE_SIZE: usize = 16_000_000;

/// The greatest size of a key with its value: the bytes of the longest key and of the largest value, and ten more.
pub const MAX_ENTRY_SIZE: usize = 1_049_097;

/// Returns the size of a key with a value of that many canonical bytes: their bytes, and ten more.
pub fn size_with_key(key: &Key, size: usize) -> usize
    requires { size ≤ MAX_VALUE_SIZE }
    ensures value { result ≡ 10 + length key.now + size }
    ensures bound { result ≤ MAX_ENTRY_SIZE }
{
    10 + key.as_bytes().len() + size
}

/// Returns the size of a key and its value: their bytes, and ten more.
pub fn row_size(key: &Key, value: &Value) -> usize
    ensures value { result ≡ row_size (key.now, spelling value.now) }
    ensures bound { result ≤ MAX_ENTRY_SIZE }
{
    size_with_key(key, value.size())
}

/// Returns the size of the value under the key, 0 without one.
fn counted_at(table: &Table, key: &Key) -> usize
    ensures value { result ≡ counted_at table.now key.now }
    ensures bound { result ≤ MAX_ENTRY_SIZE }
{
    match table.get(key) {
        Some(value) => row_size(key, value),
        None => 0,
    }
}

/// Returns how many keys the table has once the value is put.
fn len_put(table: &Table, key: &Key, value: &Value) -> usize
    requires { map.len table.now ≤ MAX_KEYS }
    ensures { result ≡ map.len (map.insert table.now key.now (spelling value.now)) }
{
    match table.get(key) {
        Some(_) => table.len(),
        None => table.len() + 1,
    }
}

/// Returns the size of the table once the value is put. Its size now is `size`.
fn size_put(table: &Table, size: usize, key: &Key, value: &Value) -> usize
    requires counted { size ≡ table_size table.now }
    requires bound { size ≤ MAX_CACHE_SIZE }
    ensures { result ≡ table_size (map.insert table.now key.now (spelling value.now)) }
{
    size + row_size(key, value) - counted_at(table, key)
}

/// Returns the size of the reach's table once the value is put, if the reach sees the put; `None` if the table would pass its limits. Its
/// size now is `size`.
fn size_with(
    table: &Table,
    size: usize,
    scope: Scope,
    reach: Reach,
    key: &Key,
    value: &Value,
) -> Option<usize>
    requires counted { size ≡ table_size table.now }
    requires limits { IsTrue (is_within table.now) }
    ensures { result ≡ (if is_within (put_if (reaches scope reach) table.now key.now (spelling value.now))
        then Some (table_size (put_if (reaches scope reach) table.now key.now (spelling value.now))) else None) }
{
    if !includes(scope, reach) {
        return Some(size);
    }
    let size = size_put(table, size, key, value);
    if len_put(table, key, value) <= MAX_KEYS && size <= MAX_CACHE_SIZE {
        Some(size)
    } else {
        None
    }
}

/// The size of the table of each reach.
#[derive(Clone, Copy)]
pub struct Sizes {
    pub own: usize,
    pub near: usize,
    pub far: usize,
}

impl Sizes {
    /// Returns the sizes of the tables once the value is put; `None` if one of them would pass its limits.
    pub fn with_put(&self, tables: &Tables, scope: Scope, key: &Key, value: &Value) -> Option<Sizes>
        requires counted { AreSizes self.now (cached_of tables.now) }
        requires limits { IsTrue (is_cache (cached_of tables.now)) }
        ensures within { is_some result ≡ is_cache (with_put (cached_of tables.now) scope key.now (spelling value.now)) }
        ensures sizes { IfSome result (λ s. AreSizes s (with_put (cached_of tables.now) scope key.now (spelling value.now))) }
    {
        let own = size_with(&tables.own, self.own, scope, Reach::Own, key, value)?;
        let near = size_with(&tables.near, self.near, scope, Reach::Near, key, value)?;
        let far = size_with(&tables.far, self.far, scope, Reach::Far, key, value)?;
        Some(Sizes { own, near, far })
    }
}
