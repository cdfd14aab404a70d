ghost use Rattle.std.specs.Prelude.{◌≡◌, ◌↔◌, IfOk, IsTrue};
ghost use Rattle.std.specs.Cmp.Lexicographic.{pointwise};
ghost use Rattle.std.specs.FinMap as map;
ghost use Rattle.pmg_value.specs.Spelling.{spelling};
ghost use Rattle.pmg_scope.specs.Cached.{global_put};
ghost use Rattle.pmg_scope.specs.Rows.{IsRising, canonical_row, canonical_rows, is_same_row, table_of};

use crate::table::Table;
use pmg_value::{Key, Value, copy_all};
use std::alloc::{AllocError, Global};
use std::marker::Model;

/// The puts that a commit is to seal: under each key the last put that no commit sealed, for the other processes on the node and for
/// processes on other nodes.
pub struct Batch {
    near: Vec<(Key, Value)>,
    far: Vec<(Key, Value)>,
}

impl Drop for Batch {
    fn drop(self) {
        let Self { near, far } = self;
    }
}

impl Model for Batch {
    ghost use Rattle.pmg_scope.specs.Cached.{Unsealed, coded_unsealed};
    ghost use Rattle.pmg_scope.specs.Rows.{IsRising, table_of};

    ghost Value = { Unsealed };

    ghost coded = { coded_unsealed };

    ghost view = { λ a. record { near = table_of a.near.items; far = table_of a.far.items } };

    ghost invariant = { λ a. IsRising a.near.items × IsRising a.far.items };
}

impl Batch {
    /// Returns the batch of one put with PMIX_GLOBAL, by a process that has no other put to seal (PMIx Standard 5.0, PMIx_Put). The key may
    /// begin with `pmix`.
    pub fn of_put(alloc: Global, key: Key, value: Value) -> Result<Batch, AllocError>
        ensures { IfOk result (λ b. b ≡ global_put key (spelling value)) }
    {
        let near = one_row(alloc, key, value)?;
        let far = copy_all(&near)?;
        Ok(Batch { near, far })
    }

    /// Returns the batch of these tables.
    pub(crate) fn of_tables(alloc: Global, near: &Table, far: &Table) -> Result<Batch, AllocError>
        ensures near { IfOk result (λ b. b.near ≡ near.now) }
        ensures far { IfOk result (λ b. b.far ≡ far.now) }
    {
        Ok(Batch {
            near: near.rows(alloc)?,
            far: far.rows(alloc)?,
        })
    }

    /// Returns a copy, equal to this batch.
    pub fn copy(&self) -> Result<Batch, AllocError>
        ensures { IfOk result (λ b. b ≡ self.now) }
    {
        Ok(Batch {
            near: copy_all(&self.near)?,
            far: copy_all(&self.far)?,
        })
    }

    /// Returns whether the batches have the same puts.
    pub fn is_same(&self, other: &Batch) -> bool
        ensures { IsTrue result ↔ (self.now ≡ other.now) }
    {
        are_same_rows(&self.near, &other.near) && are_same_rows(&self.far, &other.far)
    }

    /// Returns the puts to seal for the other processes on the node, in the order of the keys.
    pub fn near(&self) -> &[(Key, Value)]
        ensures table { table_of result.now ≡ self.now.near }
        ensures rising { IsRising result.now }
    {
        &self.near
    }

    /// Returns the puts to seal for the processes on other nodes, in the order of the keys.
    pub fn far(&self) -> &[(Key, Value)]
        ensures table { table_of result.now ≡ self.now.far }
        ensures rising { IsRising result.now }
    {
        &self.far
    }
}

/// Returns whether the rows have one key and one value.
fn is_same_row(row: &(Key, Value), other: &(Key, Value)) -> bool
    ensures { result ≡ is_same_row (canonical_row row.now) (canonical_row other.now) }
{
    row.0 == other.0 && row.1.cmp(&other.1).is_eq()
}

/// Returns whether the rows have the same keys, and under each the same value.
fn are_same_rows(rows: &[(Key, Value)], others: &[(Key, Value)]) -> bool
    ensures { result ≡ pointwise is_same_row (canonical_rows rows.now) (canonical_rows others.now) }
{
    if rows.len() != others.len() {
        return false;
    }
    for i in 0..rows.len() {
        if !is_same_row(&rows[i], &others[i]) {
            return false;
        }
    }
    true
}

/// Returns the one row of this key.
fn one_row(alloc: Global, key: Key, value: Value) -> Result<Vec<(Key, Value)>, AllocError>
    ensures rising { IfOk result (λ rs. IsRising rs.items) }
    ensures table { IfOk result (λ rs. table_of rs.items ≡ map.insert map.empty key (spelling value)) }
{
    let mut rows = Vec::with_capacity(alloc, 1)?;
    rows.push((key, value))?;
    Ok(rows)
}
