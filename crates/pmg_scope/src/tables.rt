ghost use Rattle.std.specs.Prelude.{◌≡◌, IfOk, OnOk, OnErr};
ghost use Rattle.pmg_value.specs.Spelling.{spelling};
ghost use Rattle.pmg_scope.specs.Cached.{no_puts, put_if, with_put};
ghost use Rattle.pmg_scope.specs.Rows.{cached_of};
ghost use Rattle.pmg_scope.specs.Scopes.{reaches};
ghost use Rattle.pmg_scope.specs.declared.scope.Reach.TheVariants as reach;

use crate::scope::{Reach, Scope, includes};
use crate::table::Table;
use pmg_value::{Key, Value};
use std::alloc::{AllocError, Global};

/// A table for each reach.
pub struct Tables {
    pub own: Table,
    pub near: Table,
    pub far: Table,
}

impl Drop for Tables {
    fn drop(self) {
        let Self { own, near, far } = self;
    }
}

impl Tables {
    /// Makes empty tables.
    pub fn new(alloc: Global) -> Tables
        ensures { cached_of result ≡ no_puts }
    {
        Tables {
            own: Table::new(alloc),
            near: Table::new(alloc),
            far: Table::new(alloc),
        }
    }

    /// Puts the value under the key into the tables of all reaches that see the put. If an allocation fails, no table changes.
    pub fn put(&mut self, scope: Scope, key: &Key, value: &Value) -> Result<(), AllocError>
        ensures ok { OnOk result (cached_of self.new ≡ with_put (cached_of self.old) scope key.now (spelling value.now)) }
        ensures err { OnErr result (cached_of self.new ≡ cached_of self.old) }
    {
        let own = self.own.put_if(includes(scope, Reach::Own), key, value)?;
        if let Err(e) = put_for_others(&mut self.near, &mut self.far, scope, key, value) {
            self.own.rollback(key, own);
            return Err(e);
        }
        Ok(())
    }

    /// Returns a copy, equal to these tables.
    pub fn copy(&self, alloc: Global) -> Result<Tables, AllocError>
        ensures { IfOk result (λ t. cached_of t ≡ cached_of self.now) }
    {
        Ok(Tables {
            own: self.own.copy(alloc)?,
            near: self.near.copy(alloc)?,
            far: self.far.copy(alloc)?,
        })
    }
}

/// Puts the value under the key into the tables of the other reaches that see the put. If an allocation fails, no table changes.
fn put_for_others(
    near: &mut Table,
    far: &mut Table,
    scope: Scope,
    key: &Key,
    value: &Value,
) -> Result<(), AllocError>
    ensures near_ok { OnOk result (near.new ≡ put_if (reaches scope reach.Near) near.old key.now (spelling value.now)) }
    ensures far_ok { OnOk result (far.new ≡ put_if (reaches scope reach.Far) far.old key.now (spelling value.now)) }
    ensures near_err { OnErr result (near.new ≡ near.old) }
    ensures far_err { OnErr result (far.new ≡ far.old) }
{
    let before = near.put_if(includes(scope, Reach::Near), key, value)?;
    if let Err(e) = far.put_if(includes(scope, Reach::Far), key, value) {
        near.rollback(key, before);
        return Err(e);
    }
    Ok(())
}
