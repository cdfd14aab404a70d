ghost use Rattle.std.specs.Prelude.{◌≡◌, [], ◌∷◌, ◌++◌, IfOk, OnOk, OnErr};
ghost use Rattle.std.specs.FinMap as map;
ghost use Rattle.std.specs.Option.{option_map};
ghost use Rattle.pmg_value.specs.Answers.{Gives};
ghost use Rattle.pmg_value.specs.CheckOrder.{first_of};
ghost use Rattle.pmg_value.specs.Spelling.{spelling};
ghost use Rattle.pmg_scope.specs.Cached.{FitsCache, no_puts, with_put, after_commit, unsealed_of, put_cause};
ghost use Rattle.pmg_scope.specs.Scripts.{Call, Script};

use crate::batch::Batch;
use crate::scope::{Reach, Scope, includes};
use crate::sizes::Sizes;
use crate::tables::Tables;
use pmg_value::{Key, Refusal, Value};
use std::alloc::{AllocError, Global};
use std::marker::Model;

/// The puts of a client: under each key its last put for itself, and for each other reach the last put that no commit sealed (PMIx Standard
/// 5.0, PMIx_Put).
pub struct Cache {
    alloc: Global,
    tables: Tables,
    sizes: Sizes,
}

impl Drop for Cache {
    fn drop(self) {
        let Self {
            alloc,
            tables,
            sizes,
        } = self;
    }
}

impl Model for Cache {
    ghost use Rattle.std.specs.Prelude.{IsTrue};
    ghost use Rattle.pmg_scope.specs.Cached.{Cached, coded_cached, is_cache};
    ghost use Rattle.pmg_scope.specs.Rows.{cached_of, AreSizes};

    ghost Value = { Cached };

    ghost coded = { coded_cached };

    ghost view = { λ a. cached_of a.tables };

    ghost invariant = { λ a. AreSizes a.sizes (cached_of a.tables) × IsTrue (is_cache (cached_of a.tables)) };
}

impl Cache {
    /// Makes a cache without puts. It keeps the allocator.
    pub fn new(alloc: Global) -> Cache
        ensures { result ≡ no_puts }
    {
        Cache {
            alloc,
            tables: Tables::new(alloc),
            sizes: Sizes {
                own: 0,
                near: 0,
                far: 0,
            },
        }
    }

    /// Puts the value under the key, with the scope (PMIx Standard 5.0, PMIx_Put). A refused put changes nothing. Errors: `BadParam` if the
    /// key begins with `pmix` or the scope is PMIX_SCOPE_UNDEF; `TooMany` if the cache would have, for one reach, more than 65535 keys, or
    /// more than 16000000 bytes of keys and values, with ten bytes more for each; `NoMemory`.
    pub fn put(&mut self, scope: Scope, key: Key, value: Value) -> Result<(), Refusal>
        ensures answer { Gives (λ u. u) result (first_of (put_cause self.old scope key (spelling value)) tt) }
        ensures ok { OnOk result (self.new ≡ with_put self.old scope key (spelling value)) }
        ensures err { OnErr result (self.new ≡ self.old) }
        ensures script { OnOk result ((s : Script) → FitsCache self.old s
            → FitsCache self.new (s ++ Call.put scope key (spelling value) ∷ [])) }
    {
        self.put_copies(scope, &key, &value)
    }

    /// Puts a copy of the value under a copy of the key, as `put` does.
    fn put_copies(&mut self, scope: Scope, key: &Key, value: &Value) -> Result<(), Refusal>
        ensures answer { Gives (λ u. u) result (first_of (put_cause self.old scope key.now (spelling value.now)) tt) }
        ensures ok { OnOk result (self.new ≡ with_put self.old scope key.now (spelling value.now)) }
        ensures err { OnErr result (self.new ≡ self.old) }
        ensures script { OnOk result ((s : Script) → FitsCache self.old s
            → FitsCache self.new (s ++ Call.put scope key.now (spelling value.now) ∷ [])) }
    {
        if !includes(scope, Reach::Own) || key.is_reserved() {
            return Err(Refusal::BadParam);
        }
        let Some(sizes) = self.sizes.with_put(&self.tables, scope, key, value) else {
            return Err(Refusal::TooMany);
        };
        self.tables.put(scope, key, value)?;
        self.sizes = sizes;
        Ok(())
    }

    /// Returns what the process itself reads under the key: its last put, of any scope, committed or not.
    pub fn own(&self, key: &Key) -> Option<&Value>
        ensures { option_map (λ v. spelling v.now) result ≡ map.get self.now.own key.now }
    {
        self.tables.own.get(key)
    }

    /// Returns the puts for others that no commit sealed (PMIx Standard 5.0, PMIx_Commit).
    pub fn unsealed(&self) -> Result<Batch, AllocError>
        ensures { IfOk result (λ b. b ≡ unsealed_of self.now) }
    {
        Batch::of_tables(self.alloc, &self.tables.near, &self.tables.far)
    }

    /// Marks all puts as sealed by a commit.
    pub fn mark_sealed(&mut self)
        ensures after_commit { self.new ≡ after_commit self.old }
        ensures script { (s : Script) → FitsCache self.old s → FitsCache self.new (s ++ Call.commit ∷ []) }
    {
        self.tables.near.clear();
        self.tables.far.clear();
        self.sizes.near = 0;
        self.sizes.far = 0;
    }

    /// Returns a copy, equal to this cache.
    pub fn copy(&self) -> Result<Cache, AllocError>
        ensures { IfOk result (λ c. c ≡ self.now) }
    {
        Ok(Cache {
            alloc: self.alloc,
            tables: self.tables.copy(self.alloc)?,
            sizes: self.sizes,
        })
    }
}
