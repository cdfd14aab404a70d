//! The caches of clients.
ghost use Rattle.std.specs.Prelude.{◌≡◌, IfOk, OnOk, OnErr};
ghost use Rattle.std.specs.FinMap as finite;
ghost use Rattle.std.specs.Option.{option_map};
ghost use Rattle.pmg_value.specs.Answers.{Gives};
ghost use Rattle.pmg_value.specs.CheckOrder.{first_of};
ghost use Rattle.pmg_value.specs.Rows.{changed_at};
ghost use Rattle.pmg_value.specs.Spelling.{spelling};
ghost use Rattle.pmg_scope.specs.Cached.{after_commit, put_cause, unsealed_of, with_put};
ghost use Rattle.pmg_caches.specs.Caching.{cached_for};

use pmg_scope::{Batch, Cache, Scope};
use pmg_value::{Key, Proc, Refusal, Value};
use std::alloc::{AllocError, Global};
use std::collections::BTreeMap;
use std::marker::Model;

/// The cache of each client that put something, by its process.
#[derive(Drop)]
pub struct Caches {
    alloc: Global,
    rows: BTreeMap<Proc, Cache>,
}

impl Model for Caches {
    ghost use Rattle.pmg_value.specs.Rows.{map_of};
    ghost use Rattle.pmg_caches.specs.Caching.{AllCached, coded_all_cached};

    ghost Value = { AllCached };

    ghost coded = { coded_all_cached };

    ghost view = { λ a. map_of a.rows.entries };
}

impl Caches {
    /// Makes an empty map: no client put anything. It keeps the allocator.
    pub fn new(alloc: Global) -> Caches
        ensures { result ≡ finite.empty }
    {
        Caches {
            alloc,
            rows: BTreeMap::new(alloc),
        }
    }

    /// Returns the cache of the process's client, if the client put something.
    fn get(&self, proc: &Proc) -> Option<&Cache>
        ensures { option_map (λ c. c.now) result ≡ finite.get self.now proc.now }
    {
        self.rows.get(proc)
    }

    /// Returns the value that the process itself reads under the key.
    pub fn own(&self, proc: &Proc, key: &Key) -> Option<&Value>
        ensures { option_map (λ v. spelling v.now) result ≡ finite.get (cached_for self.now proc.now).own key.now }
    {
        match self.get(proc) {
            Some(cache) => cache.own(key),
            None => None,
        }
    }

    /// Returns the puts that no commit of the process sealed.
    pub fn unsealed(&self, proc: &Proc) -> Result<Batch, AllocError>
        ensures { IfOk result (λ b. b ≡ unsealed_of (cached_for self.now proc.now)) }
    {
        match self.get(proc) {
            Some(cache) => cache.unsealed(),
            None => Cache::new(self.alloc).unsealed(),
        }
    }

    /// Puts the value under the key, for the process.
    pub fn put(&mut self, proc: &Proc, scope: Scope, key: Key, value: Value) -> Result<(), Refusal>
        ensures answer { Gives (λ u. u) result (first_of (put_cause (cached_for self.old proc.now) scope key (spelling value)) tt) }
        ensures ok { OnOk result (self.new ≡ finite.insert self.old proc.now (with_put (cached_for self.old proc.now) scope key (spelling value))) }
        ensures err { OnErr result (self.new ≡ self.old) }
    {
        if let Some(cache) = self.rows.get_mut(proc) {
            return cache.put(scope, key, value);
        }
        let mut cache = Cache::new(self.alloc);
        cache.put(scope, key, value)?;
        let _ = self.rows.insert(proc.copy()?, cache)?;
        Ok(())
    }

    /// Marks all puts of the process as sealed by a commit.
    pub fn mark_sealed(&mut self, proc: &Proc)
        ensures { self.new ≡ changed_at self.old proc.now (after_commit (cached_for self.old proc.now)) }
    {
        if let Some(cache) = self.rows.get_mut(proc) {
            cache.mark_sealed();
        }
    }
}
