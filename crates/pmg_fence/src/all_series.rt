ghost use Rattle.std.specs.Prelude.{◌≡◌, IfOk, OnOk, OnErr};
ghost use Rattle.std.specs.FinMap as finite;
ghost use Rattle.std.specs.Option.{option_map};
ghost use Rattle.pmg_value.specs.Rows.{map_of, changed_at};
ghost use Rattle.pmg_fence.specs.Changes.{series_kept};
ghost use Rattle.pmg_fence.specs.Kept.{series_in, series_changed};
ghost use Rattle.pmg_fence.specs.TakenBack.{all_series_back};

use crate::change::Change;
use crate::series::{Series, SeriesUndo};
use pmg_frame::Signature;
use pmg_value::copy_rows;
use std::alloc::{AllocError, Global};
use std::collections::BTreeMap;
use std::marker::Model;

/// The fences of a table, by their signature.
#[derive(Drop)]
pub struct AllSeries {
    alloc: Global,
    rows: BTreeMap<Signature, Series>,
}

impl Model for AllSeries {
    ghost use Rattle.pmg_value.specs.Rows.{map_of};
    ghost use Rattle.pmg_fence.specs.Codes.{AllSeries, coded_all_series};

    ghost Value = { AllSeries };

    ghost coded = { coded_all_series };

    ghost view = { λ a. map_of a.rows.entries };
}

impl AllSeries {
    /// Makes an empty map. It keeps the allocator.
    pub fn new(alloc: Global) -> AllSeries
        ensures { result ≡ finite.empty }
    {
        AllSeries {
            alloc,
            rows: BTreeMap::new(alloc),
        }
    }

    /// Returns the allocator that the table keeps.
    pub fn allocator(&self) -> Global {
        self.alloc
    }

    /// Returns the fences of the signature.
    pub fn get(&self, signature: &Signature) -> Option<&Series>
        ensures { option_map (λ s. s.now) result ≡ finite.get self.now signature.now }
    {
        self.rows.get(signature)
    }

    /// Returns the fences, in the order of their signatures.
    pub fn rows(&self) -> &BTreeMap<Signature, Series>
        ensures { map_of result.now.entries ≡ self.now }
    {
        &self.rows
    }

    /// Applies the change to the instance of the signature, and returns the earlier state of the signature's fences, if it had any.
    pub fn change(
        &mut self,
        signature: &Signature,
        instance: u64,
        change: Change,
    ) -> Result<Option<SeriesUndo>, AllocError>
        ensures before { IfOk result (λ b. all_series_back self.new signature.now instance b ≡ self.old) }
        ensures ok { OnOk result (self.new ≡ finite.insert self.old signature.now (series_changed (series_in self.old signature.now) instance change)) }
        ensures err { OnErr result (self.new ≡ self.old) }
    {
        if let Some(series) = self.rows.get_mut(signature) {
            let before = series.change(instance, change)?;
            return Ok(Some(before));
        }
        let mut series = Series::new(self.alloc);
        series.change(instance, change)?;
        self.rows.insert(signature.copy()?, series)?;
        Ok(None)
    }

    /// Forgets the signature's fences, except the greatest instance and the one before. It takes no memory.
    pub fn forget(&mut self, signature: &Signature)
        ensures { self.new ≡ changed_at self.old signature.now (series_kept (series_in self.old signature.now)) }
    {
        let Some(series) = self.rows.get_mut(signature) else {
            return;
        };
        series.forget();
    }

    /// Takes the fences of the signature out.
    fn remove(&mut self, signature: &Signature)
        ensures { self.new ≡ finite.remove self.old signature.now }
    {
        let _ = self.rows.remove(signature);
    }

    /// Takes a change back. It takes no memory.
    pub fn rollback(&mut self, signature: &Signature, instance: u64, before: &Option<SeriesUndo>)
        ensures { self.new ≡ all_series_back self.old signature.now instance before.now }
    {
        match before {
            None => self.remove(signature),
            Some(before) => {
                if let Some(series) = self.rows.get_mut(signature) {
                    series.rollback(instance, before);
                }
            }
        }
    }

    /// Returns an equal copy, with this allocator.
    pub fn copy(&self) -> Result<AllSeries, AllocError>
        ensures { IfOk result (λ copy. copy ≡ self.now) }
    {
        Ok(AllSeries {
            alloc: self.alloc,
            rows: copy_rows(self.alloc, &self.rows)?,
        })
    }
}
