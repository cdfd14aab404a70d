//! Changes of a table that can be taken back.
ghost use Rattle.std.specs.Prelude.{◌≡◌, ◌≤◌, IsTrue, IfOk, OnOk, OnErr};
ghost use Rattle.std.specs.Option.{option_map};
ghost use Rattle.pmg_fence.specs.Changes.{fence_changed_at, changed, ended_by};
ghost use Rattle.pmg_fence.specs.Kept.{changed_local, noted_by, IsLine, CanChange};
ghost use Rattle.pmg_fence.specs.TakenBack.{table_back, CanRollTableBack};
ghost use Rattle.pmg_commit.specs.declared.piece.TheConstants.{MAX_COMMIT};

use super::{ChangeBefore, Table, TableUndo};
use crate::change::Change;
use pmg_frame::{FenceName, Local, State};
use pmg_value::Proc;
use std::alloc::AllocError;

/// Returns the line of a process that the change adds.
fn line_of(change: &Change) -> Result<Option<Local>, AllocError>
    ensures { IfOk result (λ l. l ≡ changed_local change.now) }
{
    match change {
        Change::Entered(proc, level) => Ok(Some(Local {
            proc: proc.copy()?,
            state: State::Entered,
            level: *level,
        })),
        Change::Learned => Ok(None),
        Change::Told(_) => Ok(None),
    }
}

impl Table {
    /// Applies the change to the fence, and keeps its name. Returns the earlier state, by which the change can be taken back. An entry has
    /// to be the process's next of the signature. If the change completes the node's header, this header waits to be taken. For an old
    /// fence an entry is counted, and nothing else is kept. Nothing is forgotten yet: `forget` is a separate call, which cannot be taken
    /// back.
    pub fn note<'a>(
        &mut self,
        name: &'a FenceName,
        change: Change,
    ) -> Result<TableUndo<'a>, AllocError>
        requires { CanChange self.old.fences name.now change }
        ensures before { IfOk result (λ b. table_back self.new b ≡ self.old) }
        ensures fits { IfOk result (λ b. CanRollTableBack self.new b) }
        ensures ok { OnOk result (self.new ≡ fence_changed_at self.old name.now (noted_by self.old.fences name.now change)) }
        ensures err { OnErr result (self.new ≡ self.old) }
    {
        let line = line_of(&change)?;
        let waiting = self.waiting.len();
        let before = self.change(name.signature(), name.instance(), line.as_ref(), change)?;
        Ok(TableUndo {
            waiting,
            change: ChangeBefore::Fence(name, before),
        })
    }

    /// Ends the process, as `gone` does, and returns the earlier state, by which the end can be taken back.
    pub fn end(&mut self, proc: &Proc, level: u64) -> Result<TableUndo<'static>, AllocError>
        requires { level ≤ MAX_COMMIT }
        ensures before { IfOk result (λ b. table_back self.new b ≡ self.old) }
        ensures fits { IfOk result (λ b. CanRollTableBack self.new b) }
        ensures ok { OnOk result (self.new ≡ changed self.old (ended_by self.old.fences proc.now level)) }
        ensures err { OnErr result (self.new ≡ self.old) }
    {
        let line = Local {
            proc: proc.copy()?,
            state: State::Gone,
            level,
        };
        let ended = proc.copy()?;
        let mut news = self.all_news(&line)?;
        let waiting = self.waiting.len();
        self.waiting.append(&mut news)?;
        match self.ends.put(ended, level) {
            Err(AllocError) => {
                self.waiting.truncate(waiting);
                Err(AllocError)
            }
            Ok(before) => Ok(TableUndo {
                waiting,
                change: ChangeBefore::End(before),
            }),
        }
    }

    /// Takes a change back, by the earlier state. The own headers that wait are cut to the number that waited then. It takes no memory.
    pub fn rollback(&mut self, before: TableUndo<'_>)
        requires { CanRollTableBack self.old before }
        ensures { self.new ≡ table_back self.old before.entry }
    {
        self.waiting.truncate(before.waiting);
        match &before.change {
            ChangeBefore::Fence(name, series) => {
                self.series
                    .rollback(name.signature(), name.instance(), series)
            }
            ChangeBefore::End(number) => self.ends.rollback(number),
        }
    }
}
