//! A caller of `audit`.
ghost use Rattle.std.specs.Prelude.{IfErr};
ghost use Rattle.pmg_audit.specs.Faults.{IsFault};

use pmg_audit::audit;
use pmg_journal::{Record, Transcript};
use pmg_value::Refusal;
use std::alloc::Global;

/// Audits the records of the desks and the transcripts of their clients. Returns how many events their run has.
pub fn count_events(
    alloc: Global,
    records: Vec<Record>,
    transcripts: &[Transcript],
) -> Result<usize, Refusal>
    ensures { IfErr result (λ e. IsFault records.items transcripts.now e) }
{
    let run = audit(alloc, records, transcripts)?;
    Ok(run.events().len())
}
