//! A job that is run: the nodes and the namespaces of its group.
ghost use Rattle.std.specs.Prelude.{◌≡◌, map, IfOk, Ok, Err};
ghost use Rattle.serde_json.specs.View.{view};
ghost use Rattle.pmg_jobinfo.specs.Jobs.{AreJobs};
ghost use Rattle.pmg_jobinfo.specs.Procs.{all_procs};
ghost use Rattle.pmg_jobfile.specs.Described.{judged, with_spaces};
ghost use Rattle.pmg_jobfile.specs.Reading.{ReadsJson, GivesJob, described_in, job_due};

use crate::description::{are_distinct, are_few};
use crate::parts::{Space, nodes_in, spaces_in};
use pmg_jobinfo::{MAX_SPACES, Registry};
use pmg_value::{Proc, Refusal};
use serde_json::Value;
use std::alloc::{AllocError, Global};
use std::marker::Model;

/// The most nodes of a job.
pub const MAX_JOB_NODES: usize = 8;

/// The most processes of a job.
pub const MAX_JOB_PROCS: usize = 32;

/// A job that is run: the nodes of its group, its namespaces, and the homes of their processes.
#[derive(Drop)]
pub struct Job {
    registry: Registry,
}

impl Model for Job {
    ghost use Rattle.pmg_jobinfo.specs.Jobs.{Jobs, coded_jobs};

    ghost Value = { Jobs };

    ghost coded = { coded_jobs };

    ghost view = { λ j. j.registry };
}

impl Job {
    /// Reads a job from JSON: an object with `nodes`, an array of strings, and `spaces`, an array of objects with `name`, a
    /// string, and `homes`, an array of whole numbers, which are the nodes of ranks 0, 1, .. Refused as BadParam where the
    /// bytes are no JSON or describe no job; as Exists where two namespaces have one name; as TooMany past 8 nodes, 16
    /// namespaces or 32 processes; and as NoMemory. Of several causes the first of this order counts.
    pub fn read(alloc: Global, bytes: &[u8]) -> Result<Job, Refusal>
        ensures { GivesJob bytes.now result }
    {
        match Value::from_slice(alloc, bytes) {
            Ok(value) => job_in(alloc, &value),
            Err(error) if error.is_memory() => Err(Refusal::NoMemory),
            Err(_) => Err(Refusal::BadParam),
        }
    }

    /// The nodes of the job's group, and its namespaces.
    pub fn registry(&self) -> &Registry
        ensures { result.now ≡ self.now }
    {
        &self.registry
    }

    /// The job's processes, by namespace and rank.
    pub fn procs(&self) -> Result<Vec<Proc>, AllocError>
        ensures { IfOk result (λ procs. procs.items ≡ all_procs self.now) }
    {
        self.registry.procs()
    }
}

/// The job that a value describes.
fn job_in(alloc: Global, value: &Value) -> Result<Job, Refusal>
    ensures { ReadsJson (λ j. j) result (job_due (described_in (view value.now))) }
{
    let nodes = nodes_in(alloc, value)?;
    let spaces = spaces_in(alloc, nodes.len(), value)?;
    let registry = judge(alloc, &nodes, &spaces)?;
    Ok(Job { registry })
}

/// The registry of the group that is described.
fn judge(alloc: Global, nodes: &[&[u8]], spaces: &[Space]) -> Result<Registry, Refusal>
    ensures { ReadsJson (λ r. r) result
        (judged (record { nodes = map (λ n. n.now) nodes.now; spaces = spaces.now })) }
{
    let opened = match Registry::new(alloc, nodes) {
        Err(Refusal::TooMany) => None,
        Err(refusal) => return Err(refusal),
        Ok(registry) => Some(registry),
    };
    if !are_distinct(alloc, spaces)? {
        return Err(Refusal::Exists);
    }
    let Some(registry) = opened else {
        return Err(Refusal::TooMany);
    };
    if nodes.len() > MAX_JOB_NODES || spaces.len() > MAX_SPACES || !are_few(spaces) {
        return Err(Refusal::TooMany);
    }
    with_spaces(registry, spaces)
}

/// The registry with these namespaces too, registered one after another.
fn with_spaces(mut registry: Registry, spaces: &[Space]) -> Result<Registry, Refusal>
    ensures { ReadsJson (λ r. r) result (with_spaces registry spaces.now) }
{
    for space in spaces {
        registry.register(space.name.copy()?, &space.homes)?;
    }
    Ok(registry)
}
