use pmg_value::{Nspace, Proc, Rank, Refusal};
use std::alloc::Global;

/// Returns the process of that rank.
pub fn process(alloc: Global, rank: u32) -> Result<Proc, Refusal> {
    Ok(Proc::new(Nspace::read(alloc, b"j")?, Rank::new(rank)))
}

/// Returns so many processes, from rank 0 on.
pub fn processes(alloc: Global, count: u32) -> Result<Vec<Proc>, Refusal> {
    let mut procs = Vec::new(alloc);
    for rank in 0..count {
        procs.push(process(alloc, rank)?)?;
    }
    Ok(procs)
}
