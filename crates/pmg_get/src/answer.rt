//! The answer of a get.
ghost use Rattle.std.specs.Prelude.{◌≡◌};
ghost use Rattle.pmg_get.specs.Gets.{found_or, resolve, unseen};
ghost use Rattle.pmg_get.specs.Views.{bytes_of, outcome_of, seen_in};

use crate::view::{Mode, View};
use pmg_value::Value;

/// What a get is answered.
#[derive(Clone, Copy)]
pub enum Answer<'a> {
    /// The value.
    Found(&'a Value),
    /// There is no value, and none is waited for.
    NotFound,
    /// There is a value, but its scope keeps it from the process that asks.
    OutsideScope,
    /// Nothing yet: the get waits.
    Park,
}

/// What the get of a key is answered, by what there is to be seen of it. A reserved key and an own one are there or
/// not; of a process of the same node, a value that only other nodes may see is OutsideScope; and where nothing is
/// seen of another process, the get waits if it may and the process has not ended. One that asks anew waits wherever the
/// process is on another node (PMIx Standard 5.0, PMIx_Get, PMIX_GET_REFRESH_CACHE).
#[tactic(auto, unfolding(crate::specs::Gets::resolve))]
pub fn resolve(view: View<'_>, mode: Mode) -> Answer<'_>
    ensures { outcome_of result ≡ resolve (seen_in view.entry) mode }
{
    match view {
        View::Reserved { value } | View::Own { value } => found_or(value, Answer::NotFound),
        View::Near { near, far, term } => match (near, far) {
            (Some(value), _) => Answer::Found(value),
            (None, Some(_)) => Answer::OutsideScope,
            (None, None) => unseen(term, mode),
        },
        View::Far { far, term } => match mode {
            Mode::Refresh => Answer::Park,
            _ => found_or(far, unseen(term, mode)),
        },
    }
}

/// The value, or what a get is answered where there is none.
fn found_or<'a>(value: Option<&'a Value>, otherwise: Answer<'a>) -> Answer<'a>
    ensures { outcome_of result ≡ found_or (bytes_of value.entry) (outcome_of otherwise.entry) }
{
    match value {
        Some(value) => Answer::Found(value),
        None => otherwise,
    }
}

/// What a get is answered where nothing is seen of another process.
fn unseen<'a>(term: bool, mode: Mode) -> Answer<'a>
    ensures { outcome_of result ≡ unseen term mode }
{
    match mode {
        Mode::Wait if !term => Answer::Park,
        _ => Answer::NotFound,
    }
}
