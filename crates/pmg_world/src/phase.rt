//! The progress of a script.
use crate::scene::Scene;
use pmg_jobinfo::Registry;

/// The progress of a script.
pub(crate) enum Phase {
    /// No line has named the nodes.
    Fresh,
    /// Namespaces are registered.
    Registering(Registry),
    /// The world runs.
    Running(Scene),
    /// The names of the nodes were refused: no further line is carried out.
    Over,
}

impl Drop for Phase {
    fn drop(self) {
        match self {
            Phase::Fresh => {}
            Phase::Registering(_) => {}
            Phase::Running(_) => {}
            Phase::Over => {}
        }
    }
}
