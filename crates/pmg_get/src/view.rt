//! What a get looks at.
use pmg_value::Value;

/// Whether a get waits for what is not there yet, and where it looks (PMIx Standard 5.0, PMIx_Get).
#[derive(Clone, Copy, PartialEq, Eq)]
pub enum Mode {
    /// It waits until there is something to answer.
    Wait,
    /// It looks only at what its node holds (a mode of this project).
    Now,
    /// Of a process on another node it asks the home anew, and looks once the reply is there; else it is as Now
    /// (PMIX_GET_REFRESH_CACHE).
    Refresh,
}

/// What there is to be seen of a key at the node of the process that asks (PMIx Standard 5.0, PMIx_Get).
#[derive(Clone, Copy)]
pub enum View<'a> {
    /// A reserved key: the registry tells it.
    Reserved {
        /// What the registry has under the key.
        value: Option<&'a Value>,
    },
    /// A key of the process itself: its cache tells it.
    Own {
        /// Its last put of the key, sealed or not.
        value: Option<&'a Value>,
    },
    /// A key of another process of the same node.
    Near {
        /// What reads of processes of the same node give.
        near: Option<&'a Value>,
        /// What reads of processes of other nodes give.
        far: Option<&'a Value>,
        /// Whether it is known that the process has ended.
        term: bool,
    },
    /// A key of a process of another node.
    Far {
        /// What reads of processes of other nodes give.
        far: Option<&'a Value>,
        /// Whether it is known that the process has ended.
        term: bool,
    },
}
