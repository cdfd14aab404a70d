//! The processes that see a put.
ghost use Rattle.std.specs.Prelude.{◌≡◌};
ghost use Rattle.pmg_scope.specs.Scopes.{reaches};

/// The scope of a put: who may see it (PMIx Standard 5.0, pmix_scope_t).
#[derive(Clone, Copy, PartialEq, Eq)]
pub enum Scope {
    /// PMIX_SCOPE_UNDEF: no scope is named. No put may have it.
    Undef,
    /// PMIX_INTERNAL: the process itself.
    Internal,
    /// PMIX_LOCAL: the process, and those on its node.
    Local,
    /// PMIX_REMOTE: the process, and those on other nodes.
    Remote,
    /// PMIX_GLOBAL: the process, and all others.
    Global,
}

/// The relation of a reader to the process that it reads.
#[derive(Clone, Copy, PartialEq, Eq)]
pub enum Reach {
    /// The reader is that process.
    Own,
    /// The reader is another process on its node.
    Near,
    /// The reader is a process on another node.
    Far,
}

/// Returns whether a put of that scope is seen at that reach.
pub fn includes(scope: Scope, reach: Reach) -> bool
    ensures { result ≡ reaches scope reach }
{
    match reach {
        Reach::Own => scope != Scope::Undef,
        Reach::Near => scope == Scope::Local || scope == Scope::Global,
        Reach::Far => scope == Scope::Remote || scope == Scope::Global,
    }
}
