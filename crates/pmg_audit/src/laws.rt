//! The laws of journals that are replayed and put into an order.
ghost use Rattle.pmg_audit.specs.Laws.{MovesAreOneRun};

/// States that some journals are one run of the model, for which the laws of every run hold. A replay gives their replies, their clients'
/// transcripts agree with them, and they have an order in which each frame is delivered after it was sent.
pub fn audit_rules()
    ensures one_run { MovesAreOneRun }
{}
