//! Elements of sets and keys of maps.
ghost use Rattle.std.specs.Prelude.{◌≡◌};
ghost use Rattle.std.specs.declared.cmp.Ordering.TheVariants.{Equal};

use pmg_value::{Copied, Key, NodeId, Nspace, Proc};

/// Elements of a set and keys of a map: they can be copied, and two that compare as equal are one.
pub trait Element: Ord + Copied {
    ghost exact: { (x y : Self) → Self.cmp x y ≡ Equal → x ≡ y };
}

impl Element for u64 {
    ghost use Rattle.std.proofs.lemmas.Map.Lookups.{exact_unsigned};

    ghost exact = { exact_unsigned };
}

impl Element for NodeId {
    ghost use Rattle.std.proofs.lemmas.Map.Lookups.{exact_unsigned};

    ghost exact = { exact_unsigned };
}

impl Element for Key {
    ghost use Rattle.std.proofs.lemmas.Map.Lookups.{exact_bytes};

    ghost exact = { exact_bytes };
}

impl Element for Nspace {
    ghost use Rattle.std.proofs.lemmas.Map.Lookups.{exact_bytes};

    ghost exact = { exact_bytes };
}

impl Element for Proc {
    ghost use Rattle.pmg_value.proofs.ProcessOrder.{exact_procs};

    ghost exact = { exact_procs };
}

impl Element for (u64, Key) {
    ghost use Rattle.std.specs.Ordering.{nat_cmp};
    ghost use Rattle.std.specs.Cmp.Lexicographic.{slice_cmp};
    ghost use Rattle.std.proofs.lemmas.Map.Lookups.{exact_bytes, exact_pairs, exact_unsigned};

    ghost exact = { exact_pairs nat_cmp (slice_cmp nat_cmp) exact_unsigned exact_bytes };
}
