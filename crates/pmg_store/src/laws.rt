ghost use Rattle.pmg_store.specs.HonestData.{EmptyIsHonest, AbsorbedIsHonest, JoinedIsHonest, LongerIsHonest, HonestDataReads, HonestLevelIsMade, LevelsRise};
ghost use Rattle.pmg_store.specs.HonestStores.{StoreReadsHonestly, EqualStoresReadAlike};
ghost use Rattle.pmg_store.specs.Convergence.{Converges, SameInAnyOrder, SameInAnyGrouping, ReadsAlike, PrintsAlike, StreamsPrintAlike, MergesAlike, MergesAsOne, HoldsUnion};

/// States the convergence theorem. Two servers that have taken equal sets of pieces, in any order, in any grouping and with any repeats,
/// hold and print equal data. For each process this is the core of the union of the pieces' knowledge. The theorem holds for any sequence
/// of `Store::new`, `absorb` and `join` (`converges`), for lists of pieces and for streams.
pub fn pieces_in_any_order()
    ensures converges { Converges }
    ensures any_order { SameInAnyOrder }
    ensures any_grouping { SameInAnyGrouping }
    ensures reads_alike { ReadsAlike }
    ensures prints_alike { PrintsAlike }
    ensures streams_print_alike { StreamsPrintAlike }
    ensures merges_alike { MergesAlike }
    ensures merges_as_one { MergesAsOne }
    ensures union { HoldsUnion }
{}

/// States the laws of stores of honest pieces, which a process's own commits sealed. Such a store reads the state after the commit at its
/// level of the process. Therefore servers at equal levels of a process read equal values.
pub fn honest_stores()
    ensures store_reads_honestly { StoreReadsHonestly }
    ensures equal_levels_read_alike { EqualStoresReadAlike }
{}

/// States the laws of data that is honest for a process: all knowledge of the process comes from its own commits. The data stays honest
/// after it takes honest contributions, and after later calls of the process. Reads are honest at a level that is one of the process's
/// commits. Levels never fall.
pub fn honest_data()
    ensures empty { EmptyIsHonest }
    ensures absorbed { AbsorbedIsHonest }
    ensures joined { JoinedIsHonest }
    ensures longer { LongerIsHonest }
    ensures reads { HonestDataReads }
    ensures level_is_made { HonestLevelIsMade }
    ensures levels_rise { LevelsRise }
{}
