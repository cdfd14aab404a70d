ghost use Rattle.pmg_commit.specs.Honest.{HonestReading, EqualLevelsReadAlike, HonestStays, HonestIsOne, LevelIsMade};
ghost use Rattle.pmg_value.specs.Operations.{IsAssociative, IsCommutative, IsIdempotent};
ghost use Rattle.pmg_commit.specs.Knowledge.{union};
ghost use Rattle.pmg_commit.specs.Cores.{join_cores};
ghost use Rattle.pmg_commit.specs.Rules.{
  NumbersBetween,
  LevelIsReach,
  LevelGrows,
  LevelReaches,
  ReadIsLatest,
  ReadIsNone,
  CoreReadsAlike,
  CoreOfUnion,
  CoreOfCore,
  CoreIsLeast,
  AlikeNow,
  AlikeAfter,
  KnownTogether,
  KnownOfOne,
};
ghost use Rattle.pmg_commit.specs.SealerRules.{
  BatchFits,
  AnyBatchFits,
  NewSealerFits,
  SealFits,
  SealerEndFits,
  PutSealsNothing,
  EnterSealsNothing,
  PiecesAreHonest,
  SealerIsOne,
};

/// States the rules of knowledge of one process: its level and its reads, and that its core can replace it now and after more is learned.
pub fn knowledge_rules()
    ensures numbers_between { NumbersBetween }
    ensures level_is_reach { LevelIsReach }
    ensures level_grows { LevelGrows }
    ensures level_reaches { LevelReaches }
    ensures read_is_latest { ReadIsLatest }
    ensures read_is_none { ReadIsNone }
    ensures core_reads_alike { CoreReadsAlike }
    ensures core_of_union { CoreOfUnion }
    ensures core_of_core { CoreOfCore }
    ensures core_is_least { CoreIsLeast }
    ensures alike_now { AlikeNow }
    ensures alike_after { AlikeAfter }
{}

/// States the rules of joining: knowledge, cores, and the data of all processes.
pub fn data_rules()
    ensures unions_assoc { IsAssociative union }
    ensures unions_comm { IsCommutative union }
    ensures unions_idem { IsIdempotent union }
    ensures cores_assoc { IsAssociative join_cores }
    ensures cores_comm { IsCommutative join_cores }
    ensures cores_idem { IsIdempotent join_cores }
    ensures known_together { KnownTogether }
    ensures known_of_one { KnownOfOne }
{}

/// States the rules of honest knowledge. At a level it reads what the process's own commit of that number left; servers at equal levels
/// therefore read alike. Honest knowledge stays honest.
pub fn honest_rules()
    ensures honest_reading { HonestReading }
    ensures equal_levels_read_alike { EqualLevelsReadAlike }
    ensures honest_stays { HonestStays }
    ensures honest_is_one { HonestIsOne }
    ensures level_is_made { LevelIsMade }
{}

/// States the rules of a sealer. It fits the script of its calls, commit by commit and through the end, if its batches come from a fitting
/// cache. Its pieces are honest. A process and its script have one sealer.
pub fn sealer_rules()
    ensures batch_fits { BatchFits }
    ensures any_batch_fits { AnyBatchFits }
    ensures new_fits { NewSealerFits }
    ensures seal_fits { SealFits }
    ensures end_fits { SealerEndFits }
    ensures put_seals_nothing { PutSealsNothing }
    ensures enter_seals_nothing { EnterSealsNothing }
    ensures pieces_are_honest { PiecesAreHonest }
    ensures sealer_is_one { SealerIsOne }
{}
