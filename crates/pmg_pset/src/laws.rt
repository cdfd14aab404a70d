//! What process sets keep.
ghost use Rattle.pmg_pset.specs.Rules.{
  NewSetsFit,
  ChangeFits,
  ChangeIsSeen,
  DefinedIsLive,
  DeletedIsNot,
  ReadsAreSets,
  OnePieceIsEnough,
  MembersRise,
  MembersAreListed,
  MemberOrderIsFree,
};

/// The rules of process sets: they fit the script of the host's process, change by change; there are those that were
/// defined and not deleted since; whoever took its contributions to their level reads what they have; and the members of a set are those of the list that it was
/// defined with, in their order.
pub fn set_rules()
    ensures new_sets_fit { NewSetsFit }
    ensures change_fits { ChangeFits }
    ensures change_is_seen { ChangeIsSeen }
    ensures defined_is_live { DefinedIsLive }
    ensures deleted_is_not { DeletedIsNot }
    ensures reads_are_sets { ReadsAreSets }
    ensures one_piece_is_enough { OnePieceIsEnough }
    ensures members_rise { MembersRise }
    ensures members_are_listed { MembersAreListed }
    ensures order_is_free { MemberOrderIsFree }
{}
