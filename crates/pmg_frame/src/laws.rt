ghost use Rattle.pmg_frame.specs.FenceOrder.{AreSignaturesExact, AreNamesExact};
ghost use Rattle.pmg_frame.specs.Grammar.{IsFoundFrame, IsOnlyFrame, IsOneFrameSpelling, ArePieces, AreHeaders, AreReplies, AreFitting};
ghost use Rattle.pmg_frame.specs.Runs.{proc_ranks, local_ranks, HaveOneList};
ghost use Rattle.pmg_frame.specs.Streams.{FeedsJoin, StaysClosed, IsDetermined, AreSpelled, AreFound, IsSaid};

/// States the laws of frames. A frame that is read is encoded so, in one of the versions. An encoded frame is read. No frame's encoding is a
/// prefix of another's in any version; therefore each frame has one in each version. A piece, a header or a reply is made exactly if a frame
/// can hold it. Headers and asks fit into a frame of either version.
pub fn frame_rules()
    ensures found { IsFoundFrame }
    ensures only { IsOnlyFrame }
    ensures one_spelling { IsOneFrameSpelling }
    ensures pieces { ArePieces }
    ensures headers { AreHeaders }
    ensures replies { AreReplies }
    ensures fitting { AreFitting }
{}

/// States the law of runs: each list of processes, and each list of a header's participants, has one list of runs.
pub fn run_rules()
    ensures procs { HaveOneList proc_ranks }
    ensures locals { HaveOneList local_ranks }
{}

/// States the laws of streams: the bytes determine the frames and the fault, however they are cut.
pub fn stream_rules()
    ensures joined { FeedsJoin }
    ensures closed { StaysClosed }
    ensures determined { IsDetermined }
    ensures spelled { AreSpelled }
    ensures found { AreFound }
    ensures said { IsSaid }
{}

/// States that the orders of signatures and of fences' names are exact: names that compare as equal are equal.
pub fn fence_order()
    ensures signatures { AreSignaturesExact }
    ensures names { AreNamesExact }
{}
