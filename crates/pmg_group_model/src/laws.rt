ghost use Rattle.pmg_group_model.specs.Examples.{RunOfTwo, RunOfMeeting, RunOfRefreshing, RunOfThree, RunOfWaiting};
ghost use Rattle.pmg_group_model.specs.Forgetting.{KeepsTwo, KeepsWaiting};
ghost use Rattle.pmg_group_model.specs.Laws.{AlwaysGood, ScriptsAreTold, OneHeader};
ghost use Rattle.pmg_group_model.specs.Lawful.{Always, AnswersNeverFall, FenceTheorem, RefreshesAnew, ReleasesAlike, ReleasesWhole};
ghost use Rattle.pmg_group_model.specs.Turns.{NamesWereEntered, AlwaysInTurn};

/// States the laws over every interleaving of the steps of a group, for any choice of delivered frames, their order, repeats and losses.
/// The state of each node fits the scripts of all processes, and these are the scripts that the events produce. Each node sends one header
/// for a fence, and each fence in a node's table was entered. No process runs past a fence that is not over. A node keeps at most two
/// fences of a signature, and keeps the fences in which its processes wait. No process is released from a fence before each participant has
/// entered or is gone, and all processes that are released from one fence learn equal gone participants. After the release from a fence
/// that collects data, gets are answered with each participant's state at its entry, or a later one. The answers of one process about
/// another never go back. A get that asks the home of its target anew, and waits for the reply, is answered with the target's sealed state
/// at the beginning of the get, or a later one (PMIx Standard 5.0, PMIX_GET_REFRESH_CACHE).
pub fn every_interleaving()
    ensures always_good { AlwaysGood }
    ensures scripts_are_told { ScriptsAreTold }
    ensures one_header { OneHeader }
    ensures names_were_entered { NamesWereEntered }
    ensures always_in_turn { AlwaysInTurn }
    ensures keeps_two { KeepsTwo }
    ensures keeps_waiting { KeepsWaiting }
    ensures fence_theorem { FenceTheorem }
    ensures released_whole { Always ReleasesWhole }
    ensures released_alike { Always ReleasesAlike }
    ensures gets_rise { Always AnswersNeverFall }
    ensures refresh_theorem { Always RefreshesAnew }
{}

/// Gives five runs of small groups, step by step. They witness that the laws of every run are not vacuous (PMIx Standard 5.0, PMIx_Fence,
/// PMIX_COLLECT_DATA). The first four are of two nodes with a process each. In the first, one process ends. The other enters a fence of
/// both that collects data, and waits for the other node's header, then for the commit that the header names. It is released with the first
/// process gone, and its get of a key of the first process is answered. In the second, the one process puts a value and commits it, and
/// both enter. The other process waits in the same way, is released with no process gone, and finds the value. In the third a get waits,
/// the node asks the home of its key's process, and the process takes the answer: a get that waited counts as answered then. In the fourth
/// a get asks anew, the home replies, and the process takes the answer: the refresh theorem is about such a get. The fifth is of one node
/// with two processes. Both enter and leave two fences of one signature. Then one of them waits in the third fence, and the node has
/// forgotten the first: the node keeps a fence in which a process waits, though it forgets others.
pub fn worked_runs()
    ensures run_of_two { RunOfTwo }
    ensures run_of_meeting { RunOfMeeting }
    ensures run_of_waiting { RunOfWaiting }
    ensures run_of_refreshing { RunOfRefreshing }
    ensures run_of_three { RunOfThree }
{}
