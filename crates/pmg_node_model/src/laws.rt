ghost use Rattle.pmg_node_model.specs.NodeLaws.{
  ActsFit,
  ParkedWait,
  AnswersStay,
  AnsweredHave,
  RefreshingStays,
  ReadyFrees,
  FreedByReady,
  FreedStays,
  ReleasedWhereReady,
  NamesCome,
  TopsCome,
  TwoStay,
  NamesStay,
  TopsRise,
  HeldStayOwn,
};

/// States the laws of every act of a node. If the state and the act fit some scripts, the state after an act fits them with the act's calls
/// appended. A get waits exactly if it has no answer. A get that asks anew waits until the reply to its request comes, or its process ends.
/// A process in a fence is released at the act that makes the fence ready, and stays released until it leaves or ends. A fence's name
/// enters the table only by an act that names it. The table has at most two instances of a signature: the greatest that came, and the one
/// before. A name stays until its fence is old, and an old fence stays old. Each node that waits for a process's next commit is another
/// node of the group, and the process is at home here.
pub fn node_rules()
    ensures acts_fit { ActsFit }
    ensures parked_wait { ParkedWait }
    ensures answers_stay { AnswersStay }
    ensures answered_have { AnsweredHave }
    ensures refreshing_stays { RefreshingStays }
    ensures ready_frees { ReadyFrees }
    ensures freed_by_ready { FreedByReady }
    ensures freed_stays { FreedStays }
    ensures released_where_ready { ReleasedWhereReady }
    ensures names_come { NamesCome }
    ensures tops_come { TopsCome }
    ensures two_stay { TwoStay }
    ensures names_stay { NamesStay }
    ensures tops_rise { TopsRise }
    ensures held_stay_own { HeldStayOwn }
{}
