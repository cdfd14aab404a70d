ghost use Rattle.pmg_fence.specs.Rules.{
  EntryStays,
  HeaderStays,
  OwnHeaderIsTrue,
  HeadersAreTrue,
  ToldIsTrue,
  ReadyIsWhole,
  GoneAreTrue,
  NewFits,
  PutFits,
  CommitFits,
  EnterFits,
  EndFits,
  OthersFit,
  LearnFits,
  HeaderFits,
  LearnKeeps,
  HeaderKeeps,
  EnterKeeps,
  EndKeeps,
};

/// States the laws of entries and headers as scripts grow: each is final.
pub fn entry_rules()
    ensures entry_stays { EntryStays }
    ensures header_stays { HeaderStays }
{}

/// States the laws of a table that fits the scripts. The headers of a fence that is not old are the scripts' headers. Each participant of a
/// ready fence has entered or is gone, and the gone participants are those that ended before they entered.
pub fn table_rules()
    ensures own_header_is_true { OwnHeaderIsTrue }
    ensures headers_are_true { HeadersAreTrue }
    ensures told_is_true { ToldIsTrue }
    ensures ready_is_whole { ReadyIsWhole }
    ensures gone_are_true { GoneAreTrue }
{}

/// States the steps of a table that fits the scripts. A new table fits scripts without calls. After a call of a process, the table fits the
/// scripts with this call. After a name is learned, or a header arrives that agrees with the scripts, it still fits them.
pub fn call_rules()
    ensures new_fits { NewFits }
    ensures put_fits { PutFits }
    ensures commit_fits { CommitFits }
    ensures enter_fits { EnterFits }
    ensures end_fits { EndFits }
    ensures others_fit { OthersFit }
    ensures learn_fits { LearnFits }
    ensures header_fits { HeaderFits }
{}

/// States the laws of known headers: each stays unchanged while its fence is not old, for any learned names, any arriving headers and any
/// calls of own processes.
pub fn header_rules()
    ensures learn_keeps { LearnKeeps }
    ensures header_keeps { HeaderKeeps }
    ensures enter_keeps { EnterKeeps }
    ensures end_keeps { EndKeeps }
{}
