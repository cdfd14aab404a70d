ghost use Rattle.pmg_scope.specs.CacheRules.{CacheNewFits, CachePutFits, CacheCommitFits, CacheEnterFits, CacheEndFits, CacheIsOne, CommitSealsNext};
ghost use Rattle.pmg_scope.specs.Examples.{EachScope, TwoValues, PutAgain, LostPut};
ghost use Rattle.pmg_scope.specs.Rules.{CommitsNeverFall, PastValuesStay, PastSealsStay, EndIsLast, SealedIsValue, NoneIsNoValue};

/// States the rules of scripts. Whatever is called later, the commits and the puts that they sealed stay. A commit leaves the value that
/// was sealed last. After its end a process seals nothing.
pub fn script_rules()
    ensures commits_never_fall { CommitsNeverFall }
    ensures past_values_stay { PastValuesStay }
    ensures past_seals_stay { PastSealsStay }
    ensures sealed_is_value { SealedIsValue }
    ensures none_is_no_value { NoneIsNoValue }
    ensures end_is_last { EndIsLast }
{}

/// Shows scripts by example: the reach of a put of each scope, two values of one key, a put that the next commit seals, and an end.
pub fn script_examples()
    ensures each_scope { EachScope }
    ensures two_values { TwoValues }
    ensures put_again { PutAgain }
    ensures lost_put { LostPut }
{}

/// States the rules of a client's cache. It fits the script of the client's calls, call by call. For others it has what the next commit
/// seals.
pub fn cache_rules()
    ensures new_fits { CacheNewFits }
    ensures put_fits { CachePutFits }
    ensures commit_fits { CacheCommitFits }
    ensures enter_fits { CacheEnterFits }
    ensures end_fits { CacheEndFits }
    ensures cache_is_one { CacheIsOne }
    ensures commit_seals_next { CommitSealsNext }
{}
