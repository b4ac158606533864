//! Small examples of what the definitions say, computed by the checker.
ghost use Rattle.std.specs.Prelude.{◌≡◌, [], ◌∷◌, map};
ghost use Rattle.plain_model.specs.Lookups.{id_of};
ghost use Rattle.squash_laws.specs.Examples.{commits};
ghost use Rattle.coalesce_laws.specs.Coalesce.{coalesce_of};
ghost use Rattle.coalesce_laws.specs.Examples.{
  dates_back,
  dates_back_once,
  dates_back_twice,
  forked,
  last_two_once,
  merged,
  repeated,
  repeated_once,
  three,
  three_once,
};

/// Two commits of one person with one comment become one where they are a hundred seconds apart, and not where only
/// fewer are allowed, or one of them isn't selected.
pub fn a_repeated_comment_is_joined()
    ensures near { coalesce_of 100 (map id_of repeated) repeated ≡ repeated_once }
    ensures far { coalesce_of 99 (map id_of repeated) repeated ≡ repeated }
    ensures alone { coalesce_of 100 (commits (2 ∷ 4 ∷ [])) repeated ≡ repeated }
{}

/// Of a chain the last commit stays, with all operations; seconds count from each commit to the next. A tag goes along.
/// Where only the last two are selected, the first one stays.
pub fn a_chain_becomes_its_last_commit()
    ensures whole { coalesce_of 100 (map id_of three) three ≡ three_once }
    ensures rear { coalesce_of 100 (commits (4 ∷ 3 ∷ [])) three ≡ last_two_once }
    ensures ends { coalesce_of 200 (commits (2 ∷ 4 ∷ [])) three ≡ three }
{}

/// What is joined is decided on the history as it was. A second time more may be joined, where dates go back.
pub fn a_second_time_may_join_more()
    ensures first { coalesce_of 100 (map id_of dates_back) dates_back ≡ dates_back_once }
    ensures second { coalesce_of 100 (map id_of dates_back) dates_back_once ≡ dates_back_twice }
{}

/// A commit with two children isn't joined to either, and none is joined to one on another branch.
pub fn a_fork_is_not_joined()
    ensures { coalesce_of 1000 (map id_of forked) forked ≡ forked }
{}

/// A merge isn't joined to its parents.
pub fn a_merge_is_not_joined()
    ensures { coalesce_of 1000 (map id_of merged) merged ≡ merged }
{}
