//! The events of a selection.
ghost use Rattle.std.specs.Prelude.{
  ◌≡◌,
  ◌≤◌,
  ℕ,
  bytes_eq,
  map,
  option_map,
  IfOk,
  IfSome,
  IsTrue,
};
ghost use Rattle.std.specs.List.{All};
ghost use Rattle.std.specs.Str.{is_utf8};
ghost use Rattle.byte_patterns.specs.Judging.{Judges, plainly};
ghost use Rattle.event_sets.specs.Sets.{called, near_times, rest};
ghost use Rattle.manifest_cache.specs.Kept.{AgreesWith};
ghost use Rattle.selection_eval.specs.Denoted.{
  at_found,
  at_pattern,
  denote,
  join_of,
  joined,
  searched,
};
ghost use Rattle.selection_eval.specs.Paths.{at_paths};
ghost use Rattle.selection_eval.specs.Spots.{itemized};
ghost use Rattle.selection_eval.specs.Turning.{JudgesSet, Makes, step};
ghost use Rattle.selection_parser.specs.Plain.{in_order};
ghost use Rattle.selection_parser.specs.Texts.{has_utf8_texts};
ghost use Rattle.selection_parser.specs.Views.{plain_of};

use crate::items::itemized;
use crate::names::Names;
use crate::paths::{OnePath, at_paths};
use crate::searching::search;
use crate::trees::in_trees;
use byte_patterns::{Pattern, Patterns};
use event_arena::Events;
use event_sets::EventSet;
use manifest_cache::Manifests;
use plain_model::{Copied, Fault, Halt, IdList, NoMemory, Text};
use selection_parser::{FieldSet, Function, Item, Selection};
use std::alloc::Global;
use std::str::from_utf8;

// `[path]`.
fn at_path<'e>(alloc: Global, path: &[u8], events: &'e Events) -> Result<EventSet<'e>, NoMemory>
    ensures events { IfOk result (λ set. set.events ≡ events.now.list) }
    ensures ids { IfOk result (λ set. set.ids ≡ at_paths (bytes_eq path.now) events.now.list) }
{
    let mut test = OnePath { path };
    at_paths(alloc, events, &mut test)
}

// The events at paths that a pattern is found in.
fn at_found<'e>(
    alloc: Global,
    pattern: &Pattern,
    whole: bool,
    events: &'e Events,
    manifests: &mut Manifests,
) -> Result<EventSet<'e>, NoMemory>
    requires { AgreesWith events.now.list manifests.old }
    ensures events { IfOk result (λ set. set.events ≡ events.now.list) }
    ensures ids { IfOk result (λ set. set.ids ≡ at_found whole pattern.now events.now.list) }
    ensures agrees { AgreesWith events.now.list manifests.new }
{
    let mut searcher = pattern.searcher(alloc)?;
    if whole {
        in_trees(alloc, events, manifests, &mut searcher)
    } else {
        at_paths(alloc, events, &mut searcher)
    }
}

// `[/p/]` and `[/p/c]`.
fn at_pattern<'e, P: Patterns>(
    alloc: Global,
    pattern: &str,
    whole: bool,
    events: &'e Events,
    manifests: &mut Manifests,
    patterns: &mut P,
) -> Result<EventSet<'e>, Halt>
    requires { AgreesWith events.now.list manifests.old }
    ensures events { IfOk result (λ set. set.events ≡ events.now.list) }
    ensures judged { Judges (λ set. set.ids) (P.sizes patterns.old) (P.sizes patterns.new) result
        (at_pattern pattern.now whole events.now.list) }
    ensures grows { P.sizes patterns.old ≤ P.sizes patterns.new }
    ensures agrees { AgreesWith events.now.list manifests.new }
{
    match Pattern::of(alloc, pattern, patterns) {
        Ok(pattern) => Ok(at_found(alloc, &pattern, whole, events, manifests)?),
        Err(halt) => Err(halt),
    }
}

// The refusal of bytes that are no text, which no selection has that was read.
fn no_pattern(alloc: Global, pattern: &Text) -> Result<Fault, NoMemory> {
    let pattern = pattern.copied(alloc)?;
    Ok(Fault::BadPattern { pattern })
}

// `/p/` of a pattern in bytes.
fn search_text<'e, P: Patterns>(
    alloc: Global,
    pattern: &Text,
    fields: FieldSet,
    events: &'e Events,
    patterns: &mut P,
) -> Result<EventSet<'e>, Halt>
    ensures events { IfOk result (λ set. set.events ≡ events.now.list) }
    ensures judged { IsTrue (is_utf8 pattern.now) → JudgesSet (P.sizes patterns.old)
        (P.sizes patterns.new) result (searched pattern.now fields events.now.list) }
    ensures grows { P.sizes patterns.old ≤ P.sizes patterns.new }
{
    match from_utf8(pattern.as_slice()) {
        Ok(pattern) => search(alloc, pattern, fields, events, patterns),
        Err(_) => Err(Halt::Refused(no_pattern(alloc, pattern)?)),
    }
}

// `[/p/]` and `[/p/c]` of a pattern in bytes.
fn at_pattern_text<'e, P: Patterns>(
    alloc: Global,
    pattern: &Text,
    whole: bool,
    events: &'e Events,
    manifests: &mut Manifests,
    patterns: &mut P,
) -> Result<EventSet<'e>, Halt>
    requires { AgreesWith events.now.list manifests.old }
    ensures events { IfOk result (λ set. set.events ≡ events.now.list) }
    ensures judged { IsTrue (is_utf8 pattern.now) → JudgesSet (P.sizes patterns.old)
        (P.sizes patterns.new) result (at_pattern pattern.now whole events.now.list) }
    ensures grows { P.sizes patterns.old ≤ P.sizes patterns.new }
    ensures agrees { AgreesWith events.now.list manifests.new }
{
    match from_utf8(pattern.as_slice()) {
        Ok(pattern) => at_pattern(alloc, pattern, whole, events, manifests, patterns),
        Err(_) => Err(Halt::Refused(no_pattern(alloc, pattern)?)),
    }
}

// A set joined with another: what is in one of them, or in both.
fn join<'e>(
    alloc: Global,
    wants_both: bool,
    left: &EventSet<'e>,
    right: &EventSet<'e>,
) -> Result<EventSet<'e>, NoMemory>
    requires { right.now.events ≡ left.now.events }
    ensures events { IfOk result (λ set. set.events ≡ left.now.events) }
    ensures ids { IfOk result (λ set. set.ids ≡ join_of wants_both left.now.ids right.now.ids) }
{
    if wants_both {
        left.common(alloc, right)
    } else {
        left.union(alloc, right)
    }
}

// The set so far, if there is one, joined with another.
fn next<'e>(
    alloc: Global,
    wants_both: bool,
    so_far: Option<EventSet<'e>>,
    right: EventSet<'e>,
) -> Result<EventSet<'e>, NoMemory>
    requires { IfSome so_far (λ set. set.events ≡ right.events) }
    ensures events { IfOk result (λ set. set.events ≡ right.entry.events) }
    ensures ids { IfOk result (λ set. set.ids
        ≡ step (join_of wants_both) (option_map (λ set. set.ids) so_far.entry) right.entry.ids) }
{
    match so_far {
        Some(left) => join(alloc, wants_both, &left, &right),
        None => Ok(right),
    }
}

// ---- what is made of an answer

// All other events.
#[tactic(auto, using(crate::proofs::Judged::made, byte_patterns::proofs::Judged::stopped))]
fn rest_of<'e>(
    alloc: Global,
    answer: Result<EventSet<'e>, Halt>,
    events: &Events,
) -> Result<EventSet<'e>, Halt>
    requires { IfOk answer (λ set. set.events ≡ events.now.list) }
    ensures events { IfOk result (λ set. set.events ≡ events.now.list) }
    ensures judged { Makes (rest events.now.list) answer.entry result }
{
    match answer {
        Ok(set) => Ok(set.rest(alloc)?),
        Err(halt) => Err(halt),
    }
}

// The neighbours, so many times over.
#[tactic(auto, using(crate::proofs::Judged::made, byte_patterns::proofs::Judged::stopped))]
fn near_of<'e>(
    alloc: Global,
    answer: Result<EventSet<'e>, Halt>,
    times: u64,
    events: &Events,
) -> Result<EventSet<'e>, Halt>
    requires { IfOk answer (λ set. set.events ≡ events.now.list) }
    ensures events { IfOk result (λ set. set.events ≡ events.now.list) }
    ensures judged { Makes (near_times events.now.list times) answer.entry result }
{
    match answer {
        Ok(set) => Ok(set.near(alloc, times)?),
        Err(halt) => Err(halt),
    }
}

// What a function makes of it.
#[tactic(auto, using(crate::proofs::Judged::made, byte_patterns::proofs::Judged::stopped))]
fn called_of<'e>(
    alloc: Global,
    answer: Result<EventSet<'e>, Halt>,
    function: Function,
    events: &Events,
) -> Result<EventSet<'e>, Halt>
    requires { IfOk answer (λ set. set.events ≡ events.now.list) }
    ensures events { IfOk result (λ set. set.events ≡ events.now.list) }
    ensures judged { Makes (called events.now.list function) answer.entry result }
{
    match answer {
        Ok(set) => Ok(set.called(alloc, function)?),
        Err(halt) => Err(halt),
    }
}

// Items. No pattern is built.
#[tactic(auto, using(crate::proofs::Judged::plain_judged))]
fn listed<'e>(
    alloc: Global,
    items: &[Item],
    events: &'e Events,
    names: &Names,
) -> Result<EventSet<'e>, Halt>
    ensures events { IfOk result (λ set. set.events ≡ events.now.list) }
    ensures judged { (before : ℕ) → JudgesSet before before result
        (plainly (itemized items.now events.now.list names.now)) }
{
    match itemized(alloc, items, events, names) {
        Ok(set) => Ok(set),
        Err(halt) => Err(halt),
    }
}

// ---- selections

// The sets of several selections, each joined with those before it.
#[cycle(selections)]
fn joined<'e, P: Patterns>(
    alloc: Global,
    wants_both: bool,
    all: &[Selection],
    events: &'e Events,
    manifests: &mut Manifests,
    names: &Names,
    patterns: &mut P,
) -> Result<EventSet<'e>, Halt>
    requires { AgreesWith events.now.list manifests.old }
    ensures events { IfOk result (λ set. set.events ≡ events.now.list) }
    ensures judged { All (λ one. IsTrue (has_utf8_texts (plain_of one))) all.now →
        JudgesSet (P.sizes patterns.old) (P.sizes patterns.new) result
        (joined (join_of wants_both) (in_order (map plain_of all.now)) events.now.list names.now) }
    ensures grows { P.sizes patterns.old ≤ P.sizes patterns.new }
    ensures agrees { AgreesWith events.now.list manifests.new }
{
    let mut so_far = None;
    for one in all {
        match set_of(alloc, one, events, manifests, names, patterns) {
            Ok(right) => so_far = Some(next(alloc, wants_both, so_far, right)?),
            Err(halt) => return Err(halt),
        }
    }
    match so_far {
        Some(set) => Ok(set),
        None => Ok(EventSet::none(alloc, events)?),
    }
}

// The events of a selection, as a set.
#[cycle(selections)]
#[tactic(auto, using(selection_parser::proofs::Layers::layers, crate::proofs::Arms::texts_of_all, crate::proofs::Arms::texts_of_each, crate::proofs::Arms::texts_of_not, crate::proofs::Arms::texts_of_near, crate::proofs::Arms::texts_of_call, crate::proofs::Arms::texts_of_search, crate::proofs::Arms::texts_of_paths), unfolding(crate::specs::Denoted::denote))]
fn set_of<'e, P: Patterns>(
    alloc: Global,
    selection: &Selection,
    events: &'e Events,
    manifests: &mut Manifests,
    names: &Names,
    patterns: &mut P,
) -> Result<EventSet<'e>, Halt>
    requires { AgreesWith events.now.list manifests.old }
    ensures events { IfOk result (λ set. set.events ≡ events.now.list) }
    ensures judged { IsTrue (has_utf8_texts (plain_of selection.now)) → JudgesSet (P.sizes patterns.old) (P.sizes patterns.new) result
        (denote (plain_of selection.now) events.now.list names.now) }
    ensures grows { P.sizes patterns.old ≤ P.sizes patterns.new }
    ensures agrees { AgreesWith events.now.list manifests.new }
{
    match selection {
        Selection::Union(all) => {
            let all = all.as_slice();
            joined(alloc, false, all, events, manifests, names, patterns)
        }
        Selection::Both(all) => {
            let all = all.as_slice();
            joined(alloc, true, all, events, manifests, names, patterns)
        }
        Selection::Not(of) => {
            let answer = set_of(alloc, of, events, manifests, names, patterns);
            rest_of(alloc, answer, events)
        }
        Selection::Near { times, of } => {
            let answer = set_of(alloc, of, events, manifests, names, patterns);
            near_of(alloc, answer, *times, events)
        }
        Selection::Call { function, of } => {
            let answer = set_of(alloc, of, events, manifests, names, patterns);
            called_of(alloc, answer, *function, events)
        }
        Selection::Kinds(kinds) => Ok(EventSet::of_kinds(alloc, events, *kinds)?),
        Selection::Search { pattern, fields } => {
            search_text(alloc, pattern, *fields, events, patterns)
        }
        Selection::AtPath(path) => Ok(at_path(alloc, path.as_slice(), events)?),
        Selection::AtPattern { pattern, whole } => at_pattern_text(
            alloc, pattern, *whole, events, manifests, patterns,
        ),
        Selection::Items(items) => listed(alloc, items.as_slice(), events, names),
    }
}

/// The events of a selection, in its order, or the first refusal from left to right. (reposurgeon manual, "Selection
/// syntax")
pub fn eval<P: Patterns>(
    alloc: Global,
    selection: &Selection,
    events: &Events,
    manifests: &mut Manifests,
    names: &Names,
    patterns: &mut P,
) -> Result<IdList, Halt>
    requires texts { IsTrue (has_utf8_texts (plain_of selection.now)) }
    requires agrees { AgreesWith events.now.list manifests.old }
    ensures judged { Judges (λ ids. ids) (P.sizes patterns.old) (P.sizes patterns.new) result
        (denote (plain_of selection.now) events.now.list names.now) }
    ensures grows { P.sizes patterns.old ≤ P.sizes patterns.new }
    ensures agrees { AgreesWith events.now.list manifests.new }
{
    match set_of(alloc, selection, events, manifests, names, patterns) {
        Ok(set) => Ok(set.into_ids(alloc)?),
        Err(halt) => Err(halt),
    }
}
