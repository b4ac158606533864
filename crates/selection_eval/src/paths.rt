//! The events at paths, by the operations of commits.
ghost use Rattle.std.specs.Prelude.{◌≡◌, ◌||◌, [], flat_map, length, map, if◌then◌else◌, IfOk};
ghost use Rattle.std.specs.List.{list_any};
ghost use Rattle.event_sets.specs.Bits.{Adds, bits_of};
ghost use Rattle.plain_model.specs.Lookups.{id_of, is_listed};
ghost use Rattle.selection_eval.specs.Paths.{at_paths, content_blob, ops_of, put_at, touches};

use byte_patterns::Searcher;
use event_arena::Events;
use event_sets::EventSet;
use plain_model::{AnyId, Content, FileOp, NoMemory, Path, PlainEvent};
use std::alloc::Global;

/// A test of paths. It may keep what it takes from one path to the next, but the same paths pass.
pub trait PathTest {
    ghost use Rattle.std.specs.Prelude.{Bool};
    ghost use Rattle.plain_model.specs.Paths.{Bytes};

    /// Which paths pass.
    ghost test: { Self → Bytes → Bool };

    /// Whether a path passes.
    fn passes(&mut self, path: &[u8]) -> bool
        ensures passes { result ≡ test self.old path.now }
        ensures same { test self.new ≡ test self.old };
}

/// Only this path passes.
#[derive(Drop)]
pub struct OnePath<'p> {
    pub path: &'p [u8],
}

impl<'p> PathTest for OnePath<'p> {
    ghost use Rattle.std.specs.Prelude.{bytes_eq};

    ghost test = { λ t. bytes_eq t.path.now };

    fn passes(&mut self, path: &[u8]) -> bool {
        self.path == path
    }
}

// The paths in which the pattern is found pass.
impl<'r> PathTest for Searcher<'r> {
    ghost use Rattle.byte_patterns.specs.Searching.{found_in};

    ghost test = { λ s. found_in s };

    fn passes(&mut self, path: &[u8]) -> bool {
        self.finds(path)
    }
}

/// No bit is set.
pub fn no_bits(alloc: Global, events: &Events) -> Result<Vec<bool>, NoMemory>
    ensures { IfOk result (λ bits. bits.items ≡ bits_of events.now.list []) }
{
    Ok(vec![in alloc; false; events.count()]?)
}

// Sets the bit of a blob, if it is one of the history.
fn mark_content(events: &Events, content: Content, bits: &mut Vec<bool>)
    requires { length bits.old.items ≡ length events.now.list }
    ensures count { length bits.new.items ≡ length bits.old.items }
    ensures adds { Adds events.now.list (content_blob content) bits.old.items bits.new.items }
{
    let _count = events.count();
    if let Content::Blob(blob) = content {
        if let Some(place) = events.place(AnyId::Blob(blob)) {
            bits[place] = true;
        }
    }
}

/// Where a path passes, sets the bit of the blob that is put there; and tells whether it passes.
pub fn mark_at<T: PathTest>(
    events: &Events,
    path: &Path,
    content: Content,
    test: &mut T,
    bits: &mut Vec<bool>,
) -> bool
    requires { length bits.old.items ≡ length events.now.list }
    ensures passes { result ≡ T.test test.old path.now }
    ensures count { length bits.new.items ≡ length bits.old.items }
    ensures adds { Adds events.now.list
        (if T.test test.old path.now then content_blob content else [])
        bits.old.items bits.new.items }
    ensures same { T.test test.new ≡ T.test test.old }
{
    let passes = test.passes(path.as_bytes());
    if passes {
        mark_content(events, content, bits);
    }
    passes
}

// Whether one of two paths passes.
fn passes_either<T: PathTest>(test: &mut T, one: &[u8], other: &[u8]) -> bool
    ensures passes { result ≡ (T.test test.old one.now || T.test test.old other.now) }
    ensures same { T.test test.new ≡ T.test test.old }
{
    test.passes(one) || test.passes(other)
}

// Sets the bit of the blob that an operation puts at a path that passes; and tells whether it
// touches such a path.
fn mark_op<T: PathTest>(events: &Events, op: &FileOp, test: &mut T, bits: &mut Vec<bool>) -> bool
    requires { length bits.old.items ≡ length events.now.list }
    ensures touches { result ≡ touches (T.test test.old) op.now }
    ensures count { length bits.new.items ≡ length bits.old.items }
    ensures adds { Adds events.now.list (put_at (T.test test.old) op.now)
        bits.old.items bits.new.items }
    ensures same { T.test test.new ≡ T.test test.old }
{
    match op {
        FileOp::Modify { content, path, .. } => mark_at(events, path, *content, test, bits),
        FileOp::Delete { path } => test.passes(path.as_bytes()),
        FileOp::Copy { source, target } => {
            passes_either(test, source.as_bytes(), target.as_bytes())
        }
        FileOp::Rename { source, target } => {
            passes_either(test, source.as_bytes(), target.as_bytes())
        }
        FileOp::DeleteAll => false,
    }
}

// The same for all operations of a commit.
fn mark_ops<T: PathTest>(
    events: &Events,
    ops: &[FileOp],
    test: &mut T,
    bits: &mut Vec<bool>,
) -> bool
    requires { length bits.old.items ≡ length events.now.list }
    ensures touches { result ≡ list_any (touches (T.test test.old)) ops.now }
    ensures count { length bits.new.items ≡ length bits.old.items }
    ensures adds { Adds events.now.list (flat_map (put_at (T.test test.old)) ops.now)
        bits.old.items bits.new.items }
    ensures same { T.test test.new ≡ T.test test.old }
{
    let mut touched = false;
    for op in ops {
        touched |= mark_op(events, op, test, bits);
    }
    touched
}

// The same for an event, which touches no path if it is no commit.
fn mark_event<T: PathTest>(
    events: &Events,
    event: &PlainEvent,
    test: &mut T,
    bits: &mut Vec<bool>,
) -> bool
    requires { length bits.old.items ≡ length events.now.list }
    ensures touches { result ≡ list_any (touches (T.test test.old)) (ops_of event.now) }
    ensures count { length bits.new.items ≡ length bits.old.items }
    ensures adds { Adds events.now.list (flat_map (put_at (T.test test.old)) (ops_of event.now))
        bits.old.items bits.new.items }
    ensures same { T.test test.new ≡ T.test test.old }
{
    match event {
        PlainEvent::Commit { ops, .. } => mark_ops(events, ops.as_slice(), test, bits),
        _ => false,
    }
}

// For each event whether it is at a path that passes.
fn marks_at_paths<T: PathTest>(
    alloc: Global,
    events: &Events,
    test: &mut T,
) -> Result<Vec<bool>, NoMemory>
    ensures marks { IfOk result (λ bits. bits.items ≡ map (λ e.
        list_any (touches (T.test test.old)) (ops_of e) || is_listed (id_of e)
        (flat_map (λ e. flat_map (put_at (T.test test.old)) (ops_of e)) events.now.list))
        events.now.list) }
    ensures same { T.test test.new ≡ T.test test.old }
{
    let mut bits = no_bits(alloc, events)?;
    for place in 0..events.count() {
        if mark_event(events, events.nth(place), test, &mut bits) {
            bits[place] = true;
        }
    }
    Ok(bits)
}

/// The commits with an operation at a path that passes, and the blobs that are put there,
/// ascending.
pub fn at_paths<'e, T: PathTest>(
    alloc: Global,
    events: &'e Events,
    test: &mut T,
) -> Result<EventSet<'e>, NoMemory>
    ensures events { IfOk result (λ set. set.events ≡ events.now.list) }
    ensures ids { IfOk result (λ set. set.ids ≡ at_paths (T.test test.old) events.now.list) }
    ensures same { T.test test.new ≡ T.test test.old }
{
    let bits = marks_at_paths(alloc, events, test)?;
    Ok(EventSet::of_bits(events, bits))
}
