//! Whether the paths that a history names stand apart: those that are matched from the others.
ghost use Rattle.std.specs.Prelude.{
  ◌≡◌,
  Bool,
  filter,
  flat_map,
  length,
  map,
  not,
  IfOk,
  IfSome,
  IsTrue,
  OnOk,
};
ghost use Rattle.std.specs.List.{AllByRecursion, list_any};
ghost use Rattle.expunge_laws.specs.Apart.{AllOps, event_without};
ghost use Rattle.expunge_laws.specs.Matching.{matched_by};
ghost use Rattle.expunge_laws.specs.Untouched.{may_be_touched, may_touch};
ghost use Rattle.path_expunge.specs.Apart.{AreSides, GoesOn, IsNoted, is_named, takes};
ghost use Rattle.plain_model.specs.Lookups.{op_blobs};
ghost use Rattle.plain_model.specs.Paths.{Bytes};
ghost use Rattle.plan_steps.specs.Flags.{FlagsAdd, FlagsNamed};

use crate::matching::Matching;
use crate::sides::{Side, is_deep};
use event_arena::{EventTable, Events};
use plain_model::{FileOp, NoMemory};
use plan_steps::flag_blob;
use std::alloc::Global;

/// The paths that operations name: those that are matched and are taken out, and those that are left.
#[derive(Drop)]
pub struct Named<'a> {
    pub taken: Side<'a>,
    pub left: Side<'a>,
}

impl<'a> Named<'a> {
    // No path.
    fn new(alloc: Global) -> Named<'a>
        ensures { (matched : Bytes → Bool) → AreSides matched result }
    {
        Named {
            taken: Side::new(alloc),
            left: Side::new(alloc),
        }
    }

    /// Whether an operation names a path that is taken out.
    pub fn takes(&self, op: &FileOp) -> bool
        ensures { result ≡ takes self.now op.now }
    {
        match op {
            FileOp::Modify { path, .. } => self.taken.paths.has(path.as_bytes()),
            FileOp::Delete { path } => self.taken.paths.has(path.as_bytes()),
            _ => false,
        }
    }

    // Puts a path that isn't there on its side, and answers whether it is taken out; none where it conflicts with one of
    // the other side, or is deep.
    fn add(&mut self, matching: &mut Matching<'_>, path: &'a [u8]) -> Result<Option<bool>, NoMemory>
        requires { AreSides (matched_by matching.old) self.old }
        ensures sides { OnOk result (AreSides (matched_by matching.old) self.new) }
        ensures more { OnOk result (GoesOn self.old self.new) }
        ensures noted { IfOk result
            (λ noted. IfSome noted (λ taken. IsTrue (is_named self.new path.now))) }
        ensures taken { IfOk result
            (λ noted. IfSome noted (λ taken. taken ≡ matched_by matching.old path.now)) }
        ensures same { matching.new ≡ matching.old }
    {
        // The time that folders take grows with their number times the path's length.
        if is_deep(path) {
            return Ok(None);
        }
        if matching.matches(path) {
            if !self.left.is_clear_of(path) {
                return Ok(None);
            }
            self.taken.add(path)?;
            Ok(Some(true))
        } else {
            if !self.taken.is_clear_of(path) {
                return Ok(None);
            }
            self.left.add(path)?;
            Ok(Some(false))
        }
    }

    // Notes a path, which is looked for in the matchers where it wasn't noted before, and answers whether it is taken
    // out; none where it conflicts with one of the other side.
    fn note_path(
        &mut self,
        matching: &mut Matching<'_>,
        path: &'a [u8],
    ) -> Result<Option<bool>, NoMemory>
        requires { AreSides (matched_by matching.old) self.old }
        ensures sides { OnOk result (AreSides (matched_by matching.old) self.new) }
        ensures more { OnOk result (GoesOn self.old self.new) }
        ensures noted { IfOk result
            (λ noted. IfSome noted (λ taken. IsTrue (is_named self.new path.now))) }
        ensures taken { IfOk result
            (λ noted. IfSome noted (λ taken. taken ≡ matched_by matching.old path.now)) }
        ensures same { matching.new ≡ matching.old }
    {
        if self.left.paths.has(path) {
            return Ok(Some(false));
        }
        if self.taken.paths.has(path) {
            return Ok(Some(true));
        }
        self.add(matching, path)
    }

    // Notes what an operation names, and answers whether that is taken out; none where it is a copy or a rename, or names
    // a path that conflicts.
    fn note_op(
        &mut self,
        matching: &mut Matching<'_>,
        op: &'a FileOp,
    ) -> Result<Option<bool>, NoMemory>
        requires { AreSides (matched_by matching.old) self.old }
        ensures sides { OnOk result (AreSides (matched_by matching.old) self.new) }
        ensures more { OnOk result (GoesOn self.old self.new) }
        ensures noted { IfOk result (λ noted. IfSome noted (λ taken. IsNoted self.new op.now)) }
        ensures taken { IfOk result
            (λ noted. IfSome noted (λ taken. taken ≡ may_touch (matched_by matching.old) op.now)) }
        ensures same { matching.new ≡ matching.old }
    {
        match op {
            FileOp::Modify { path, .. } => self.note_path(matching, path.as_bytes()),
            FileOp::Delete { path } => self.note_path(matching, path.as_bytes()),
            FileOp::Copy { .. } => Ok(None),
            FileOp::Rename { .. } => Ok(None),
            FileOp::DeleteAll => Ok(Some(false)),
        }
    }

    // Notes what operations name, answers whether some of that is taken out, and flags the blobs that the others name.
    fn note_ops(
        &mut self,
        matching: &mut Matching<'_>,
        table: &EventTable,
        ops: &'a [FileOp],
        named: &mut [bool],
    ) -> Result<Option<bool>, NoMemory>
        requires sides { AreSides (matched_by matching.old) self.old }
        requires flags { length named.old ≡ length table.now }
        ensures sides { OnOk result (AreSides (matched_by matching.old) self.new) }
        ensures more { OnOk result (GoesOn self.old self.new) }
        ensures noted { IfOk result
            (λ noted. IfSome noted (λ taken. AllByRecursion (IsNoted self.new) ops.now)) }
        ensures taken { IfOk result (λ noted. IfSome noted
            (λ taken. taken ≡ list_any (may_touch (matched_by matching.old)) ops.now)) }
        ensures named { IfOk result (λ noted. IfSome noted (λ taken. FlagsAdd table.now
            (flat_map op_blobs (filter (λ op. not (may_touch (matched_by matching.old) op)) ops.now))
            named.old named.new)) }
        ensures same { matching.new ≡ matching.old }
    {
        let mut taken = false;
        for op in ops {
            let Some(is_taken) = self.note_op(matching, op)? else {
                return Ok(None);
            };
            if is_taken {
                taken = true;
            } else {
                flag_blob(table, op, named);
            }
        }
        Ok(Some(taken))
    }

    // Notes what a whole history names.
    fn note_all(
        &mut self,
        alloc: Global,
        matching: &mut Matching<'_>,
        events: &'a Events,
    ) -> Result<Option<PlaceFlags>, NoMemory>
        requires { AreSides (matched_by matching.old) self.old }
        ensures sides { OnOk result (AreSides (matched_by matching.old) self.new) }
        ensures noted { IfOk result
            (λ noted. IfSome noted (λ flags. AllOps (IsNoted self.new) events.now.list)) }
        ensures touched { IfOk result (λ noted. IfSome noted (λ flags.
            flags.touched.items ≡ map (may_be_touched (matched_by matching.old)) events.now.list)) }
        ensures named { IfOk result (λ noted. IfSome noted (λ flags. FlagsNamed events.now.list
            (map (event_without (may_touch (matched_by matching.old))) events.now.list)
            flags.named.items)) }
        ensures same { matching.new ≡ matching.old }
    {
        let mut touched = Vec::with_capacity(alloc, events.count())?;
        let mut named = vec![in alloc; false; events.count()]?;
        let table = events.table();
        for place in 0..events.count() {
            let Some(taken) = self.note_ops(matching, table, table.ops_at(place), &mut named)?
            else {
                return Ok(None);
            };
            touched.push(taken)?;
        }
        Ok(Some(PlaceFlags { touched, named }))
    }
}

/// What is known of the places of a history: at which a matched path may be touched, and which are those of blobs that what
/// is in the place of operations names.
#[derive(Drop)]
pub struct PlaceFlags {
    pub touched: Vec<bool>,
    pub named: Vec<bool>,
}

/// The paths that a history names, and what is known of its places.
#[derive(Drop)]
pub struct Noted<'a> {
    pub paths: Named<'a>,
    pub flags: PlaceFlags,
}

/// What a history names, where there are no copies and no renames, and no matched path conflicts with one that isn't.
pub fn named_apart<'a>(
    alloc: Global,
    events: &'a Events,
    matching: &mut Matching<'_>,
) -> Result<Option<Noted<'a>>, NoMemory>
    ensures sides { IfOk result
        (λ found. IfSome found (λ noted. AreSides (matched_by matching.old) noted.paths)) }
    ensures noted { IfOk result
        (λ found. IfSome found (λ noted. AllOps (IsNoted noted.paths) events.now.list)) }
    ensures touched { IfOk result (λ found. IfSome found (λ noted.
        noted.flags.touched.items ≡ map (may_be_touched (matched_by matching.old)) events.now.list)) }
    ensures named { IfOk result (λ found. IfSome found (λ noted. FlagsNamed events.now.list
        (map (event_without (may_touch (matched_by matching.old))) events.now.list)
        noted.flags.named.items)) }
    ensures same { matching.new ≡ matching.old }
{
    let mut paths = Named::new(alloc);
    let Some(flags) = paths.note_all(alloc, matching, events)? else {
        return Ok(None);
    };
    Ok(Some(Noted { paths, flags }))
}
