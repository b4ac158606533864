//! By names alone where these say enough, and else by the trees.
ghost use Rattle.std.specs.Prelude.{◌≡◌, None, IfErr, OnOk};
ghost use Rattle.manifest_cache.specs.Kept.{AgreesWith};
ghost use Rattle.path_move_laws.specs.Moves.{first_of, moved_events};
ghost use Rattle.path_move_laws.specs.PathMaps.{image_of};
ghost use Rattle.path_move_laws.specs.declared.path_map.PathMap.TheVariants.{Sub};
ghost use Rattle.path_moves.specs.Commits.{Reports};
ghost use Rattle.path_moves.specs.Courses.{IsCourse};

use crate::by_name::name_ops;
use crate::commits::move_ops;
use crate::lengths::{has_long_put, longest_in, room_below};
use crate::moving::too_long;
use event_arena::{Events, Plan};
use manifest_cache::Manifests;
use path_move_laws::{
    PathMap, below_a_folder_a_long_put_is_enough, below_a_folder_short_paths_go_by_name,
};
use plain_model::{Halt, Path};
use std::alloc::Global;

/// How a move is made: each operation by its names, or not at all since an image is too long, or by the trees.
#[derive(Drop)]
pub enum Course {
    ByName,
    TooLong,
    ByTrees,
}

// How what goes below a folder is moved.
fn course_below(folder: &Path, events: &Events) -> Course
    ensures { IsCourse (image_of (Sub folder.now)) events.now.list result }
{
    below_a_folder_short_paths_go_by_name();
    below_a_folder_a_long_put_is_enough();
    let _count = events.count();
    let _folder = folder.as_bytes();
    let room = room_below(folder);
    match longest_in(events) {
        Some(longest) if longest < room => return Course::ByName,
        _ => {}
    }
    if has_long_put(folder, events) {
        return Course::TooLong;
    }
    Course::ByTrees
}

fn course_of(map: &PathMap, events: &Events) -> Course
    ensures { IsCourse (image_of map.now) events.now.list result }
{
    match map {
        PathMap::Sub(folder) => course_below(folder, events),
        _ => Course::ByTrees,
    }
}

/// Gives all commits what is in the place of their operations, or finds the first fault of a tree.
pub fn move_all(
    alloc: Global,
    events: &Events,
    manifests: &mut Manifests,
    map: &PathMap,
    plan: &mut Plan,
) -> Result<(), Halt>
    requires agrees { AgreesWith events.now.list manifests.old }
    requires whole { plan.old.after ≡ events.now.list }
    ensures changed { OnOk result (plan.new ≡ record plan.old {
      after = moved_events (image_of map.now) events.now.list;
    }) }
    ensures calm { OnOk result (first_of (image_of map.now) events.now.list events.now.list ≡ None) }
    ensures fault { IfErr result
        (Reports (first_of (image_of map.now) events.now.list events.now.list)) }
    ensures agrees { AgreesWith events.now.list manifests.new }
{
    match course_of(map, events) {
        Course::ByName => {
            name_ops(alloc, events, map, plan)?;
            Ok(())
        }
        Course::TooLong => Err(too_long()),
        Course::ByTrees => move_ops(alloc, events, manifests, map, plan),
    }
}
