//! The plan of a move of paths.
ghost use Rattle.std.specs.Prelude.{◌≡◌};
ghost use Rattle.event_arena.specs.Plans.{Plans};
ghost use Rattle.manifest_cache.specs.Kept.{AgreesWith};
ghost use Rattle.path_move_laws.specs.Moves.{paths_moved};
ghost use Rattle.path_move_laws.specs.PathMaps.{image_of};

use crate::courses::move_all;
use crate::wholes::has_paths;
use event_arena::{Events, Plan};
use manifest_cache::Manifests;
use path_move_laws::{PathMap, a_move_keeps_soundness};
use plain_model::Halt;
use plan_steps::limit_passed;
use std::alloc::Global;

/// The plan that moves the paths of a history by a map: each commit has the image of the tree that it had. An operation
/// becomes itself at the images of its paths, or where that does something else, what makes the new image of the old one.
/// Refused by the first commit and its first operation after which an image is too long, or two are in each other's way,
/// and then by the number of operations. (reposurgeon manual, `path` and `paths`; the refusals: own.)
pub fn map_paths(
    alloc: Global,
    events: &Events,
    manifests: &mut Manifests,
    map: &PathMap,
) -> Result<Plan, Halt>
    requires agrees { AgreesWith events.now.list manifests.old }
    ensures plans { Plans events.now events.now.next_id result
        (paths_moved (image_of map.now) events.now.list) }
    ensures kept { AgreesWith events.now.list manifests.new }
{
    let _count = events.count();
    has_paths(map);
    let mut plan = Plan::new(alloc, events)?;
    move_all(alloc, events, manifests, map, &mut plan)?;
    if let Some(fault) = limit_passed(&plan) {
        return Err(Halt::Refused(fault));
    }
    a_move_keeps_soundness();
    Ok(plan)
}
