//! Images that are in each other's way.
ghost use Rattle.std.specs.Prelude.{◌≡◌, ◌++◌, ◌∷◌, [], List, map, IfOk};
ghost use Rattle.path_move_laws.specs.Images.{collision};
ghost use Rattle.path_move_laws.specs.PathMaps.{image_of};
ghost use Rattle.path_moves.specs.Collisions.{IsLeast, collides_in, is_before};
ghost use Rattle.plain_model.specs.Paths.{Bytes};

use crate::images::{is_below, push_image};
use path_move_laws::PathMap;
use plain_model::{Entry, NoMemory, Path, Text};
use std::alloc::Global;

// Whether two of the images are this one, or one conflicts with it.
fn collides(images: &[Text], image: &[u8]) -> bool
    ensures { result ≡ collides_in images.now image.now }
{
    let mut is_seen = false;
    for other in images {
        let other = other.as_slice();
        if other == image {
            if is_seen {
                return true;
            }
            is_seen = true;
        } else if is_below(image, other) || is_below(other, image) {
            return true;
        }
    }
    false
}

// Whether an image comes before another one, if there is one.
fn is_before(image: &[u8], other: &Option<Text>) -> bool
    ensures { result ≡ is_before image.now other.now }
{
    match other {
        Some(other) => image.cmp(other.as_slice()).is_lt(),
        None => true,
    }
}

// The first one that collides, once one more image is looked at.
fn first_with(images: &[Text], image: &Text, first: Option<Text>) -> Result<Option<Text>, NoMemory>
    ensures { IfOk result (λ next. (looked : List Bytes) → IsLeast images.now looked first →
        IsLeast images.now (looked ++ image.now ∷ []) next) }
{
    if is_before(image.as_slice(), &first) && collides(images, image.as_slice()) {
        return Ok(Some(image.copy()?));
    }
    Ok(first)
}

// The first image in byte order that collides with others.
fn first_of(images: &[Text]) -> Result<Option<Text>, NoMemory>
    ensures { IfOk result (IsLeast images.now images.now) }
{
    let mut first: Option<Text> = None;
    for image in images {
        first = first_with(images, image, first)?;
    }
    Ok(first)
}

// The images of all paths.
fn images_of(alloc: Global, how: &PathMap, entries: &[(Path, Entry)]) -> Result<Vec<Text>, NoMemory>
    ensures { IfOk result (λ images. images.items ≡ map (λ e. image_of how.now e.0) entries.now) }
{
    let mut images: Vec<Text> = Vec::with_capacity(alloc, entries.len())?;
    for entry in entries {
        let mut image = Text::empty(alloc);
        push_image(how, entry.0.as_bytes(), &mut image)?;
        images.push(image)?;
    }
    Ok(images)
}

/// The first image in byte order that two paths of a tree have, or that conflicts with another one.
pub fn collision(
    alloc: Global,
    map: &PathMap,
    entries: &[(Path, Entry)],
) -> Result<Option<Text>, NoMemory>
    ensures { IfOk result (λ found. found ≡ collision (image_of map.now) entries.now) }
{
    let images = images_of(alloc, map, entries)?;
    first_of(images.as_slice())
}
