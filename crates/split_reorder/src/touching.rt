//! The first operation of a commit that touches a path.
ghost use Rattle.std.specs.Prelude.{◌≡◌};
ghost use Rattle.plain_model.specs.Paths.{is_at_or_below};
ghost use Rattle.split_laws.specs.Split.{first_touch, is_touched};

use plain_model::FileOp;

// Whether the second path is the first, or below it.
fn is_at_or_below(path: &[u8], other: &[u8]) -> bool
    ensures { result ≡ is_at_or_below path.now other.now }
{
    if !other.starts_with(path) {
        return false;
    }
    match &other[path.len()..] {
        [] => true,
        [byte, ..] => *byte == b'/',
    }
}

// Whether a path is one of the operation's, or above one.
fn is_touched(path: &[u8], op: &FileOp) -> bool
    ensures { result ≡ is_touched path.now op.now }
{
    match op {
        FileOp::Modify { path: own, .. } => is_at_or_below(path, own.as_bytes()),
        FileOp::Delete { path: own } => is_at_or_below(path, own.as_bytes()),
        FileOp::Copy { source, target } => {
            is_at_or_below(path, source.as_bytes()) || is_at_or_below(path, target.as_bytes())
        }
        FileOp::Rename { source, target } => {
            is_at_or_below(path, source.as_bytes()) || is_at_or_below(path, target.as_bytes())
        }
        FileOp::DeleteAll => false,
    }
}

/// The number of the first operation that touches a path, from 1.
pub fn first_touch(path: &[u8], ops: &[FileOp]) -> Option<u64>
    ensures { result ≡ first_touch path.now 1 ops.now }
{
    for place in 0..ops.len() {
        if is_touched(path, &ops[place]) {
            return Some(place as u64 + 1);
        }
    }
    None
}
