//! Operations one after another.
ghost use Rattle.std.specs.Prelude.{◌≡◌, IfOk};
ghost use Rattle.stream_builder.specs.Lines.{IsFolded};
ghost use Rattle.plain_model.specs.Histories.{folded};
ghost use Rattle.plain_model.specs.Trees.{apply_all};

use path_tree::{ApplyFault, PathTree};
use plain_model::{FileOp, NoMemory, Steps};

// Marks the steps of a fold.
struct Fold;

// Applies the operations, or those before the first that is refused, and says whether none was.
fn apply_all(tree: &mut PathTree, ops: &[FileOp]) -> Result<bool, NoMemory>
    ensures { IfOk result (λ done. IsFolded done tree.new (apply_all ops.now tree.old)) }
{
    let mut steps: Steps<Fold> = Steps::new();
    for op in ops {
        match tree.apply(op, &mut steps) {
            Ok(()) => {}
            Err(ApplyFault::Memory) => return Err(NoMemory),
            Err(_) => return Ok(false),
        }
    }
    Ok(true)
}

/// The tree after the operations; none where there was none, or where one of them is refused.
pub fn folded(ops: &[FileOp], tree: Option<PathTree>) -> Result<Option<PathTree>, NoMemory>
    ensures { IfOk result (λ made. made ≡ folded ops.now tree) }
{
    match tree {
        Some(mut tree) => {
            if apply_all(&mut tree, ops)? {
                Ok(Some(tree))
            } else {
                Ok(None)
            }
        }
        None => Ok(None),
    }
}
