//! Copies of operations.
ghost use Rattle.std.specs.Prelude.{◌≡◌, ◌∷◌, ◌++◌, IfOk, OnOk};
ghost use Rattle.plain_model.specs.declared.operation.FileOp.TheVariants.{DeleteAll};

use plain_model::{Copied, FileOp, NoMemory, OpList};
use std::alloc::Global;

/// Puts copies of operations at the end.
pub fn push_ops(ops: &mut OpList, more: &[FileOp]) -> Result<(), NoMemory>
    ensures { OnOk result (ops.new ≡ ops.old ++ more.now) }
{
    for op in more {
        ops.push(op.copied(ops.alloc())?)?;
    }
    Ok(())
}

/// Copies of operations, after one that takes all files away.
pub fn anew(alloc: Global, ops: &[FileOp]) -> Result<OpList, NoMemory>
    ensures { IfOk result (λ made. made ≡ DeleteAll ∷ ops.now) }
{
    let mut made = OpList::new(alloc)?;
    made.push(FileOp::DeleteAll)?;
    push_ops(&mut made, ops)?;
    Ok(made)
}
