//! Whether operations are the same.
ghost use Rattle.std.specs.Prelude.{◌≡◌, ◌↔◌, IsTrue};

use plain_model::{Content, FileOp};

fn same_content(one: &Content, other: &Content) -> bool
    ensures { IsTrue result ↔ one.now ≡ other.now }
{
    match (one, other) {
        (Content::Blob(one), Content::Blob(other)) => one.number() == other.number(),
        (Content::Object(one), Content::Object(other)) => one.digits() == other.digits(),
        _ => false,
    }
}

fn same_op(one: &FileOp, other: &FileOp) -> bool
    ensures { IsTrue result ↔ one.now ≡ other.now }
{
    match (one, other) {
        (
            FileOp::Modify {
                mode: one_mode,
                content: one_content,
                path: one_path,
            },
            FileOp::Modify {
                mode,
                content,
                path,
            },
        ) => {
            one_mode == mode
                && same_content(one_content, content)
                && one_path.as_bytes() == path.as_bytes()
        }
        (FileOp::Delete { path: one }, FileOp::Delete { path }) => one.as_bytes()
            == path.as_bytes(),
        (
            FileOp::Copy {
                source: one_source,
                target: one_target,
            },
            FileOp::Copy { source, target },
        ) => {
            one_source.as_bytes() == source.as_bytes() && one_target.as_bytes() == target.as_bytes()
        }
        (
            FileOp::Rename {
                source: one_source,
                target: one_target,
            },
            FileOp::Rename { source, target },
        ) => {
            one_source.as_bytes() == source.as_bytes() && one_target.as_bytes() == target.as_bytes()
        }
        (FileOp::DeleteAll, FileOp::DeleteAll) => true,
        _ => false,
    }
}

/// Whether two commits have the same operations in the same order.
pub fn same_ops(one: &[FileOp], other: &[FileOp]) -> bool
    ensures { IsTrue result ↔ one.now ≡ other.now }
{
    if one.len() != other.len() {
        return false;
    }
    for i in 0..one.len() {
        if !same_op(&one[i], &other[i]) {
            return false;
        }
    }
    true
}
