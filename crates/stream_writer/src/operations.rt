//! Operations and parents at the end of a text.
ghost use Rattle.std.specs.Prelude.{◌≡◌, ◌++◌, OnOk, flat_map, codes};
ghost use Rattle.plain_model.specs.Snapshots.{commit_mark};
ghost use Rattle.plain_model.specs.Text.{
  line,
  marked,
  mode_text,
  raw_content,
  raw_content_text,
  op_text,
  parents_text,
  source_path,
  last_path,
};
ghost use Rattle.stream_fields.specs.Written.{paths_text};
ghost use Rattle.stream_writer.specs.Parts.{modify_text, merges_text};

use crate::fields::{push_mark_line, push_marked};
use crate::marks::{blob_mark, commit_mark};
use event_arena::Events;
use plain_model::{CommitId, Content, FileOp, Mode, NoMemory, Path, Place, Text};
use stream_fields::write_path;

fn push_content(out: &mut Text, history: &Events, content: Content) -> Result<(), NoMemory>
    ensures { OnOk result (out.new ≡ out.old ++ raw_content_text (raw_content history.now.list content)) }
{
    match content {
        Content::Blob(id) => push_marked(out, blob_mark(history, id)),
        Content::Object(id) => out.push_all(id.digits()),
    }
}

// What is before the content, in one piece.
fn front_of_modify(mode: Mode) -> &'static [u8]
    ensures { result.now ≡ codes "M " ++ mode_text mode ++ codes " " }
{
    match mode {
        Mode::Plain => b"M 100644 ",
        Mode::Executable => b"M 100755 ",
        Mode::Link => b"M 120000 ",
        Mode::Gitlink => b"M 160000 ",
    }
}

fn push_modify(
    out: &mut Text,
    history: &Events,
    mode: Mode,
    content: Content,
    path: &Path,
) -> Result<(), NoMemory>
    ensures { OnOk result (out.new ≡ out.old ++ modify_text history.now.list mode content path.now) }
{
    out.push_all(front_of_modify(mode))?;
    push_content(out, history, content)?;
    out.push(b' ')?;
    write_path(path, Place::Last, out)
}

// `C` or `R`, and its two paths.
fn push_move(out: &mut Text, word: &[u8], source: &Path, target: &Path) -> Result<(), NoMemory>
    ensures { OnOk result (out.new ≡ out.old ++ paths_text word.now source.now target.now) }
{
    out.push_all(word)?;
    write_path(source, Place::Source, out)?;
    out.push(b' ')?;
    write_path(target, Place::Last, out)
}

fn push_delete(out: &mut Text, path: &Path) -> Result<(), NoMemory>
    ensures { OnOk result (out.new ≡ out.old ++ (codes "D " ++ last_path path.now)) }
{
    out.push_all(b"D ")?;
    write_path(path, Place::Last, out)
}

fn push_op_text(out: &mut Text, history: &Events, op: &FileOp) -> Result<(), NoMemory>
    ensures { OnOk result (out.new ++ codes "\n" ≡ out.old ++ op_text history.now.list op.now) }
{
    match op {
        FileOp::Modify {
            mode,
            content,
            path,
        } => push_modify(out, history, *mode, *content, path),
        FileOp::Delete { path } => push_delete(out, path),
        FileOp::Copy { source, target } => push_move(out, b"C ", source, target),
        FileOp::Rename { source, target } => push_move(out, b"R ", source, target),
        FileOp::DeleteAll => out.push_all(b"deleteall"),
    }
}

/// Puts the line of an operation.
fn push_op(out: &mut Text, history: &Events, op: &FileOp) -> Result<(), NoMemory>
    ensures { OnOk result (out.new ≡ out.old ++ op_text history.now.list op.now) }
{
    push_op_text(out, history, op)?;
    out.push(b'\n')
}

/// Puts the operations of a commit, a line each.
pub fn push_ops(out: &mut Text, history: &Events, ops: &[FileOp]) -> Result<(), NoMemory>
    ensures { OnOk result (out.new ≡ out.old ++ flat_map (op_text history.now.list) ops.now) }
{
    for op in ops {
        push_op(out, history, op)?;
    }
    Ok(())
}

fn push_merges(out: &mut Text, history: &Events, merges: &[CommitId]) -> Result<(), NoMemory>
    ensures { OnOk result (out.new ≡ out.old ++ merges_text history.now.list merges.now) }
{
    for merge in merges {
        push_mark_line(out, b"merge :", commit_mark(history, *merge))?;
    }
    Ok(())
}

/// Puts the line of the first parent and those of the further ones.
pub fn push_parents(out: &mut Text, history: &Events, parents: &[CommitId]) -> Result<(), NoMemory>
    ensures { OnOk result (out.new ≡ out.old ++ parents_text history.now.list parents.now) }
{
    match parents {
        [] => Ok(()),
        [first, further @ ..] => {
            push_mark_line(out, b"from :", commit_mark(history, *first))?;
            push_merges(out, history, further)
        }
    }
}
