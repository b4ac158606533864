//! What a line may refer to.
ghost use Rattle.std.specs.Prelude.{◌≡◌, ◌==◌, ◌||◌, Result, Ok, Err, codes};
ghost use Rattle.std.specs.List.{list_any, list_all};
ghost use Rattle.plain_model.specs.Fields.{is_any_hex};
ghost use Rattle.plain_model.specs.Parts.{begins};
ghost use Rattle.stream_grammar.specs.Known.{commit_with, is_left_out_ref, placed, ref_in};

use plain_model::{BlobId, CommitId, Content, Mark, RawContent, Why};
use stream_drafts::{Aliases, Drafts};
use stream_fields::{or_defect, read_mark};

fn has_sign(text: &[u8]) -> bool
    ensures { result ≡ list_any (λ b. (b == 94) || (b == 126)) text.now }
{
    text.iter().any(|b| *b == b'^' || *b == b'~')
}

fn are_hex(text: &[u8]) -> bool
    ensures { result ≡ list_all is_any_hex text.now }
{
    text.iter().all(|b| *b >= b'0' && *b <= b'9'
        || *b >= b'a' && *b <= b'f'
        || *b >= b'A' && *b <= b'F')
}

// A reference in another form than a mark or a branch.
fn is_left_out(text: &[u8]) -> bool
    ensures { result ≡ is_left_out_ref text.now }
{
    has_sign(text) || (text.len() == 40 || text.len() == 64) && are_hex(text)
}

// The commit with the mark, as its own or as an alias.
fn commit_with(drafts: &Drafts, aliases: &Aliases, mark: Mark) -> Option<CommitId>
    ensures { result ≡ commit_with drafts.now aliases.now mark }
{
    match drafts.commit_marked(mark) {
        Some(commit) => Some(commit),
        None => aliases.commit_with(mark),
    }
}

/// The commit that a reference names: an earlier one by one of its marks, or the tip of a branch. (git-fast-import, `from`.)
pub fn read_reference(drafts: &Drafts, aliases: &Aliases, text: &[u8]) -> Result<CommitId, Why>
    ensures { result ≡ ref_in drafts.now aliases.now text.now }
{
    if text.is_empty() {
        return Err(Why::BadMark);
    }
    if is_left_out(text) {
        return Err(Why::LeftOut);
    }
    if text.starts_with(b":".as_slice()) {
        let mark = read_mark(text)?;
        return or_defect(Why::UnknownMark, commit_with(drafts, aliases, mark));
    }
    or_defect(Why::UnknownRef, drafts.tip(text))
}

/// What an operation puts at its path: an earlier blob, an object, or the blob that follows.
pub fn place(drafts: &Drafts, content: RawContent) -> Result<Content, Why>
    ensures { result ≡ placed drafts.now content }
{
    match content {
        RawContent::Marked(mark) => match drafts.blob_marked(mark) {
            Some(blob) => Ok(Content::Blob(blob)),
            None => Err(Why::UnknownMark),
        },
        RawContent::Object(id) => Ok(Content::Object(id)),
        RawContent::Inline => Ok(Content::Blob(BlobId::new(drafts.next_id()))),
    }
}
