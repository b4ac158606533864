//! Names: those of repositories, which come from their files, and those that a script gives.
ghost use Rattle.std.specs.Prelude.{◌≡◌};
ghost use Rattle.std.specs.List.{list_all};
ghost use Rattle.plain_model.specs.Names.{is_name_byte};
ghost use Rattle.script_lines.specs.Names.{
  is_given_name,
  is_letter,
  is_name_part,
  is_repo_name,
  last_part,
  repo_name,
  without_fi,
};

use plain_model::MAX_REPOSITORY_NAME_BYTES;

fn last_part(file: &[u8]) -> &[u8]
    ensures { result.now ≡ last_part file.now }
{
    match memchr::memrchr(b'/', file) {
        Some(at) => &file[at + 1..],
        None => file,
    }
}

fn without_fi(part: &[u8]) -> &[u8]
    ensures { result.now ≡ without_fi part.now }
{
    if part.len() > 3 && &part[part.len() - 3..] == b".fi".as_slice() {
        &part[..part.len() - 3]
    } else {
        part
    }
}

/// The name that a repository has by its file: what is after the last slash, without one `.fi`
/// at the end. (reposurgeon manual, `read`)
#[tactic(auto, unfolding(crate::specs::Names::repo_name))]
pub fn repo_name(file: &[u8]) -> &[u8]
    ensures { result.now ≡ repo_name file.now }
{
    without_fi(last_part(file))
}

fn are_name_bytes(bytes: &[u8]) -> bool
    ensures { result ≡ list_all is_name_byte bytes.now }
{
    bytes.iter().all(|b| *b >= 33 && *b != 127)
}

/// Whether a repository can have the name: 1 to 255 bytes, none of them a space, a control code or
/// DEL. (own)
#[tactic(auto, unfolding(crate::specs::Names::is_repo_name))]
pub fn is_repo_name(name: &[u8]) -> bool
    ensures { result ≡ is_repo_name name.now }
{
    name.len() >= 1 && name.len() as u64 <= MAX_REPOSITORY_NAME_BYTES && are_name_bytes(name)
}

/// Whether a byte is an ASCII letter.
pub fn is_letter(byte: u8) -> bool
    ensures { result ≡ is_letter byte }
{
    (byte >= b'A' && byte <= b'Z') || (byte >= b'a' && byte <= b'z')
}

// Whether these bytes may be in a name that a script gives, after its first letter.
fn are_name_parts(bytes: &[u8]) -> bool
    ensures { result ≡ list_all is_name_part bytes.now }
{
    bytes.iter().all(|b| {
        (*b >= b'A' && *b <= b'Z')
            || (*b >= b'a' && *b <= b'z')
            || (*b >= b'0' && *b <= b'9')
            || *b == b'_'
            || *b == b'-'
    })
}

/// Whether a script may give the name to a macro or a list of events.
#[tactic(auto, unfolding(crate::specs::Names::is_given_name))]
pub fn is_given_name(name: &[u8]) -> bool
    ensures { result ≡ is_given_name name.now }
{
    match name {
        [] => false,
        [first, others @ ..] => is_letter(*first) && are_name_parts(others),
    }
}
