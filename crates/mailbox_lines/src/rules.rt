//! The line that begins a message, and lines that look like it.
ghost use Rattle.std.specs.Prelude.{◌≡◌};
ghost use Rattle.mailbox_laws.specs.Boxes.{is_rule, is_ruled, rule};

/// The line that begins a message: 78 hyphens.
#[tactic(auto, unfolding(mailbox_laws::specs::Boxes::rule))]
pub fn rule() -> &'static [u8]
    ensures { result.now ≡ rule }
{
    b"------------------------------------------------------------------------------"
}

/// Whether a line begins a message.
pub fn is_rule(line: &[u8]) -> bool
    ensures { result ≡ is_rule line.now }
{
    line == rule()
}

/// Whether a line is any number of `>` and then 78 hyphens.
pub fn is_ruled(line: &[u8]) -> bool
    ensures { result ≡ is_ruled line.now }
{
    let mut start = 0;
    while start < line.len() && line[start] == b'>' {
        start += 1;
    }
    is_rule(&line[start..])
}
