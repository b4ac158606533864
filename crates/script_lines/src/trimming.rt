//! Lines without what doesn't count at their ends.
ghost use Rattle.std.specs.Prelude.{◌≡◌, ◌-◌, ◌<◌, ◌≤◌, length, take, drop, slice_index};
ghost use Rattle.script_lines.specs.Scripts.{is_margin, trimmed, without_front, without_back};

fn is_margin(byte: u8) -> bool
    ensures { result ≡ is_margin byte }
{
    byte == b' ' || byte == b'\t' || byte == b'\r'
}

// Where the first byte is that counts, or the end.
fn front_end(bytes: &[u8]) -> usize
    ensures within { result ≤ length bytes.now }
    ensures front { drop result bytes.now ≡ without_front bytes.now }
    ensures ascii { 0 < result → slice_index bytes.now (result - 1) < 128 }
{
    for (i, b) in bytes.iter().enumerate() {
        if !is_margin(*b) {
            return i;
        }
    }
    bytes.len()
}

// Where the bytes end of which the last one counts.
fn back_start(bytes: &[u8]) -> usize
    ensures within { result ≤ length bytes.now }
    ensures back { take result bytes.now ≡ without_back bytes.now }
    ensures ascii { result < length bytes.now → slice_index bytes.now result < 128 }
{
    let mut end = bytes.len();
    while end > 0 && is_margin(bytes[end - 1]) {
        end -= 1;
    }
    end
}

/// The bytes of a line without the blanks and CR at its ends.
pub fn trim_bytes(line: &[u8]) -> &[u8]
    ensures { result.now ≡ trimmed line.now }
{
    let line = &line[front_end(line)..];
    &line[..back_start(line)]
}

/// The line from its first byte on that counts.
pub fn trim_front(line: &str) -> &str
    ensures { result.now ≡ without_front line.now }
{
    &line[front_end(line.as_bytes())..]
}

/// The line up to its last byte that counts.
pub fn trim_back(line: &str) -> &str
    ensures { result.now ≡ without_back line.now }
{
    &line[..back_start(line.as_bytes())]
}

/// The line without the blanks and CR at its ends.
pub fn trim(line: &str) -> &str
    ensures { result.now ≡ trimmed line.now }
{
    trim_back(trim_front(line))
}
