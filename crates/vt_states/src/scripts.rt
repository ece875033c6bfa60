//! The lines that script(1) puts around a recording.

ghost use Rattle.std.specs.Prelude.{◌≡◌, ◌≤◌, length};
ghost use Rattle.vt_states.specs.Recordings as spec;

/// `bytes` without the line `Script started on ..` in front, and without the last line `Script done on ..` and the LF
/// before it, which script(1) adds to what it records.
pub fn without_script_lines(bytes: &[u8]) -> &[u8]
    ensures { result.now ≡ spec.unscripted bytes.entry.now }
{
    without_footer(&bytes[header_length(bytes)..])
}

fn without_footer(bytes: &[u8]) -> &[u8]
    ensures { result.now ≡ spec.unended bytes.entry.now }
{
    &bytes[..unended_length(bytes)]
}

/// The length of the line in front, if it is that of script(1).
fn header_length(bytes: &[u8]) -> usize
    ensures value { result ≡ spec.header_length bytes.now }
    ensures within { result ≤ length bytes.now }
{
    if bytes.starts_with(b"Script started on ") {
        line_length(bytes)
    } else {
        0
    }
}

/// The number of bytes before the last line and the LF before that, if it is that of script(1).
fn unended_length(bytes: &[u8]) -> usize
    ensures value { result ≡ spec.unended_length bytes.now }
    ensures within { result ≤ length bytes.now }
{
    for at in 0..bytes.len() {
        if bytes[at] == b'\n' && is_footer(&bytes[at + 1..]) {
            return at;
        }
    }
    bytes.len()
}

fn is_footer(bytes: &[u8]) -> bool
    ensures { result ≡ spec.is_footer bytes.now }
{
    bytes.starts_with(b"Script done on ") && line_length(bytes) == bytes.len()
}

/// The number of bytes up to the first LF, it too.
fn line_length(bytes: &[u8]) -> usize
    ensures value { result ≡ spec.line_length bytes.now }
    ensures within { result ≤ length bytes.now }
{
    for (at, byte) in bytes.iter().enumerate() {
        if *byte == b'\n' {
            return at + 1;
        }
    }
    bytes.len()
}
