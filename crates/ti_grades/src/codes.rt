//! The codes of a parameter string, by how they begin (terminfo(5), "Parameterized Strings").

ghost use Rattle.std.specs.Prelude.{◌≡◌, ◌==◌, ◌&&◌, if◌then◌else◌, drop};
ghost use Rattle.ti_grades.specs.Codes as spec;

/// A kind of code.
#[derive(Clone, Copy)]
pub(crate) enum CodeKind {
    /// `%p` with this digit.
    Reads(u8),
    /// `%i`.
    Increments,
    /// `%` before a control, which is no code.
    Control,
}

fn is_control(byte: u8) -> bool
    ensures { result ≡ spec.is_control byte }
{
    byte <= 31 || byte == 127
}

/// Whether `behind`, which stands behind a `%`, makes it a code of this `kind`.
fn shows(kind: CodeKind, behind: &[u8]) -> bool
    ensures { result ≡ spec.shows kind behind.now }
{
    match kind {
        CodeKind::Reads(digit) => matches!(behind, [b'p', read, ..] if *read == digit),
        CodeKind::Increments => matches!(behind, [b'i', ..]),
        CodeKind::Control => matches!(behind, [byte, ..] if is_control(*byte)),
    }
}

/// Whether the byte `first` and those behind it begin with a code of this `kind`.
fn begins_code(kind: CodeKind, first: u8, behind: &[u8]) -> bool
    ensures { result ≡ ((first == 37) && spec.shows kind behind.now) }
{
    first == b'%' && shows(kind, behind)
}

/// The bytes after the byte `first`, and after the one that belongs to its code if it begins one.
fn after_code(first: u8, behind: &[u8]) -> &[u8]
    ensures { result.now ≡ (if first == 37 then drop 1 behind.now else behind.now) }
{
    match behind {
        [_, rest @ ..] if first == b'%' => rest,
        [..] => behind,
    }
}

/// Whether `string` has a code of this `kind`.
#[tactic(auto, using(crate::proofs::BehindSigns::shown_code))]
pub(crate) fn has_code(string: &[u8], kind: CodeKind) -> bool
    ensures { result ≡ spec.has_code kind string.now }
{
    let mut text = string;
    while let [first, behind @ ..] = text {
        if begins_code(kind, *first, behind) {
            return true;
        }
        text = after_code(*first, behind);
    }
    false
}

/// Whether each `%` of `string` stands right behind ESC.
#[tactic(auto, unfolding(crate::specs::Codes::is_designation))]
pub(crate) fn is_designation(string: &[u8]) -> bool
    ensures { result ≡ spec.is_designation string.now }
{
    let mut before = 0;
    for byte in string {
        if *byte == b'%' && before != 27 {
            return false;
        }
        before = *byte;
    }
    true
}
