//! Alternate characters (terminfo(5), "Line Graphics"): partners of letters in `acsc`, and the
//! plain characters in their place.
#![tactic(auto)]

ghost use Rattle.std.specs.Prelude.{◌≡◌, ◌<◌, IsTrue, IfNone, IfSome, List, ℕ, true, false};
ghost use Rattle.ti_conforms.specs.Alternates as spec;

/// A character as a cell shows it: a byte from 32 to 126, in the plain or in the graphic set.
#[derive(Clone, Copy, Debug, PartialEq, Eq)]
pub struct Character {
    pub byte: u8,
    /// From the graphic set. Bytes 95 to 126 have a picture of their own there.
    pub graphic: bool,
}

/// The byte after `letter` in its first pair of `acsc`. An odd last byte of `acsc` is no pair.
fn listed(acsc: &[u8], letter: u8) -> Option<u8>
    ensures { result ≡ spec.listed acsc.now letter }
{
    let mut pairs = acsc;
    while let [other, partner, rest @ ..] = pairs {
        if *other == letter {
            return Some(*partner);
        }
        pairs = rest;
    }
    None
}

/// The partner of `letter` in `acsc`, if it has one that can be printed (32 to 126).
pub fn partner(acsc: &[u8], letter: u8) -> Option<u8>
    ensures { result ≡ spec.partner_of acsc.now letter }
{
    match listed(acsc, letter) {
        Some(partner) if (32..=126).contains(&partner) => Some(partner),
        _ => None,
    }
}

/// The plain character shown in the place of `letter`; `None` for bytes that are no letters of line graphics.
pub fn fallback(letter: u8) -> Option<u8>
    ensures { result ≡ spec.fallback_of letter }
{
    match letter {
        b'l' | b'm' | b'k' | b'j' | b't' | b'u' | b'v' | b'w' | b'n' | b'`' => Some(b'+'),
        b'q' | b'o' => Some(b'-'),
        b'x' => Some(b'|'),
        b's' => Some(b'_'),
        b'a' => Some(b':'),
        b'f' => Some(b'\''),
        b'g' | b'h' | b'i' | b'0' => Some(b'#'),
        b'~' => Some(b'o'),
        b',' => Some(b'<'),
        b'+' => Some(b'>'),
        b'.' => Some(b'v'),
        b'-' => Some(b'^'),
        _ => None,
    }
}

/// Whether `acsc` lists `letter`, one of line graphics, with a partner that can't be printed.
fn is_misfit(acsc: &[u8], letter: u8) -> bool
    ensures { result ≡ spec.is_misfit acsc.now letter }
{
    fallback(letter).is_some()
        && match listed(acsc, letter) {
            Some(partner) => !(32..=126).contains(&partner),
            None => false,
        }
}

/// The first letter of line graphics that `acsc` lists with a partner that can't be printed.
pub fn misfit(acsc: &[u8]) -> Option<u8>
    ensures some { IfSome result (λ letter. spec.is_misfit acsc.now letter ≡ true) }
    ensures none { IfNone result ((letter : ℕ) → letter < 256 → spec.is_misfit acsc.now letter ≡ false) }
{
    for letter in 0..256usize {
        if is_misfit(acsc, letter as u8) {
            return Some(letter as u8);
        }
    }
    None
}

/// The character that a cell of the alternate set shows for `letter`: its partner in the graphic set;
/// or, without one, the plain character in its place, if it has one; or else the letter itself.
/// `partner` must be `None` if the entry lacks `acsc`, `smacs` or `rmacs`, or doesn't list the letter.
pub fn shown(partner: Option<u8>, letter: u8) -> Character
    ensures byte { result.byte ≡ (spec.shown partner letter).byte }
    ensures graphic { result.graphic ≡ (spec.shown partner letter).graphic }
{
    match partner {
        Some(byte) => Character {
            byte,
            graphic: (95..=126).contains(&byte),
        },
        None => Character {
            byte: fallback(letter).unwrap_or(letter),
            graphic: false,
        },
    }
}
