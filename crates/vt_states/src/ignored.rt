//! The parts of a whole sequence that the terminal ignores.

ghost use Rattle.std.specs.Prelude.{◌≡◌, ◌==◌, ◌||◌, ◌++◌, ◌∷◌, [], ℕ};
ghost use Rattle.std.specs.List.{count_by, list_all};
ghost use Rattle.vt_term.specs.Function.{CodeElement};
ghost use Rattle.vt_term.specs.Function as function;
ghost use Rattle.vt_term.specs.Parameters as parameters;
ghost use Rattle.vt_states.specs.Ignored as spec;

use vt_term::{ModeKind, RenditionChange};

/// The part that T lacks of a sequence that it ignores, wholly or in one of its numbers.
#[derive(Clone, Copy, Debug, PartialEq, Eq)]
pub(crate) enum Lack {
    /// The whole sequence.
    Sequence,
    /// This number of SGR, or of a mode that is set or reset.
    Number(u16),
}

/// A kind of numbers of which T has some.
#[derive(Clone, Copy, Debug, PartialEq, Eq)]
pub(crate) enum Numbers {
    /// The numbers of SGR.
    Renditions,
    /// Modes.
    ModesOf(ModeKind),
    /// The parts that ED and EL erase.
    Parts,
}

/// The part that is lacking of the control sequence with these bytes between ESC `[` and its final byte.
pub(crate) fn control_lack(front: &[u8], last: u8) -> Option<Lack>
    ensures { result ≡ spec.lack_in (function.named last front.now) }
{
    if all_numerals(front) {
        numbers_lack(front, last)
    } else {
        marked_lack(front, last)
    }
}

/// The part that is lacking of the escape sequence with these bytes between ESC and its final byte.
pub(crate) fn escape_lack(front: &[u8], last: u8) -> Option<Lack>
    ensures { result ≡ spec.lack_in (function.escaped (front.now ++ last ∷ [])) }
{
    match front {
        [] => single_lack(last),
        [b'(' | b')'] => designation_lack(last),
        _ => Some(Lack::Sequence),
    }
}

fn single_lack(last: u8) -> Option<Lack>
    ensures { result ≡ spec.lack_in (function.escape_final last) }
{
    match last {
        b'D' => None,
        b'E' => None,
        b'M' => None,
        _ => Some(Lack::Sequence),
    }
}

fn designation_lack(last: u8) -> Option<Lack>
    ensures { (set : CodeElement) → result ≡ spec.lack_in (function.designation set last) }
{
    match last {
        b'0' => None,
        b'B' => None,
        _ => Some(Lack::Sequence),
    }
}

/// The part that is lacking of a control sequence with a private mark or other bytes beside numbers.
fn marked_lack(front: &[u8], last: u8) -> Option<Lack>
    ensures { result ≡ spec.lack_in (function.marked last front.now) }
{
    match front {
        [b'?', numbers @ ..] if all_numerals(numbers) => private_lack(numbers, last),
        _ => Some(Lack::Sequence),
    }
}

fn private_lack(numbers: &[u8], last: u8) -> Option<Lack>
    ensures { result ≡ spec.lack_in (function.of_private_numbers last (parameters.numbers numbers.now)) }
{
    match last {
        b'h' | b'l' => number_lack(Numbers::ModesOf(ModeKind::Private), numbers),
        _ => Some(Lack::Sequence),
    }
}

/// The part that is lacking of a control sequence with numbers alone.
fn numbers_lack(numbers: &[u8], last: u8) -> Option<Lack>
    ensures { result ≡ spec.lack_in (function.of_numbers last (parameters.numbers numbers.now)) }
{
    match last {
        b'H' | b'f' => place_lack(numbers),
        b'r' => margins_lack(numbers),
        b'm' => number_lack(Numbers::Renditions, numbers),
        b'h' | b'l' => number_lack(Numbers::ModesOf(ModeKind::Standard), numbers),
        _ => one_number_lack(numbers, last),
    }
}

/// The part that is lacking of CUP and HVP, which take two numbers at most.
fn place_lack(numbers: &[u8]) -> Option<Lack>
    ensures { result ≡ spec.lack_in (function.cursor_position (parameters.numbers numbers.now)) }
{
    if semicolons(numbers) > 1 {
        Some(Lack::Sequence)
    } else {
        None
    }
}

/// The part that is lacking of DECSTBM, which takes two numbers at most.
fn margins_lack(numbers: &[u8]) -> Option<Lack>
    ensures { result ≡ spec.lack_in (function.margins (parameters.numbers numbers.now)) }
{
    if semicolons(numbers) > 1 {
        Some(Lack::Sequence)
    } else {
        None
    }
}

/// The part that is lacking of a function with one number.
fn one_number_lack(numbers: &[u8], last: u8) -> Option<Lack>
    ensures { result ≡ spec.lack_in (function.of_one_number last (parameters.numbers numbers.now)) }
{
    if semicolons(numbers) > 0 {
        return Some(Lack::Sequence);
    }
    if erases_part(last) {
        part_lack(numbers)
    } else {
        counting_lack(last)
    }
}

/// Whether this is the final byte of ED or EL.
fn erases_part(last: u8) -> bool
    ensures { result ≡ ((last == 74) || (last == 75)) }
{
    last == b'J' || last == b'K'
}

/// The part that is lacking of ED and EL with one number.
fn part_lack(numbers: &[u8]) -> Option<Lack>
    ensures { result ≡ spec.part_lack
        (spec.first_unknown (spec.is_unknown Numbers.Parts) (parameters.numbers numbers.now)) }
{
    match unknown_number(Numbers::Parts, numbers) {
        Some(_) => Some(Lack::Sequence),
        None => None,
    }
}

/// The part that is lacking of a function with one count.
fn counting_lack(last: u8) -> Option<Lack>
    ensures { (n : ℕ) → result ≡ spec.lack_in (function.counting last n) }
{
    match last {
        b'@' | b'A' | b'B' | b'C' | b'D' | b'G' | b'L' | b'M' | b'P' | b'S' | b'T' | b'X' | b'd' =>
            None,
        _ => Some(Lack::Sequence),
    }
}

/// The first number of this kind that is lacking.
fn number_lack(kind: Numbers, numbers: &[u8]) -> Option<Lack>
    ensures { result ≡ spec.number_lack (spec.first_unknown (spec.is_unknown kind) (parameters.numbers numbers.now)) }
{
    match unknown_number(kind, numbers) {
        Some(number) => Some(Lack::Number(number)),
        None => None,
    }
}

/// The first of the numbers, digits and semicolons, that is unknown.
fn unknown_number(kind: Numbers, numbers: &[u8]) -> Option<u16>
    ensures { result ≡ spec.first_unknown (spec.is_unknown kind) (parameters.numbers numbers.now) }
{
    let mut number = None;
    for byte in numbers {
        if *byte == b';' {
            if is_unknown(kind, number) {
                return Some(number.unwrap_or(0));
            }
            number = None;
        } else {
            number = Some(with_digit(number, *byte));
        }
    }
    if is_unknown(kind, number) {
        Some(number.unwrap_or(0))
    } else {
        None
    }
}

/// The number with one more digit, at most 65535.
fn with_digit(number: Option<u16>, digit: u8) -> u16
    ensures { result ≡ spec.with_digit number digit }
{
    let longer = u32::from(number.unwrap_or(0)) * 10 + u32::from(digit.saturating_sub(b'0'));
    longer.min(u32::from(u16::MAX)) as u16
}

/// Whether the terminal lacks this `number` of its kind.
pub(crate) fn is_unknown(kind: Numbers, number: Option<u16>) -> bool
    ensures { result ≡ spec.is_unknown kind number }
{
    match kind {
        Numbers::Renditions => RenditionChange::of(number.unwrap_or(0)).is_none(),
        Numbers::ModesOf(ModeKind::Standard) => number.unwrap_or(0) != 4,
        Numbers::ModesOf(ModeKind::Private) => !is_private_mode(number.unwrap_or(0)),
        Numbers::Parts => number.unwrap_or(0) > 2,
    }
}

fn is_private_mode(number: u16) -> bool
    ensures { result ≡ spec.is_mode ModeKind.Private number }
{
    number == 7 || number == 25
}

/// How many semicolons there are.
fn semicolons(numbers: &[u8]) -> usize
    ensures { result ≡ count_by (λ b. b == 59) numbers.now }
{
    numbers.iter().filter(|byte| **byte == b';').count()
}

/// Whether there is nothing but digits and semicolons.
fn all_numerals(bytes: &[u8]) -> bool
    ensures { result ≡ list_all parameters.is_numeral bytes.now }
{
    bytes.iter().all(|byte| is_numeral(*byte))
}

/// Whether `byte` is a digit or a semicolon.
pub(crate) fn is_numeral(byte: u8) -> bool
    ensures { result ≡ parameters.is_numeral byte }
{
    byte.is_ascii_digit() || byte == b';'
}
