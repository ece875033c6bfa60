//! The header and the sections of a file, and their faults.

ghost use Rattle.std.specs.{Prelude.{◌≡◌, ◌*◌, ◌+◌, ◌≤◌, ℕ, length, drop}, List.{list_all, list_any}};
ghost use Rattle.ti_compiled.specs.Layout.{words, longs, width, numbers_in, half, is_number, is_flag, is_nul};
ghost use Rattle.ti_compiled.specs.Layout.{ends_with_nul};
ghost use Rattle.ti_compiled.specs.Readings.{Is, Judged, judged, word_of, form_of, sizes_fit, sizes_of, cut_at};
ghost use Rattle.ti_compiled.specs.Readings.{sections_of, offset_judged, offsets_judged, parts_judged, parts_of};
ghost use Rattle.ti_compiled.specs.Readings.{parts_view};

use crate::types::{Form, PackFault};
use ti_caps::{FLAGS, NUMBERS, STRINGS};

/// The sizes in a header: bytes of the names, numbers of flags, numbers and offsets, and bytes of the table.
#[derive(Clone, Copy)]
struct Sizes {
    names: u16,
    flags: u16,
    numbers: u16,
    offsets: u16,
    table: u16,
}

/// The sections of a file, each a slice of it.
#[derive(Clone, Copy)]
pub(crate) struct Sections<'a> {
    pub(crate) form: Form,
    pub(crate) names: &'a [u8],
    pub(crate) flags: &'a [u8],
    pub(crate) numbers: &'a [u8],
    pub(crate) offsets: &'a [u8],
    pub(crate) table: &'a [u8],
}

/// The number of 16 bits that `bytes` begins with, and the rest.
fn word_of(bytes: &[u8]) -> Result<(u16, &[u8]), PackFault>
    ensures { Is (λ x. (x.0, x.1.now)) result (word_of bytes.now) }
{
    match bytes {
        [low, high, rest @ ..] => Ok((u16::from_le_bytes([*low, *high]), rest)),
        _ => Err(PackFault::Short),
    }
}

fn form_of(magic: u16) -> Result<Form, PackFault>
    ensures { Is (λ form. form) result (form_of magic) }
{
    match magic {
        282 => Ok(Form::Legacy),
        542 => Ok(Form::Wide),
        _ => Err(PackFault::BadMagic),
    }
}

fn sizes_fit(sizes: Sizes) -> bool
    ensures { result ≡ sizes_fit sizes }
{
    sizes.names < 32768
        && usize::from(sizes.flags) <= FLAGS
        && usize::from(sizes.numbers) <= NUMBERS
        && usize::from(sizes.offsets) <= STRINGS
        && sizes.table < 32768
}

#[tactic(auto, unfolding(crate::specs::Readings::sizes_of))]
fn sizes_of(bytes: &[u8]) -> Result<(Sizes, &[u8]), PackFault>
    ensures { Is (λ x. (x.0, x.1.now)) result (sizes_of bytes.now) }
{
    let (names, rest) = word_of(bytes)?;
    let (flags, rest) = word_of(rest)?;
    let (numbers, rest) = word_of(rest)?;
    let (offsets, rest) = word_of(rest)?;
    let (table, rest) = word_of(rest)?;
    let sizes = Sizes {
        names,
        flags,
        numbers,
        offsets,
        table,
    };
    if sizes_fit(sizes) {
        Ok((sizes, rest))
    } else {
        Err(PackFault::BadCount)
    }
}

fn cut_at(count: usize, bytes: &[u8]) -> Result<(&[u8], &[u8]), PackFault>
    ensures { Is (λ x. (x.0.now, x.1.now)) result (cut_at count bytes.now) }
{
    if bytes.len() < count {
        Err(PackFault::Short)
    } else {
        Ok(bytes.split_at(count))
    }
}

pub(crate) fn width(form: Form) -> usize
    ensures value { result ≡ width form }
    ensures small { result ≤ 4 }
{
    match form {
        Form::Legacy => 2,
        Form::Wide => 4,
    }
}

#[tactic(auto, unfolding(crate::specs::Readings::sections_of))]
fn sections_of(form: Form, sizes: Sizes, bytes: &[u8]) -> Result<Sections<'_>, PackFault>
    ensures { Is parts_view result (sections_of form sizes bytes.now) }
{
    let (names, rest) = cut_at(usize::from(sizes.names), bytes)?;
    let (flags, rest) = cut_at(usize::from(sizes.flags), rest)?;
    let odd = (usize::from(sizes.names) + usize::from(sizes.flags)) % 2;
    let (_, rest) = cut_at(odd, rest)?;
    let (numbers, rest) = cut_at(width(form) * usize::from(sizes.numbers), rest)?;
    let (offsets, rest) = cut_at(2 * usize::from(sizes.offsets), rest)?;
    let (table, _) = cut_at(usize::from(sizes.table), rest)?;
    Ok(Sections {
        form,
        names,
        flags,
        numbers,
        offsets,
        table,
    })
}

fn ends_with_nul(bytes: &[u8]) -> bool
    ensures { result ≡ ends_with_nul bytes.now }
{
    !bytes.is_empty() && bytes[bytes.len() - 1] == 0
}

fn is_flag(byte: u8) -> bool
    ensures { result ≡ is_flag byte }
{
    byte == 0 || byte == 1 || byte == 254
}

fn are_flags(bytes: &[u8]) -> bool
    ensures { result ≡ list_all is_flag bytes.now }
{
    bytes.iter().all(|byte| is_flag(*byte))
}

fn has_nul(bytes: &[u8]) -> bool
    ensures { result ≡ list_any is_nul bytes.now }
{
    bytes.iter().any(|byte| *byte == 0)
}

fn is_word(number: u16) -> bool
    ensures { result ≡ is_number 32768 number }
{
    number < 32768 || 65534 <= number
}

fn is_long(number: u32) -> bool
    ensures { result ≡ is_number 2147483648 number }
{
    number < 2147483648 || 4294967294 <= number
}

fn are_words(bytes: &[u8]) -> bool
    ensures { result ≡ list_all (is_number 32768) (words bytes.now) }
{
    let mut rest = bytes;
    while let [low, high, behind @ ..] = rest {
        if !is_word(u16::from_le_bytes([*low, *high])) {
            return false;
        }
        rest = behind;
    }
    true
}

pub(crate) fn long_of(a: u8, b: u8, c: u8, d: u8) -> u32
    ensures { result ≡ a + 256 * (b + 256 * (c + 256 * d)) }
{
    u32::from_le_bytes([a, b, c, d])
}

fn are_longs(bytes: &[u8]) -> bool
    ensures { result ≡ list_all (is_number 2147483648) (longs bytes.now) }
{
    let mut rest = bytes;
    while let [a, b, c, d, behind @ ..] = rest {
        if !is_long(long_of(*a, *b, *c, *d)) {
            return false;
        }
        rest = behind;
    }
    true
}

fn are_numbers(form: Form, bytes: &[u8]) -> bool
    ensures { result ≡ list_all (is_number (half form)) (numbers_in form bytes.now) }
{
    match form {
        Form::Legacy => are_words(bytes),
        Form::Wide => are_longs(bytes),
    }
}

fn judged(right: bool, fault: PackFault) -> Result<(), PackFault>
    ensures { Is (λ x. x) result (judged right fault) }
{
    if right { Ok(()) } else { Err(fault) }
}

fn offset_judged(table: &[u8], offset: u16) -> Result<(), PackFault>
    ensures { Is (λ x. x) result (offset_judged table.now offset) }
{
    if 65534 <= offset {
        return Ok(());
    }
    if table.len() <= usize::from(offset) || 32768 <= offset {
        return Err(PackFault::BadOffset);
    }
    judged(has_nul(behind(table, offset)), PackFault::NoNul)
}

fn behind(table: &[u8], offset: u16) -> &[u8]
    requires { offset ≤ length table.now }
    ensures { result.now ≡ drop offset table.now }
{
    &table[usize::from(offset)..]
}

fn offsets_judged(table: &[u8], offsets: &[u8]) -> Result<(), PackFault>
    ensures { Is (λ x. x) result (offsets_judged table.now (words offsets.now)) }
{
    let mut rest = offsets;
    while let [low, high, behind @ ..] = rest {
        offset_judged(table, u16::from_le_bytes([*low, *high]))?;
        rest = behind;
    }
    Ok(())
}

#[tactic(auto, unfolding(crate::specs::Readings::parts_judged))]
fn parts_judged(parts: &Sections<'_>) -> Result<(), PackFault>
    ensures { Is (λ x. x) result (parts_judged (parts_view parts.now)) }
{
    judged(ends_with_nul(parts.names), PackFault::NoNul)?;
    judged(are_flags(parts.flags), PackFault::BadFlag)?;
    judged(are_numbers(parts.form, parts.numbers), PackFault::BadNumber)?;
    offsets_judged(parts.table, parts.offsets)?;
    Ok(())
}

/// The sections of a file, or its first fault.
#[tactic(auto, unfolding(crate::specs::Readings::parts_of))]
pub(crate) fn parts_of(file: &[u8]) -> Result<Sections<'_>, PackFault>
    ensures { Is parts_view result (parts_of file.now) }
{
    let (magic, rest) = word_of(file)?;
    let form = form_of(magic)?;
    let (sizes, rest) = sizes_of(rest)?;
    let parts = sections_of(form, sizes, rest)?;
    parts_judged(&parts)?;
    Ok(parts)
}
