//! The control sequences with numbers that the standard's strings send.

ghost use Rattle.arrayvec.specs.ArrayVec.{array_vec_len};
ghost use Rattle.std.specs.Prelude.{◌≡◌, ◌++◌, ◌+◌, ◌<◌, ◌≤◌, IfNone, IfSome, IsTrue, false, true};
ghost use Rattle.ti_conforms.specs.Sends.{Sends};
ghost use Rattle.ti_forms.specs.Forms as spec;

use crate::numbers::{ROOM, push_number};
use arrayvec::ArrayVec;
use ti_rows::Row;

/// A control sequence: CSI, one or two numbers in decimal, and a final byte (ECMA-48 5.4).
#[derive(Clone, Copy)]
pub(crate) struct Form {
    pub first: u16,
    pub second: Option<u16>,
    pub last: u8,
}

/// Appends a semicolon and the second number, if there is one, which must be below 1000.
fn push_second(second: Option<u16>, bytes: &mut ArrayVec<u8, ROOM>)
    requires small { IfSome second (λ number. number < 1000) }
    requires room { array_vec_len bytes.old + 4 ≤ 64 }
    ensures items { bytes.new.items ≡ bytes.old.items ++ spec.second_text second }
    ensures len { array_vec_len bytes.new ≤ array_vec_len bytes.old + 4 }
{
    if let Some(number) = second {
        bytes.push(b';');
        push_number(number, bytes);
    }
}

impl Form {
    /// The bytes. The numbers must be below 1000.
    pub fn bytes(self) -> ArrayVec<u8, ROOM>
        requires first { self.first < 1000 }
        requires second { IfSome self.second (λ number. number < 1000) }
        ensures { result.items ≡ spec.bytes_of self }
    {
        let mut bytes = ArrayVec::new();
        bytes.push(27);
        bytes.push(b'[');
        push_number(self.first, &mut bytes);
        push_second(self.second, &mut bytes);
        bytes.push(self.last);
        bytes
    }
}

/// A sequence with one number.
fn with_number(number: u16, last: u8) -> Form
    ensures { result ≡ record { first = number; second = None; last = last } }
{
    Form {
        first: number,
        second: None,
        last,
    }
}

/// A sequence with two numbers.
fn with_numbers(first: u16, second: u16, last: u8) -> Form
    ensures { result ≡ record { first = first; second = Some second; last = last } }
{
    Form {
        first,
        second: Some(second),
        last,
    }
}

/// Whether a screen can have this number of rows or columns.
pub(crate) fn is_short(number: u16) -> bool
    ensures short { result ≡ true → number ≤ 500 }
    ensures long { result ≡ false → 500 < number }
{
    number <= 500
}

/// Whether a number of rows or columns is above 0, and a screen can have it.
pub(crate) fn is_count(number: u16) -> bool
    ensures some { result ≡ true → 1 ≤ number }
    ensures short { result ≡ true → number ≤ 500 }
    ensures other { result ≡ false → 1 ≤ number → 500 < number }
{
    1 <= number && number <= 500
}

/// The control sequence that the standard's string of the row's capability sends for the row; `None` for any other
/// capability, for a number above 500, and for a count of 0.
pub(crate) fn form_of(row: Row) -> Option<Form>
    ensures has { IfSome result (λ form. spec.HasForm row) }
    ensures bytes { IfSome result (λ form. spec.bytes_of form ≡ spec.standard_bytes row) }
    ensures first { IfSome result (λ form. form.first < 1000) }
    ensures second { IfSome result (λ form. IfSome form.second (λ number. number < 1000)) }
    ensures none { IfNone result (spec.HasForm row → ⊥) }
{
    match row {
        Row::Cup(line, column) if is_short(line) && is_short(column) => {
            Some(with_numbers(line + 1, column + 1, b'H'))
        }
        Row::Hpa(column) if is_short(column) => Some(with_number(column + 1, b'G')),
        Row::Vpa(line) if is_short(line) => Some(with_number(line + 1, b'd')),
        Row::Cub(count) if is_count(count) => Some(with_number(count, b'D')),
        Row::Cuf(count) if is_count(count) => Some(with_number(count, b'C')),
        Row::Cuu(count) if is_count(count) => Some(with_number(count, b'A')),
        Row::Cud(count) if is_count(count) => Some(with_number(count, b'B')),
        Row::Ech(count) if is_count(count) => Some(with_number(count, b'X')),
        Row::Csr(top, bottom) if is_short(top) && is_short(bottom) => {
            Some(with_numbers(top + 1, bottom + 1, b'r'))
        }
        _ => None,
    }
}

/// Whether `string` is the standard's string of the row's capability.
pub(crate) fn is_standard(string: &[u8], row: Row) -> bool
    ensures yes { result ≡ true → string.now ≡ spec.standard_string row }
    ensures no { result ≡ false → spec.IsStandardFor row string.now → ⊥ }
{
    match row {
        Row::Cup(_, _) => string == b"\x1b[%i%p1%d;%p2%dH".as_slice(),
        Row::Hpa(_) => string == b"\x1b[%i%p1%dG".as_slice(),
        Row::Vpa(_) => string == b"\x1b[%i%p1%dd".as_slice(),
        Row::Cub(_) => string == b"\x1b[%p1%dD".as_slice(),
        Row::Cuf(_) => string == b"\x1b[%p1%dC".as_slice(),
        Row::Cuu(_) => string == b"\x1b[%p1%dA".as_slice(),
        Row::Cud(_) => string == b"\x1b[%p1%dB".as_slice(),
        Row::Ech(_) => string == b"\x1b[%p1%dX".as_slice(),
        Row::Csr(_, _) => string == b"\x1b[%i%p1%d;%p2%dr".as_slice(),
        _ => false,
    }
}

/// The control sequence that `string` sends for `row`, if it is the standard's.
pub(crate) fn form_sent(string: &[u8], row: Row) -> Option<Form>
    ensures sends { IfSome result (λ form. Sends string.now row (spec.bytes_of form)) }
    ensures first { IfSome result (λ form. form.first < 1000) }
    ensures second { IfSome result (λ form. IfSome form.second (λ number. number < 1000)) }
{
    match form_of(row) {
        Some(form) if is_standard(string, row) => Some(form),
        _ => None,
    }
}

/// Whether `bytes` are those of a control sequence, whose numbers must be below 1000.
pub(crate) fn has_bytes(form: Form, bytes: &[u8]) -> bool
    requires first { form.first < 1000 }
    requires second { IfSome form.second (λ number. number < 1000) }
    ensures { IsTrue result → bytes.now ≡ spec.bytes_of form }
{
    bytes == form.bytes().as_slice()
}

/// Whether the row has a standard string, and `bytes` are those that it sends.
pub(crate) fn is_of_form(row: Row, bytes: &[u8]) -> bool
    ensures { IsTrue result → spec.IsOfForm row bytes.now }
{
    match form_of(row) {
        Some(form) => has_bytes(form, bytes),
        None => false,
    }
}
