//! The text of a certificate's line about a row with a standard string.

ghost use Rattle.arrayvec.specs.ArrayVec.{array_vec_len};
ghost use Rattle.hex.specs.Hex.{encode_lower};
ghost use Rattle.std.specs.{Fmt.{decimal}, Prelude.{◌≡◌, ◌++◌, ◌+◌, ◌<◌, ◌≤◌, ◌∷◌, [], IfSome, length}};
ghost use Rattle.ti_forms.specs.Forms.{IsStandardLine, standard_line};
ghost use Rattle.ti_lines.specs.RowLines.{line_text};
ghost use Rattle.ti_rows.specs.declared.rows.Row.TheVariants.{Csr, Cub, Cud, Cuf, Cup, Cuu, Ech, Hpa, Vpa};

use crate::forms::{is_count, is_short};
use crate::numbers::{ROOM, push_number};
use arrayvec::ArrayVec;
use ti_rows::Row;

/// Appends a word.
fn push_word(word: &[u8], text: &mut ArrayVec<u8, ROOM>)
    requires room { array_vec_len text.old + length word.now ≤ 64 }
    ensures items { text.new.items ≡ text.old.items ++ word.now }
    ensures len { array_vec_len text.new ≡ array_vec_len text.old + length word.now }
{
    text.try_extend_from_slice(word).unwrap();
}

/// Appends the code of a digit in hexadecimal.
fn push_hex_digit(digit: u16, text: &mut ArrayVec<u8, ROOM>)
    requires digit { digit < 10 }
    requires room { array_vec_len text.old + 2 ≤ 64 }
    ensures items { text.new.items ≡ text.old.items ++ encode_lower (decimal digit) }
    ensures len { array_vec_len text.new ≤ array_vec_len text.old + 2 }
{
    text.push(b'3');
    text.push(b'0' + digit as u8);
}

/// Appends the codes of the digits of a number below 100 in hexadecimal.
fn push_hex_short(number: u16, text: &mut ArrayVec<u8, ROOM>)
    requires small { number < 100 }
    requires room { array_vec_len text.old + 4 ≤ 64 }
    ensures items { text.new.items ≡ text.old.items ++ encode_lower (decimal number) }
    ensures len { array_vec_len text.new ≤ array_vec_len text.old + 4 }
{
    if number < 10 {
        push_hex_digit(number, text);
    } else {
        push_hex_digit(number / 10, text);
        push_hex_digit(number % 10, text);
    }
}

/// Appends the codes of the digits of a number below 1000 in hexadecimal.
fn push_hex_number(number: u16, text: &mut ArrayVec<u8, ROOM>)
    requires small { number < 1000 }
    requires room { array_vec_len text.old + 6 ≤ 64 }
    ensures items { text.new.items ≡ text.old.items ++ encode_lower (decimal number) }
    ensures len { array_vec_len text.new ≤ array_vec_len text.old + 6 }
{
    if number < 100 {
        push_hex_short(number, text);
    } else {
        push_hex_short(number / 10, text);
        push_hex_digit(number % 10, text);
    }
}

/// Appends the numbers of a place in decimal, with these words before, between and behind them.
fn push_place(
    before: &[u8],
    between: &[u8],
    behind: &[u8],
    row: u16,
    col: u16,
    text: &mut ArrayVec<u8, ROOM>,
)
    requires row { row ≤ 500 }
    requires col { col ≤ 500 }
    requires room { array_vec_len text.old + length before.now + length between.now + length behind.now + 6 ≤ 64 }
    ensures items { text.new.items ≡ text.old.items
        ++ (before.now ++ (decimal row ++ (between.now ++ (decimal col ++ behind.now)))) }
    ensures len { array_vec_len text.new
        ≤ array_vec_len text.old + length before.now + length between.now + length behind.now + 6 }
{
    push_word(before, text);
    push_number(row, text);
    push_word(between, text);
    push_number(col, text);
    push_word(behind, text);
}

/// Appends a control sequence with two numbers, each raised by 1, in hexadecimal. `last` must be its final byte in
/// hexadecimal.
fn push_places(row: u16, col: u16, last: &[u8], text: &mut ArrayVec<u8, ROOM>)
    requires row { row ≤ 500 }
    requires col { col ≤ 500 }
    requires room { array_vec_len text.old + 18 + length last.now ≤ 64 }
    ensures items { text.new.items ≡ text.old.items ++ ((49 ∷ 98 ∷ 53 ∷ 98 ∷ []) ++ (encode_lower (decimal (row + 1))
        ++ ((51 ∷ 98 ∷ []) ++ (encode_lower (decimal (col + 1)) ++ last.now)))) }
    ensures len { array_vec_len text.new ≤ array_vec_len text.old + 18 + length last.now }
{
    push_word(b"1b5b", text);
    push_hex_number(row + 1, text);
    push_word(b"3b", text);
    push_hex_number(col + 1, text);
    push_word(last, text);
}

/// Appends a control sequence with one number in hexadecimal. `last` must be its final byte in hexadecimal.
fn push_sequence(number: u16, last: &[u8], text: &mut ArrayVec<u8, ROOM>)
    requires small { number ≤ 501 }
    requires room { array_vec_len text.old + 10 + length last.now ≤ 64 }
    ensures items { text.new.items ≡ text.old.items
        ++ ((49 ∷ 98 ∷ 53 ∷ 98 ∷ []) ++ (encode_lower (decimal number) ++ last.now)) }
    ensures len { array_vec_len text.new ≤ array_vec_len text.old + 10 + length last.now }
{
    push_word(b"1b5b", text);
    push_hex_number(number, text);
    push_word(last, text);
}

/// Appends a number in decimal, between two words.
fn push_around(before: &[u8], number: u16, behind: &[u8], text: &mut ArrayVec<u8, ROOM>)
    requires small { number ≤ 500 }
    requires room { array_vec_len text.old + length before.now + length behind.now + 3 ≤ 64 }
    ensures items { text.new.items ≡ text.old.items ++ (before.now ++ (decimal number ++ behind.now)) }
    ensures len { array_vec_len text.new ≤ array_vec_len text.old + length before.now + length behind.now + 3 }
{
    push_word(before, text);
    push_number(number, text);
    push_word(behind, text);
}

/// The text of the line about the move to a place, which must be one that a screen can have.
fn cup_line(row: u16, col: u16) -> ArrayVec<u8, ROOM>
    requires row { row ≤ 500 }
    requires col { col ≤ 500 }
    ensures { result.items ≡ line_text (standard_line (Cup row col)) }
{
    let mut text = ArrayVec::new();
    push_place(b"cup ", b" ", b" ", row, col, &mut text);
    push_places(row, col, b"48", &mut text);
    push_place(b" row=", b" col=", b" nopend", row, col, &mut text);
    text
}

/// The text of the line about margins, which must be lines that a screen can have.
fn csr_line(top: u16, bottom: u16) -> ArrayVec<u8, ROOM>
    requires top { top ≤ 500 }
    requires bottom { bottom ≤ 500 }
    ensures { result.items ≡ line_text (standard_line (Csr top bottom)) }
{
    let mut text = ArrayVec::new();
    push_place(b"csr ", b" ", b" ", top, bottom, &mut text);
    push_places(top, bottom, b"72", &mut text);
    push_place(
        b" row=0 col=0 nopend rows:",
        b",",
        b"",
        top,
        bottom,
        &mut text,
    );
    text
}

/// The text of the line about `hpa` with this number, which must be one that a screen can have.
fn hpa_line(column: u16) -> ArrayVec<u8, ROOM>
    requires { column ≤ 500 }
    ensures { result.items ≡ line_text (standard_line (Hpa column)) }
{
    let mut text = ArrayVec::new();
    push_around(b"hpa ", column, b" ", &mut text);
    push_sequence(column + 1, b"47", &mut text);
    push_around(b" col=", column, b" nopend", &mut text);
    text
}

/// The text of the line about `vpa` with this number, which must be one that a screen can have.
fn vpa_line(line: u16) -> ArrayVec<u8, ROOM>
    requires { line ≤ 500 }
    ensures { result.items ≡ line_text (standard_line (Vpa line)) }
{
    let mut text = ArrayVec::new();
    push_around(b"vpa ", line, b" ", &mut text);
    push_sequence(line + 1, b"64", &mut text);
    push_around(b" row=", line, b" nopend", &mut text);
    text
}

/// The text of the line about `cub` with this number, which must be one that a screen can have.
fn cub_line(count: u16) -> ArrayVec<u8, ROOM>
    requires { count ≤ 500 }
    ensures { result.items ≡ line_text (standard_line (Cub count)) }
{
    let mut text = ArrayVec::new();
    push_around(b"cub ", count, b" ", &mut text);
    push_sequence(count, b"44", &mut text);
    push_around(b" col-", count, b" nopend", &mut text);
    text
}

/// The text of the line about `cuf` with this number, which must be one that a screen can have.
fn cuf_line(count: u16) -> ArrayVec<u8, ROOM>
    requires { count ≤ 500 }
    ensures { result.items ≡ line_text (standard_line (Cuf count)) }
{
    let mut text = ArrayVec::new();
    push_around(b"cuf ", count, b" ", &mut text);
    push_sequence(count, b"43", &mut text);
    push_around(b" col+", count, b" nopend", &mut text);
    text
}

/// The text of the line about `cuu` with this number, which must be one that a screen can have.
fn cuu_line(count: u16) -> ArrayVec<u8, ROOM>
    requires { count ≤ 500 }
    ensures { result.items ≡ line_text (standard_line (Cuu count)) }
{
    let mut text = ArrayVec::new();
    push_around(b"cuu ", count, b" ", &mut text);
    push_sequence(count, b"41", &mut text);
    push_around(b" row-", count, b" nopend", &mut text);
    text
}

/// The text of the line about `cud` with this number, which must be one that a screen can have.
fn cud_line(count: u16) -> ArrayVec<u8, ROOM>
    requires { count ≤ 500 }
    ensures { result.items ≡ line_text (standard_line (Cud count)) }
{
    let mut text = ArrayVec::new();
    push_around(b"cud ", count, b" ", &mut text);
    push_sequence(count, b"42", &mut text);
    push_around(b" row+", count, b" nopend", &mut text);
    text
}

/// The text of the line about `ech` with this number, which must be one that a screen can have.
fn ech_line(count: u16) -> ArrayVec<u8, ROOM>
    requires { count ≤ 500 }
    ensures { result.items ≡ line_text (standard_line (Ech count)) }
{
    let mut text = ArrayVec::new();
    push_around(b"ech ", count, b" ", &mut text);
    push_sequence(count, b"58", &mut text);
    push_around(b" next=", count, b"", &mut text);
    text
}

/// The text of the line about a row with a standard string.
pub(crate) fn line_of(row: Row) -> Option<ArrayVec<u8, ROOM>>
    ensures { IfSome result (λ text. IsStandardLine row text.items) }
{
    match row {
        Row::Cup(line, column) if is_short(line) && is_short(column) => {
            Some(cup_line(line, column))
        }
        Row::Hpa(column) if is_short(column) => Some(hpa_line(column)),
        Row::Vpa(line) if is_short(line) => Some(vpa_line(line)),
        Row::Cub(count) if is_count(count) => Some(cub_line(count)),
        Row::Cuf(count) if is_count(count) => Some(cuf_line(count)),
        Row::Cuu(count) if is_count(count) => Some(cuu_line(count)),
        Row::Cud(count) if is_count(count) => Some(cud_line(count)),
        Row::Ech(count) if is_count(count) => Some(ech_line(count)),
        Row::Csr(top, bottom) if is_short(top) && is_short(bottom) => Some(csr_line(top, bottom)),
        _ => None,
    }
}
