//! Numbers in decimal, in a small buffer.

ghost use Rattle.arrayvec.specs.ArrayVec.{array_vec_len};
ghost use Rattle.std.specs.{Fmt.{decimal}, Prelude.{◌≡◌, ◌++◌, ◌+◌, ◌<◌, ◌≤◌}};

use arrayvec::ArrayVec;

/// Room for a control sequence with numbers, and for the line about it.
pub(crate) const ROOM: usize = 64;

/// Appends a digit.
fn push_digit(digit: u16, bytes: &mut ArrayVec<u8, ROOM>)
    requires digit { digit < 10 }
    requires room { array_vec_len bytes.old + 1 ≤ 64 }
    ensures items { bytes.new.items ≡ bytes.old.items ++ decimal digit }
    ensures len { array_vec_len bytes.new ≤ array_vec_len bytes.old + 1 }
{
    bytes.push(b'0' + digit as u8);
}

/// Appends a number below 100.
fn push_short(number: u16, bytes: &mut ArrayVec<u8, ROOM>)
    requires small { number < 100 }
    requires room { array_vec_len bytes.old + 2 ≤ 64 }
    ensures items { bytes.new.items ≡ bytes.old.items ++ decimal number }
    ensures len { array_vec_len bytes.new ≤ array_vec_len bytes.old + 2 }
{
    if number < 10 {
        push_digit(number, bytes);
    } else {
        push_digit(number / 10, bytes);
        push_digit(number % 10, bytes);
    }
}

/// Appends a number below 1000.
pub(crate) fn push_number(number: u16, bytes: &mut ArrayVec<u8, ROOM>)
    requires small { number < 1000 }
    requires room { array_vec_len bytes.old + 3 ≤ 64 }
    ensures items { bytes.new.items ≡ bytes.old.items ++ decimal number }
    ensures len { array_vec_len bytes.new ≤ array_vec_len bytes.old + 3 }
{
    if number < 100 {
        push_short(number, bytes);
    } else {
        push_short(number / 10, bytes);
        push_digit(number % 10, bytes);
    }
}
