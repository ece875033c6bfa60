//! Successive blank cells of a line.
ghost use Rattle.std.specs.Prelude.{◌≡◌, ◌≤◌, length};
ghost use Rattle.cur_steps.specs.Stretches.{AreBlank};

use crate::inks::{Ink, is_plain_ink};

/// Sets in `same`, for each of `count` blank cells, whether it is printed like `ink` with the character that `text` has
/// for it.
pub fn blank_shown(count: usize, ink: Ink, text: &[u8], same: &mut [bool])
    requires text { count ≤ length text.now }
    requires room { count ≤ length same.old }
    ensures room { length same.new ≡ length same.old }
    ensures found { AreBlank count ink text.now same.new }
{
    let is_plain = is_plain_ink(ink);
    for n in 0..count {
        same[n] = is_plain & (text[n] == b' ');
    }
}
