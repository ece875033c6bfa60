//! Numbers as messages print them.

ghost use Rattle.std.specs.{Prelude.{◌≡◌, ◌++◌, ◌∷◌, OnOk}, Fmt.{decimal}};
ghost use Rattle.ti_words.specs.Numbers.{numbers_text};

use std::alloc::Global;
use ti_files::Pushed;

/// Appends each of the `numbers` to `words`, in decimal and after a space.
pub fn push_numbers(alloc: Global, numbers: &[u16], words: &mut Vec<u8>) -> Pushed
    ensures { OnOk result (words.new.items ≡ words.old.items ++ numbers_text numbers.now) }
{
    for number in numbers {
        push_number(alloc, *number, words)?;
    }
    Ok(())
}

/// Appends a space and `number` to `words`.
fn push_number(alloc: Global, number: u16, words: &mut Vec<u8>) -> Pushed
    ensures { OnOk result (words.new.items ≡ words.old.items ++ (32 ∷ decimal number)) }
{
    let digits = format!(in alloc; " {number}")?;
    words.extend_from_slice(digits.as_bytes())
}
