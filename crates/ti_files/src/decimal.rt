//! Numbers in the words of a command line.

ghost use Rattle.std.specs.{Prelude.{◌≡◌, ◌↔◌, ◌<◌, ◌^◌, IsSome, IfSome}, Str.Parse.{digits_value}};
ghost use Rattle.ti_files.specs.Words.{IsNumberWord};

/// The greatest number that a word can give.
const GREATEST: u32 = 2_147_483_647;

/// The value of `word` if it has decimal digits alone, leading zeros included, and is at most
/// 2147483647; `None` for any other word, including one with a sign.
pub fn decimal_number(word: &str) -> Option<u32>
    ensures found { IsSome result ↔ IsNumberWord word.now }
    ensures value { IfSome result (λ n. n ≡ digits_value 10 word.now) }
    ensures range { IfSome result (λ n. n < 2 ^ 31) }
{
    if word.as_bytes().first() == Some(&b'+') {
        return None;
    }
    match word.parse::<u32>() {
        Ok(number) if number <= GREATEST => Some(number),
        _ => None,
    }
}
