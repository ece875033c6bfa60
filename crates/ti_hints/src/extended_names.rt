//! Names of capabilities that ncurses has beside those of terminfo(5).

/// Whether `name` is one of those that user_caps(5) of ncurses 6.4 lists, in Debian's package ncurses-bin: "Recognized
/// capabilities", and "Extended key-definitions" with the suffixes there.
pub(crate) fn is_extended(name: &[u8]) -> bool {
    match name {
        [b'A', b'X'] | [b'E', b'3'] | [b'N', b'Q'] | [b'U', b'8'] => true,
        [b'R', b'G', b'B'] | [b'X', b'M'] | [b'x', b'm'] => true,
        [b'k', key @ ..] => is_key(key),
        _ => false,
    }
}

/// Whether these are the letters of a key, behind the `k`, with or without the number of its modifiers.
fn is_key(key: &[u8]) -> bool {
    match key {
        [b'D', b'C' | b'N', modifiers @ ..] => are_modifiers(modifiers),
        [b'E', b'N', b'D', modifiers @ ..] => are_modifiers(modifiers),
        [b'H', b'O', b'M', modifiers @ ..] => are_modifiers(modifiers),
        [b'L', b'F', b'T', modifiers @ ..] => are_modifiers(modifiers),
        [b'N', b'X', b'T', modifiers @ ..] => are_modifiers(modifiers),
        [b'P', b'R', b'V', modifiers @ ..] => are_modifiers(modifiers),
        [b'R', b'I', b'T', modifiers @ ..] => are_modifiers(modifiers),
        [b'U', b'P', modifiers @ ..] => are_modifiers(modifiers),
        _ => false,
    }
}

/// Whether these are no digits, or those of 2 to 16.
fn are_modifiers(digits: &[u8]) -> bool {
    matches!(digits, [] | [b'2'..=b'9'] | [b'1', b'0'..=b'6'])
}
