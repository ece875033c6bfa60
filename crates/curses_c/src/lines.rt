//! The line of a text of calls that has a call.
ghost use Rattle.std.specs.{Prelude.{◌≡◌, ◌==◌, ◌∷◌, ◌<◌, ◌≤◌, IfSome, length, option_map}, List.{position}};
ghost use Rattle.cur_scripts.specs.{Cuts.{left_size, lines_of, parts_left}, Texts.{is_skipped}};
ghost use Rattle.curses_c.specs.Lines.{line_of};

/// The line, from 1, of the call at `place`, from 0, in a text of calls; 0 if it has fewer.
pub fn line_of(text: &[u8], place: usize) -> usize
    ensures { result ≡ line_of text.now place }
{
    let mut before = place;
    let mut number = 1;
    let mut left = Some(text);
    while let Some(text) = left {
        let (line, rest) = first_line(text);
        if !is_skipped(line) {
            if before == 0 {
                return number;
            }
            before -= 1;
        }
        left = rest;
        number += 1;
    }
    0
}

/// The first line of a text, and the rest after its end.
#[tactic(auto, using(crate::proofs::Places::line_first, crate::proofs::Places::line_alone, std::proofs::lemmas::List::take_rest))]
fn first_line(text: &[u8]) -> (&[u8], Option<&[u8]>)
    ensures lines { lines_of text.now ≡ result.0.now ∷ parts_left 10 (option_map (λ rest. rest.now) result.1) }
    ensures shorter { left_size (option_map (λ rest. rest.now) result.1) ≤ length text.now }
{
    match end_of(text) {
        Some(at) => (&text[..at], Some(&text[at + 1..])),
        None => (text, None),
    }
}

/// The place of the first line's end, if the text has a line feed.
fn end_of(text: &[u8]) -> Option<usize>
    ensures place { result ≡ position (λ b. b == 10) text.now }
    ensures within { IfSome result (λ at. at < length text.now) }
{
    text.iter().position(|byte| *byte == b'\n')
}

/// Whether `line` is empty or begins with `#`.
fn is_skipped(line: &[u8]) -> bool
    ensures { result ≡ is_skipped line.now }
{
    match line {
        [] => true,
        [first, ..] => *first == b'#',
    }
}
