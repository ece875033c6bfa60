//! The words of a line, one after another.
ghost use Rattle.std.specs.Prelude.{◌≡◌, ◌∷◌, ◌≤◌, [], bytes_eq, false, length, option_map, IfNone, IfSome, Some};
ghost use Rattle.cur_scripts.specs.{Cuts.{words_of}, Numbers.{number_in, window_in, flag_in, zero_in}};
ghost use Rattle.cur_scripts.specs.Words as spec;
ghost use Rattle.cur_scripts.specs.Cells.{cell_in, cell_or, attrs_in};

use crate::Text;
use crate::cells::{attrs_in, cell_in, cell_or};
use crate::numbers::{flag_in, number_in, short_number, window_in, zero_in};
use cur_drawing::{Attrs, Put};
use std::marker::Model;

// Reads the next one of `$words` by `$read`, and gives it with the words after it.
macro_rules! first {
    ($words:expr, $read:expr) => {{
        let (word, words) = $words.next()?;
        Some(($read(word)?, words))
    }};
}

/// The remaining words of a line. The functions that read numbers and cells are inlined, so that the
/// slice stays in registers.
#[derive(Drop)]
pub(crate) struct Words<'a> {
    // the text from the space before the next word to the line's end
    left: &'a [u8],
}

impl<'a> Model for Words<'a> {
    ghost use Rattle.std.specs.Prelude.{List, ℕ};
    ghost use Rattle.cur_scripts.specs.Words.{words_behind};

    ghost Value = { List (List ℕ) };

    ghost view = { λ w. words_behind w.left.now };
}

impl<'a> Words<'a> {
    ghost use Rattle.std.specs.Prelude.{◌≡◌, ◌∷◌, ◌≤◌, bytes_eq, false, true, option_map, IfNone, IfSome, Some};

    /// The words of `line` after the first one, if that is `name`, which must have no space.
    pub(crate) fn after(name: &[u8], line: &'a [u8]) -> Option<Words<'a>>
        requires { spec.front_word name.now ≡ name.now }
        ensures name { IfSome result (λ words. bytes_eq (spec.front_word line.now) name.now ≡ true) }
        ensures words { IfSome result (λ words. words ≡ spec.words_after line.now) }
        ensures other { IfNone result (bytes_eq (spec.front_word line.now) name.now ≡ false) }
    {
        let left = past_name(name, line)?;
        match left {
            [] => Some(Words { left }),
            [b' ', ..] => Some(Words { left }),
            _ => None,
        }
    }

    /// The first word of a line, and the words after it.
    #[tactic(auto, using(crate::proofs::WordsLeft::words_cut))]
    pub(crate) fn of(line: &'a [u8]) -> (&'a [u8], Words<'a>)
        ensures { words_of line.now ≡ result.0.now ∷ result.1 }
    {
        let (word, left) = divided(line);
        (word, Words { left })
    }

    /// The next word, and the words after it.
    pub(crate) fn next(self) -> Option<(&'a [u8], Words<'a>)>
        ensures { option_map (λ p. (p.0.now, p.1)) result ≡ spec.first_word self.entry }
    {
        match self.left {
            [] => None,
            [_, text @ ..] => Some(Words::of(text)),
        }
    }

    /// `Some` if no word is left.
    #[tactic(auto, using(crate::proofs::WordsLeft::not_ended))]
    pub(crate) fn end(self) -> Option<()>
        ensures { result ≡ spec.ended self.entry }
    {
        match self.left {
            [] => Some(()),
            _ => None,
        }
    }

    /// The remaining text, spaces included, after the space that it begins with.
    pub(crate) fn rest(self) -> Option<Text<'a>>
        ensures { result ≡ spec.rest self.entry }
    {
        match self.left {
            [] => None,
            [_, text @ ..] => Some(Text::new(text)),
        }
    }

    /// A number.
    #[inline(always)]
    #[tactic(auto, using(crate::proofs::Shorts::as_number))]
    pub(crate) fn number(self) -> Option<(i32, Words<'a>)>
        ensures { result ≡ spec.first number_in self.entry }
    {
        if let Some((number, words)) = self.short_number() {
            return Some((number as i32, words));
        }
        first!(self, number_in)
    }

    /// A number of a few digits without a sign, whose end is found as it is read; `None` also for
    /// longer numbers.
    #[inline(always)]
    fn short_number(&self) -> Option<(u32, Words<'a>)>
        ensures value { IfSome result (λ p. spec.first window_in self.now ≡ Some (p.0, p.1)) }
        ensures range { IfSome result (λ p. p.0 ≤ 2147483647) }
    {
        match self.left {
            [] => None,
            [_, text @ ..] => Words::first_short(text),
        }
    }

    /// A number of a few digits without a sign as the first word of a line; `None` also for longer numbers.
    #[tactic(auto, using(crate::proofs::Shorts::first_short))]
    fn first_short(line: &'a [u8]) -> Option<(u32, Words<'a>)>
        ensures value { IfSome result (λ p. spec.first window_in (words_of line.now) ≡ Some (p.0, p.1)) }
        ensures range { IfSome result (λ p. p.0 ≤ 2147483647) }
    {
        let (number, left) = short_number(line)?;
        Some((number, Words { left }))
    }

    /// A window's number.
    #[inline(always)]
    pub(crate) fn window(self) -> Option<(usize, Words<'a>)>
        ensures { result ≡ spec.first window_in self.entry }
    {
        if let Some((number, words)) = self.short_number() {
            return Some((number as usize, words));
        }
        first!(self, window_in)
    }

    /// A flag: 0 or 1.
    pub(crate) fn flag(self) -> Option<(bool, Words<'a>)>
        ensures { result ≡ spec.first flag_in self.entry }
    {
        first!(self, flag_in)
    }

    /// The number 0.
    pub(crate) fn zero(self) -> Option<((), Words<'a>)>
        ensures { result ≡ spec.first zero_in self.entry }
    {
        first!(self, zero_in)
    }

    /// A cell.
    #[inline(always)]
    pub(crate) fn cell(self) -> Option<(Put, Words<'a>)>
        ensures { result ≡ spec.first cell_in self.entry }
    {
        first!(self, cell_in)
    }

    /// A cell, or a dash for `default`.
    pub(crate) fn cell_or(self, default: Put) -> Option<(Put, Words<'a>)>
        ensures { result ≡ spec.first (λ word. cell_or default word) self.entry }
    {
        let (word, words) = self.next()?;
        Some((cell_or(default, word)?, words))
    }

    /// Attributes.
    pub(crate) fn attrs(self) -> Option<(Attrs, Words<'a>)>
        ensures { result ≡ spec.first attrs_in self.entry }
    {
        first!(self, attrs_in)
    }

    /// Two numbers.
    #[inline(always)]
    pub(crate) fn two_numbers(self) -> Option<((i32, i32), Words<'a>)>
        ensures { result ≡ spec.two_numbers self.entry }
    {
        let (first, words) = self.number()?;
        let (second, words) = words.number()?;
        Some(((first, second), words))
    }

    /// Four numbers.
    pub(crate) fn four_numbers(self) -> Option<((i32, i32, i32, i32), Words<'a>)>
        ensures { result ≡ spec.four_numbers self.entry }
    {
        let ((first, second), words) = self.two_numbers()?;
        let ((third, fourth), words) = words.two_numbers()?;
        Some(((first, second, third, fourth), words))
    }

    /// Two windows' numbers.
    pub(crate) fn two_windows(self) -> Option<((usize, usize), Words<'a>)>
        ensures { result ≡ spec.two_windows self.entry }
    {
        let (first, words) = self.window()?;
        let (second, words) = words.window()?;
        Some(((first, second), words))
    }
}

// The rest of `line` after `name`, if it begins with it.
#[tactic(auto, using(crate::proofs::WordsLeft::shorter_line, crate::proofs::WordsLeft::passes_on, crate::proofs::WordsLeft::passes_no_more, std::proofs::lemmas::List::take_rest))]
fn past_name<'a>(name: &[u8], line: &'a [u8]) -> Option<&'a [u8]>
    requires { spec.front_word name.now ≡ name.now }
    ensures none { IfNone result (bytes_eq (spec.front_word line.now) name.now ≡ false) }
    ensures word { IfSome result (λ left. bytes_eq (spec.front_word left.now) []
        ≡ bytes_eq (spec.front_word line.now) name.now) }
    ensures rest { IfSome result (λ left. spec.past_front_word left.now ≡ spec.past_front_word line.now) }
{
    if line.len() < name.len() {
        return None;
    }
    let mut at = 0;
    while at < name.len() && line[at] == name[at] {
        at += 1;
    }
    if at < name.len() {
        return None;
    }
    Some(&line[at..])
}

// The first word of a text, and the text after it, from a space on.
#[tactic(auto, using(crate::proofs::WordsLeft::divided, std::proofs::lemmas::List::take_rest))]
fn divided(text: &[u8]) -> (&[u8], &[u8])
    ensures word { result.0.now ≡ spec.front_word text.now }
    ensures behind { result.1.now ≡ spec.past_front_word text.now }
{
    let at = word_length(text);
    (&text[..at], &text[at..])
}

// The length of a text's first word.
fn word_length(text: &[u8]) -> usize
    ensures { result ≡ length (spec.front_word text.now) }
{
    let mut at = 0;
    while at < text.len() && text[at] != b' ' {
        at += 1;
    }
    at
}
