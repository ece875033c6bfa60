//! The charsets that a terminal can have if strings are cut off anywhere.

ghost use Rattle.std.specs.Prelude.{◌≡◌, if◌then◌else◌, true, false, ◌++◌, [], ◌∷◌, ℕ, List, IfErr, OnOk};
ghost use Rattle.vt_term.specs.{Scanned.{HasFault}, Text.{Splits}};
ghost use Rattle.ti_conforms.specs.Charsets.{can_have, joined, makes_g0_graphic, makes_g1_graphic, reach_of};
ghost use Rattle.ti_conforms.specs.Charsets.{shifts_out};

use vt_term::{Charset, CodeElement, Function, Scanner, TextFault, Token};

/// The marks of the character sets that tokens can turn on. A charset is reached by tokens exactly
/// if they turn on each of its marks, since every mark is off in the reset state.
#[derive(Clone, Copy, Debug, PartialEq, Eq)]
pub struct Reach {
    pub g0_graphic: bool,
    pub g1_graphic: bool,
    pub shifted_out: bool,
}

fn makes_g0_graphic(function: Function<'_>) -> bool
    ensures { result ≡ makes_g0_graphic function.entry }
{
    matches!(function, Function::Designate(CodeElement::G0, true))
}

fn makes_g1_graphic(function: Function<'_>) -> bool
    ensures { result ≡ makes_g1_graphic function.entry }
{
    matches!(function, Function::Designate(CodeElement::G1, true))
}

fn shifts_out(function: Function<'_>) -> bool
    ensures { result ≡ shifts_out function.entry }
{
    matches!(function, Function::ShiftOut)
}

fn either(first: bool, second: bool) -> bool
    ensures { result ≡ (if first then true else (if second then true else false)) }
{
    first || second
}

impl Reach {
    /// No mark, as for an empty list of tokens.
    pub fn none() -> Reach
        ensures { result ≡ reach_of [] }
    {
        Reach {
            g0_graphic: false,
            g1_graphic: false,
            shifted_out: false,
        }
    }

    /// Whether a terminal can have this charset.
    pub fn can_have(self, charset: Charset) -> bool
        ensures { result ≡ can_have self charset }
    {
        (!charset.g0_graphic || self.g0_graphic)
            && (!charset.g1_graphic || self.g1_graphic)
            && (!charset.shifted_out || self.shifted_out)
    }

    fn learn(&mut self, token: &Token)
        ensures { self.new ≡ joined self.old (reach_of (token.now ∷ [])) }
    {
        self.g0_graphic = either(self.g0_graphic, makes_g0_graphic(token.function()));
        self.g1_graphic = either(self.g1_graphic, makes_g1_graphic(token.function()));
        self.shifted_out = either(self.shifted_out, shifts_out(token.function()));
    }

    /// Adds the marks that these tokens turn on.
    pub fn learn_all(&mut self, tokens: &[Token])
        ensures { self.new ≡ joined self.old (reach_of tokens.now) }
    {
        for token in tokens {
            self.learn(token);
        }
    }

    /// Adds the marks that the token read last turns on.
    fn learn_read(&mut self, scanner: &Scanner)
        ensures { self.new ≡ joined self.old (reach_of (scanner.now ∷ [])) }
    {
        self.g0_graphic = either(self.g0_graphic, makes_g0_graphic(scanner.function()));
        self.g1_graphic = either(self.g1_graphic, makes_g1_graphic(scanner.function()));
        self.shifted_out = either(self.shifted_out, shifts_out(scanner.function()));
    }

    /// Adds the marks that the tokens of `text` turn on, which `scanner` reads in place.
    ///
    /// # Errors
    /// The first fault of the text; the marks of the tokens before it are added.
    pub fn learn_text(&mut self, scanner: &mut Scanner, text: &[u8]) -> Result<(), TextFault>
        ensures whole { OnOk result ((tokens : List (List ℕ)) × Splits text.now tokens []) }
        ensures learned { OnOk result ((tokens : List (List ℕ)) → Splits text.now tokens []
            → self.new ≡ joined self.old (reach_of tokens)) }
        ensures fault { IfErr result (HasFault text.now) }
    {
        let mut at = 0;
        loop {
            match scanner.next(text, at) {
                Ok(Some(end)) => {
                    self.learn_read(scanner);
                    at = end;
                }
                Ok(None) => return Ok(()),
                Err(fault) => return Err(fault),
            }
        }
    }
}
