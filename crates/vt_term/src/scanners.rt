//! Reading a text token by token, in place.

ghost use Rattle.std.specs.Prelude.{◌≡◌, ◌++◌, ◌∷◌, ◌-◌, ◌<◌, ◌≤◌, [], drop, length, take, IfErr, IfOk, IfSome, List};
ghost use Rattle.std.specs.Prelude.{None, Some, ◌+◌, ℕ};
ghost use Rattle.vt_term.specs.{Function.{function_of}, ParserStates.{IsTold}, Text.{IsOpen}};
ghost use Rattle.vt_term.specs.Scanned.{Begins, HasFault, HasFaultFrom, IsRead, IsTokenAt};

use crate::parser::{Parser, ParserState, Transition};
use std::alloc::{AllocError, Global};
use std::error::Error;
use std::fmt;
use std::marker::Model;
use vt_screen::Function;

/// The reason why a text isn't a concatenation of tokens.
#[derive(Clone, Copy, Debug, PartialEq, Eq)]
pub enum TextFaultKind {
    /// The sequence that begins at the place isn't whole at the text's end.
    Unfinished,
    /// The byte at the place can neither continue nor begin a token.
    Stuck,
}

/// The first fault of a text, and its place.
#[derive(Clone, Copy, Debug, PartialEq, Eq)]
pub struct TextFault {
    pub at: usize,
    pub kind: TextFaultKind,
}

impl fmt::Display for TextFault {
    fn fmt<W: fmt::Write>(&self, f: &mut fmt::Formatter<W>) -> fmt::Result {
        let at = self.at;
        match self.kind {
            TextFaultKind::Unfinished => write!(f, "Unfinished {at}"),
            TextFaultKind::Stuck => write!(f, "Stuck {at}"),
        }
    }
}

impl Error for TextFault {}

/// Reads texts token by token, in place: it allocates memory when it is made, and none after that. It keeps as much
/// of the last token as determines its function.
#[derive(Drop)]
pub struct Scanner {
    /// The token read last without its last byte, or a whole sequence that was cut off.
    parser: Parser,
    /// The token's last byte; `None` for a sequence that was cut off.
    last: Option<u8>,
}

impl Model for Scanner {
    ghost use Rattle.std.specs.Prelude.{List, ℕ};
    ghost use Rattle.vt_term.specs.Scanned.{IsEndedBy, token_by};

    ghost Value = { List ℕ };

    ghost view = { λ s. token_by s.parser s.last };

    ghost invariant = { λ s. IsEndedBy s.parser s.last };
}

/// Where a token ends, and its last byte if it was not cut off.
#[derive(Clone, Copy)]
struct Ending {
    end: usize,
    last: Option<u8>,
}

impl Scanner {
    /// A scanner that has read nothing. It allocates all the memory that it will need; fails only when out of memory.
    pub fn new(alloc: Global) -> Result<Scanner, AllocError>
        ensures { IfOk result (λ scanner. scanner ≡ []) }
    {
        Ok(Scanner {
            parser: Parser::new(alloc)?,
            last: None,
        })
    }

    /// Reads the token that begins at the place `from` of `text`, and returns its end; `None` at the text's end.
    /// `from` must be in the text or at its end. After an error, the scanner holds no token.
    ///
    /// # Errors
    /// The first fault of `text`, if everything before `from` is tokens.
    pub fn next(&mut self, text: &[u8], from: usize) -> Result<Option<usize>, TextFault>
        requires { from ≤ length text.now }
        ensures token { IfOk result (λ found. IfSome found (λ end. IsTokenAt text.now from end self.new)) }
        ensures end { IfOk result (λ found. found ≡ None → from ≡ length text.now) }
        ensures fault { IfErr result (λ e. (tokens : List (List ℕ)) → Begins text.now tokens (drop from text.now) →
            HasFault text.now e) }
    {
        self.last = None;
        self.parser.clear();
        match read(&mut self.parser, text, from) {
            Ok(Some(ending)) => {
                self.last = ending.last;
                Ok(Some(ending.end))
            }
            Ok(None) => Ok(None),
            Err(fault) => Err(fault),
        }
    }

    /// The function of the token read last.
    pub fn function(&self) -> Function<'_>
        ensures { result ≡ function_of self.now }
    {
        match self.last {
            Some(last) => self.parser.function(last),
            None => Function::Ignored,
        }
    }

    /// The parts of the token read last that determine its function: how far it had been read before its last byte,
    /// and its numbers.
    pub(crate) fn parts(&self) -> (Option<ParserState>, &[Option<u16>])
        ensures { IsTold result.0 result.1.now self.now }
    {
        let (stage, numbers) = self.parser.parts();
        match self.last {
            Some(_) => (Some(stage), numbers),
            None => (None, numbers),
        }
    }
}

/// Reads the token that begins at the place `from`; `None` at the text's end.
fn read(parser: &mut Parser, text: &[u8], from: usize) -> Result<Option<Ending>, TextFault>
    requires within { from ≤ length text.now }
    requires nothing { parser.old ≡ [] }
    ensures token { IfOk result (λ found.
        IfSome found (λ ending. IsRead text.now from ending.end ending.last parser.new)) }
    ensures end { IfOk result (λ found. found ≡ None → from ≡ length text.now) }
    ensures fault { IfErr result (HasFaultFrom text.now from) }
    ensures begun { IsOpen parser.new }
{
    for at in from..text.len() {
        let byte = text[at];
        match parser.transition(byte) {
            Transition::Opens => parser.open(byte),
            Transition::Ends => return Ok(Some(ended_by(byte, at))),
            Transition::Restarts | Transition::Cancels => return Ok(Some(cut_at(at))),
            Transition::Fails => return Err(stuck(at)),
        }
    }
    if from < text.len() {
        Err(unfinished(from))
    } else {
        Ok(None)
    }
}

/// The end of a token whose last byte is at the place `at`.
fn ended_by(last: u8, at: usize) -> Ending
    requires { at + 1 ≤ 18446744073709551615 }
    ensures { result ≡ record { end = at + 1; last = Some last } }
{
    Ending {
        end: at + 1,
        last: Some(last),
    }
}

/// The end of a sequence that the byte at the place `at` cuts off.
fn cut_at(at: usize) -> Ending
    ensures { result ≡ record { end = at; last = None } }
{
    Ending {
        end: at,
        last: None,
    }
}

fn stuck(at: usize) -> TextFault
    ensures { result ≡ record { at = at; kind = TextFaultKind.Stuck } }
{
    TextFault {
        at,
        kind: TextFaultKind::Stuck,
    }
}

fn unfinished(at: usize) -> TextFault
    ensures { result ≡ record { at = at; kind = TextFaultKind.Unfinished } }
{
    TextFault {
        at,
        kind: TextFaultKind::Unfinished,
    }
}
