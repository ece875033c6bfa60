//! Splitting a text into its tokens.

ghost use Rattle.std.specs.Prelude.{◌≡◌, [], ◌∷◌, ◌++◌, IfOk, IfErr, OnOk, IfSome, ℕ, List};
ghost use Rattle.vt_term.specs.{Scanned.{HasFault}, Text.{Splits}, Function.{function_of}};
ghost use Rattle.vt_term.specs.{Run.{place_of, LeadsTo, Reaches}, Fault.{TellsFault}};

use crate::parser::{ParserState, ended};
use crate::scanners::{Scanner, TextFault, TextFaultKind};
use std::alloc::{AllocError, Global};
use std::error::Error;
use std::fmt;
use std::marker::Model;
use vt_screen::{Function, Size};

/// One token of a text, as its bytes.
#[derive(Drop)]
pub struct Token {
    bytes: Vec<u8>,
    /// How far the token was read before its last byte; `None` for a sequence that was cut off.
    stage: Option<ParserState>,
    numbers: Vec<Option<u16>>,
}

impl Model for Token {
    ghost use Rattle.std.specs.Prelude.{List, ℕ};
    ghost use Rattle.vt_term.specs.ParserStates.{IsTold};

    ghost Value = { List ℕ };

    ghost view = { λ t. t.bytes.items };

    ghost invariant = { λ t. IsTold t.stage t.numbers.items t.bytes.items };
}

impl Token {
    /// The token that `scanner` read last, whose bytes are `bytes`.
    fn read(alloc: Global, scanner: &Scanner, bytes: &[u8]) -> Result<Token, AllocError>
        requires { scanner.now ≡ bytes.now }
        ensures { IfOk result (λ token. token ≡ bytes.now) }
    {
        let (stage, numbers) = scanner.parts();
        Ok(Token {
            bytes: Vec::from_slice(alloc, bytes)?,
            stage,
            numbers: Vec::from_slice(alloc, numbers)?,
        })
    }

    /// The token's bytes, as in the text.
    pub fn bytes(&self) -> &[u8]
        ensures { result.now ≡ self.now }
    {
        &self.bytes
    }

    /// The function that the token asks for.
    pub fn function(&self) -> Function<'_>
        ensures { result ≡ function_of self.now }
    {
        match (self.stage, self.bytes.as_slice()) {
            (Some(stage), [.., last]) => ended(stage, &self.numbers, *last),
            _ => Function::Ignored,
        }
    }

    /// The place where the token leaves the cursor of every terminal of this size, whatever its state: the one that
    /// CUP names; `None` for all other tokens.
    pub fn place(&self, size: Size) -> Option<(usize, usize)>
        ensures value { result ≡ place_of size.rows size.cols self.now }
        ensures leads { IfSome result (λ place. LeadsTo size.rows size.cols self.now place.0 place.1) }
    {
        match self.function() {
            Function::CursorPosition(row, col) => Some((
                (row as usize).saturating_sub(1).min(size.rows - 1),
                (col as usize).saturating_sub(1).min(size.cols - 1),
            )),
            _ => None,
        }
    }
}

/// The place where a text of these tokens leaves the cursor from every state at rest, if the last token determines
/// it.
pub fn place_after(tokens: &[Token], size: Size) -> Option<(usize, usize)>
    ensures leads { IfSome result (λ place. (bytes : List ℕ) → Splits bytes tokens.now [] →
        Reaches size.rows size.cols bytes place.0 place.1) }
    ensures last { (front : List (List ℕ)) (token : List ℕ) → tokens.now ≡ front ++ token ∷ [] →
        result ≡ place_of size.rows size.cols token }
    ensures empty { tokens.now ≡ [] → result ≡ None }
{
    match tokens {
        [.., last] => last.place(size),
        [] => None,
    }
}

/// The reason why a text isn't a concatenation of tokens.
#[derive(Clone, Copy, Debug, PartialEq, Eq)]
pub enum TokenFaultKind {
    /// The sequence that begins at the place isn't whole at the text's end.
    Unfinished,
    /// The byte at the place can neither continue nor begin a token.
    Stuck,
    /// Out of memory.
    NoMemory,
}

/// The first fault of a text, and its place.
#[derive(Clone, Copy, Debug, PartialEq, Eq)]
pub struct TokenFault {
    pub at: usize,
    pub kind: TokenFaultKind,
}

/// Out of memory; the place means nothing.
const REFUSED: TokenFault = TokenFault {
    at: 0,
    kind: TokenFaultKind::NoMemory,
};

impl fmt::Display for TokenFault {
    fn fmt<W: fmt::Write>(&self, f: &mut fmt::Formatter<W>) -> fmt::Result {
        let at = self.at;
        match self.kind {
            TokenFaultKind::Unfinished => write!(f, "Unfinished {at}"),
            TokenFaultKind::Stuck => write!(f, "Stuck {at}"),
            TokenFaultKind::NoMemory => write!(f, "NoMemory"),
        }
    }
}

impl Error for TokenFault {}

/// The text's fault as a `TokenFault`, which can also say that memory ran out.
fn told(fault: TextFault) -> TokenFault
    ensures { (text : List ℕ) → HasFault text fault → TellsFault text result }
{
    TokenFault {
        at: fault.at,
        kind: match fault.kind {
            TextFaultKind::Unfinished => TokenFaultKind::Unfinished,
            TextFaultKind::Stuck => TokenFaultKind::Stuck,
        },
    }
}

/// The tokens of a whole text. Fails with the text's first fault, or when out of memory.
pub fn tokens(alloc: Global, bytes: &[u8]) -> Result<Vec<Token>, TokenFault>
    ensures whole { IfOk result (λ ts. Splits bytes.now ts.items []) }
    ensures fault { IfErr result (λ e. TellsFault bytes.now e) }
{
    let mut scanner = Scanner::new(alloc).map_err(|_| REFUSED)?;
    let mut found = Vec::new(alloc);
    let mut start = 0;
    loop {
        match scanner.next(bytes, start) {
            Ok(Some(end)) => {
                push_read(alloc, &mut found, &scanner, &bytes[start..end])?;
                start = end;
            }
            Ok(None) => return Ok(found),
            Err(fault) => return Err(told(fault)),
        }
    }
}

/// Adds the token that `scanner` read last, whose bytes are `bytes`.
fn push_read(
    alloc: Global,
    found: &mut Vec<Token>,
    scanner: &Scanner,
    bytes: &[u8],
) -> Result<(), TokenFault>
    requires { scanner.now ≡ bytes.now }
    ensures ok { OnOk result (found.new.items ≡ found.old.items ++ bytes.now ∷ []) }
    ensures fault { IfErr result (λ e. e.kind ≡ TokenFaultKind.NoMemory) }
{
    let token = Token::read(alloc, scanner, bytes).map_err(|_| REFUSED)?;
    found.push(token).map_err(|_| REFUSED)
}
