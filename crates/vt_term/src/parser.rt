//! The parser: the effect of each byte on an open sequence, and the function that a finished one names.

ghost use Rattle.std.specs.Prelude.{◌≡◌, ℕ, ◌+◌, ◌-◌, ◌*◌, ◌<◌, ◌≤◌, min, true, false, List, [], ◌∷◌, ◌++◌, length};
ghost use Rattle.std.specs.{Prelude.{IfOk, Option, vec_capacity}, Option.{unwrap_or}};
ghost use Rattle.vt_term.specs.{Text.{IsOpen, IsWhole, Cuts}, Function.{function_of}};
ghost use Rattle.vt_term.specs.Parameters as spec;
ghost use Rattle.vt_term.specs.Fault.{IsTransition, IsOutsideTransition, IsIntroducerTransition, IsEscapeTransition};
ghost use Rattle.vt_term.specs.{Fault.{IsInsideTransition}, ParserStates.{IsAt, NamesNothing}};

use crate::functions::{designation, escape_final, of_numbers, of_private_numbers, single};
use crate::open_bytes::OpenBytes;
use std::alloc::{AllocError, Global};
use std::marker::Model;
use vt_screen::{CodeElement, Function};

pub(crate) const ESCAPE: u8 = 27;

const CANCEL: u8 = 24;

const SUBSTITUTE: u8 = 26;

/// The greatest length of a sequence in bytes.
pub(crate) const SEQUENCE_LIMIT: usize = 256;

/// The effect of a byte after an open sequence, or after nothing.
pub(crate) enum Transition {
    /// The sequence stays open.
    Opens,
    /// The token is whole.
    Ends,
    /// The open sequence is dropped, and the byte begins another.
    Restarts,
    /// The open sequence is dropped, and the byte is a control.
    Cancels,
    Fails,
}

/// How far a sequence has been read.
#[derive(Clone, Copy)]
pub(crate) enum ParserState {
    /// Outside sequences.
    Outside,
    /// After ESC.
    Escape,
    /// After ESC `(`.
    DesignatesG0,
    /// After ESC `)`.
    DesignatesG1,
    /// After ESC and other intermediate bytes.
    Intermediate,
    /// After ESC `[`.
    Introduced,
    /// After ESC `[` with digits and semicolons.
    Parameters,
    /// After ESC `[?`, alone or with digits and semicolons.
    PrivateParameters,
    /// After ESC `[` with other parameter bytes.
    OtherParameters,
    /// After ESC `[` with intermediate bytes.
    Closed,
}

/// The part of a sequence read so far, kept as its meaning for the bytes to come.
#[derive(Drop)]
pub(crate) struct Parser {
    stage: ParserState,
    /// The numbers of a control sequence so far; the last one is still being read.
    numbers: Vec<Option<u16>>,
    count: usize,
    open_bytes: OpenBytes,
}

impl Model for Parser {
    ghost use Rattle.std.specs.Prelude.{List, ℕ, vec_capacity};
    ghost use Rattle.vt_term.specs.ParserStates.{IsParsing};

    ghost Value = { List ℕ };

    ghost view = { λ r. r.open_bytes.bytes };

    ghost invariant = { λ r. IsParsing r.stage r.numbers.items r.count (vec_capacity r.numbers) r.open_bytes.bytes };
}

impl Parser {
    /// A parser with nothing open. It allocates all the memory that it will need; fails only when out of memory.
    pub(crate) fn new(alloc: Global) -> Result<Parser, AllocError>
        ensures { IfOk result (λ parser. parser ≡ []) }
    {
        Ok(Parser {
            stage: ParserState::Outside,
            numbers: Vec::with_capacity(alloc, SEQUENCE_LIMIT)?,
            count: 0,
            open_bytes: OpenBytes::new(),
        })
    }

    /// The effect of a byte after the open sequence, or outside sequences if nothing is open.
    pub(crate) fn transition(&self, byte: u8) -> Transition
        ensures transition { IsTransition self.now byte result }
        ensures begun { IsOpen self.now }
    {
        match self.stage {
            ParserState::Outside => transition_outside(byte),
            _ => match byte {
                ESCAPE => Transition::Restarts,
                CANCEL | SUBSTITUTE => Transition::Cancels,
                _ => self.transition_open(byte),
            },
        }
    }

    /// The effect of a byte that doesn't cut off the open sequence.
    fn transition_open(&self, byte: u8) -> Transition
        requires some { 0 < length self.now }
        requires goes_on { Cuts byte → ⊥ }
        ensures { IsTransition self.now byte result }
    {
        let has_room = self.count + 1 < SEQUENCE_LIMIT;
        match self.stage {
            ParserState::Outside => Transition::Fails,
            ParserState::Escape => transition_introducer(byte),
            ParserState::DesignatesG0 | ParserState::DesignatesG1 | ParserState::Intermediate => {
                transition_escape(byte, has_room)
            }
            ParserState::Closed => transition_inside(true, byte, has_room),
            ParserState::Introduced
            | ParserState::Parameters
            | ParserState::PrivateParameters
            | ParserState::OtherParameters => transition_inside(false, byte, has_room),
        }
    }

    /// Takes a byte that leaves the sequence open.
    pub(crate) fn open(&mut self, byte: u8)
        requires { IsOpen (self.old ++ byte ∷ []) }
        ensures { self.new ≡ self.old ++ byte ∷ [] }
    {
        self.stage = behind(self.stage, &mut self.numbers, byte);
        self.count += 1;
        self.open_bytes = self.open_bytes.then(&byte);
    }

    /// Whether nothing is open.
    pub(crate) fn is_outside(&self) -> bool
        ensures nothing { result ≡ true → self.now ≡ [] }
        ensures begun { IsOpen self.now }
    {
        matches!(self.stage, ParserState::Outside)
    }

    /// Drops the open sequence, if there is one.
    pub(crate) fn clear(&mut self)
        ensures { self.new ≡ [] }
    {
        self.stage = ParserState::Outside;
        self.numbers.clear();
        self.count = 0;
        self.open_bytes = OpenBytes::new();
    }

    /// The function of the token that ends with `byte`.
    pub(crate) fn function(&self, byte: u8) -> Function<'_>
        requires { IsWhole (self.now ++ byte ∷ []) }
        ensures { result ≡ function_of (self.now ++ byte ∷ []) }
    {
        ended(self.stage, &self.numbers, byte)
    }

    /// How far the sequence has been read, and its numbers so far.
    pub(crate) fn parts(&self) -> (ParserState, &[Option<u16>])
        ensures { IsAt result.0 result.1.now self.now }
    {
        (self.stage, &self.numbers)
    }
}

/// The function of the token that ends with `byte`, after `stage` and these numbers.
pub(crate) fn ended(stage: ParserState, numbers: &[Option<u16>], byte: u8) -> Function<'_>
    ensures { (begun : List ℕ) → IsAt stage numbers.now begun → IsWhole (begun ++ byte ∷ []) →
        result ≡ function_of (begun ++ byte ∷ []) }
{
    match stage {
        ParserState::Outside => single(byte),
        ParserState::Escape => escape_final(byte),
        ParserState::DesignatesG0 => designation(CodeElement::G0, byte),
        ParserState::DesignatesG1 => designation(CodeElement::G1, byte),
        ParserState::Introduced | ParserState::Parameters => of_numbers(byte, numbers),
        ParserState::PrivateParameters => of_private_numbers(byte, numbers),
        ParserState::Intermediate | ParserState::OtherParameters | ParserState::Closed =>
            Function::Ignored,
    }
}

fn transition_outside(byte: u8) -> Transition
    ensures { IsOutsideTransition byte result }
{
    match byte {
        ESCAPE => Transition::Opens,
        0..=127 => Transition::Ends,
        _ => Transition::Fails,
    }
}

fn transition_introducer(byte: u8) -> Transition
    ensures { IsIntroducerTransition byte result }
{
    match byte {
        b'[' | 0x20..=0x2f => Transition::Opens,
        b'P' | b'X' | b']' | b'^' | b'_' => Transition::Fails,
        0x30..=0x7e => Transition::Ends,
        _ => Transition::Fails,
    }
}

/// The effect of a byte after ESC and intermediate bytes.
fn transition_escape(byte: u8, has_room: bool) -> Transition
    ensures { IsEscapeTransition byte has_room result }
{
    match byte {
        0x30..=0x7e => Transition::Ends,
        0x20..=0x2f if has_room => Transition::Opens,
        _ => Transition::Fails,
    }
}

/// The effect of a byte in a control sequence; `closed` says whether it has intermediate bytes.
fn transition_inside(closed: bool, byte: u8, has_room: bool) -> Transition
    ensures { IsInsideTransition closed byte has_room result }
{
    match byte {
        0x40..=0x7e => Transition::Ends,
        0x20..=0x2f if has_room => Transition::Opens,
        0x30..=0x3f if has_room && !closed => Transition::Opens,
        _ => Transition::Fails,
    }
}

/// The stage and the numbers after one more byte that leaves the sequence open.
fn behind(stage: ParserState, numbers: &mut Vec<Option<u16>>, byte: u8) -> ParserState
    requires { length numbers.old.items < vec_capacity numbers.old }
    ensures at { (begun : List ℕ) → IsAt stage numbers.old.items begun → IsOpen (begun ++ byte ∷ []) →
        IsAt result numbers.new.items (begun ++ byte ∷ []) }
    ensures few { length numbers.new.items ≤ length numbers.old.items + 1 }
    ensures room { vec_capacity numbers.old ≤ vec_capacity numbers.new }
{
    match stage {
        ParserState::Outside => ParserState::Escape,
        ParserState::Escape => behind_escape(numbers, byte),
        ParserState::DesignatesG0 | ParserState::DesignatesG1 | ParserState::Intermediate =>
            ParserState::Intermediate,
        ParserState::Introduced if byte == b'?' => ParserState::PrivateParameters,
        ParserState::Introduced => behind_number(ParserState::Parameters, numbers, byte),
        ParserState::Parameters => behind_number(ParserState::Parameters, numbers, byte),
        ParserState::PrivateParameters => behind_number(
            ParserState::PrivateParameters,
            numbers,
            byte,
        ),
        ParserState::OtherParameters | ParserState::Closed => unnamed(byte),
    }
}

/// The stage after ESC and a byte that doesn't end the sequence.
fn behind_escape(numbers: &mut Vec<Option<u16>>, byte: u8) -> ParserState
    requires { length numbers.old.items < vec_capacity numbers.old }
    ensures at { IsAt result numbers.new.items (27 ∷ byte ∷ []) }
    ensures few { length numbers.new.items ≤ length numbers.old.items + 1 }
    ensures room { vec_capacity numbers.old ≤ vec_capacity numbers.new }
{
    match byte {
        b'[' => {
            numbers.clear();
            numbers.push(None).unwrap();
            ParserState::Introduced
        }
        b'(' => ParserState::DesignatesG0,
        b')' => ParserState::DesignatesG1,
        _ => ParserState::Intermediate,
    }
}

/// The stage after numbers and one more byte: `stage` if the byte belongs to the numbers.
fn behind_number(stage: ParserState, numbers: &mut Vec<Option<u16>>, byte: u8) -> ParserState
    requires { length numbers.old.items < vec_capacity numbers.old }
    ensures stage { spec.is_numeral byte ≡ true → result ≡ stage }
    ensures numbers { spec.is_numeral byte ≡ true → (front : List ℕ) → numbers.old.items ≡ spec.numbers front →
        numbers.new.items ≡ spec.numbers (front ++ byte ∷ []) }
    ensures unnamed { spec.is_numeral byte ≡ false → (begun : List ℕ) → NamesNothing (begun ++ byte ∷ []) →
        IsAt result numbers.new.items (begun ++ byte ∷ []) }
    ensures few { length numbers.new.items ≤ length numbers.old.items + 1 }
    ensures room { vec_capacity numbers.old ≤ vec_capacity numbers.new }
{
    if is_numeral(byte) {
        read_numeral(numbers, byte);
        stage
    } else {
        unnamed(byte)
    }
}

/// The stage after a byte of a control sequence that names no function.
fn unnamed(byte: u8) -> ParserState
    ensures { (begun : List ℕ) (numbers : List (Option ℕ)) → NamesNothing (begun ++ byte ∷ []) →
        IsAt result numbers (begun ++ byte ∷ []) }
{
    match byte {
        0x20..=0x2f => ParserState::Closed,
        _ => ParserState::OtherParameters,
    }
}

/// Adds a digit or a semicolon to the numbers.
fn read_numeral(numbers: &mut Vec<Option<u16>>, byte: u8)
    requires numeral { spec.is_numeral byte ≡ true }
    requires room { length numbers.old.items < vec_capacity numbers.old }
    ensures numbers { (front : List ℕ) → numbers.old.items ≡ spec.numbers front →
        numbers.new.items ≡ spec.numbers (front ++ byte ∷ []) }
    ensures few { length numbers.new.items ≤ length numbers.old.items + 1 }
    ensures room { vec_capacity numbers.old ≤ vec_capacity numbers.new }
{
    if byte == b';' {
        numbers.push(None).unwrap();
    } else {
        let number = numbers.pop().unwrap_or(None);
        numbers.push(Some(with_digit(number, byte))).unwrap();
    }
}

/// The number with one more digit, at most 65535.
pub(crate) fn with_digit(number: Option<u16>, digit: u8) -> u16
    requires low { 48 ≤ digit }
    requires high { digit ≤ 57 }
    ensures { result ≡ min 65535 (10 * unwrap_or number 0 + (digit - 48)) }
{
    let longer = u32::from(number.unwrap_or(0)) * 10 + u32::from(digit - b'0');
    longer.min(u32::from(u16::MAX)) as u16
}

/// Whether `byte` is a digit or a semicolon.
fn is_numeral(byte: u8) -> bool
    ensures { result ≡ spec.is_numeral byte }
{
    byte.is_ascii_digit() || byte == b';'
}
