//! The codes of a parameter string, one at a time.
ghost use Rattle.std.specs.Prelude.{◌≡◌, ◌<◌, ◌≤◌, IfOk, IfSome, Ok, length};
ghost use Rattle.ti_parm.specs.Codes.{character_code, code_at, format_code, number_code, parameter_code, percent_code};
ghost use Rattle.ti_parm.specs.{Codes.{short_code, variable, variable_code}, Fault.{Answers}};

use crate::fault::ParmFault;
use crate::formats::{Format, PLAIN, format_ahead};
use crate::number::{LARGEST, number};

/// The effect of a code that acts by itself.
#[derive(Clone, Copy, Debug, PartialEq, Eq)]
pub enum Action {
    /// Writes a byte.
    Literal(u8),
    /// Pushes a number.
    Push(i32),
    /// Pushes the parameter at an index from 0 on.
    Parameter(u8),
    /// Takes a number and puts it into a variable.
    Set(Variable),
    /// Pushes a variable.
    Get(Variable),
    /// Takes two numbers and pushes the operator's result.
    Operate(Operator),
    /// Takes a number and pushes the operator's result.
    Change(Unary),
    /// Takes a text and pushes its length.
    Length,
    /// Adds one to the first two parameters.
    Increment,
    /// Writes a number as one byte.
    Character,
    /// Writes a value in a format.
    Show(Format),
}

/// A variable, by its letter's place in the alphabet from 0 on.
#[derive(Clone, Copy, Debug, PartialEq, Eq)]
pub enum Variable {
    /// `a` to `z`, 0 at the start of each expansion.
    Dynamic(u8),
    /// `A` to `Z`, which keep their values from one expansion to the next.
    Static(u8),
}

/// An operator of two operands.
#[derive(Clone, Copy, Debug, PartialEq, Eq)]
pub enum Operator {
    /// `%+`
    Add,
    /// `%-`
    Subtract,
    /// `%*`
    Multiply,
    /// `%/`, cut toward zero
    Divide,
    /// `%m`, with the left operand's sign
    Remainder,
    /// `%&`
    BitAnd,
    /// `%|`
    BitOr,
    /// `%^`
    BitXor,
    /// `%=`
    Equal,
    /// `%>`
    Greater,
    /// `%<`
    Less,
    /// `%A`: neither is 0
    Both,
    /// `%O`: at least one isn't 0
    Either,
}

/// An operator of one operand.
#[derive(Clone, Copy, Debug, PartialEq, Eq)]
pub enum Unary {
    /// `%!`: whether it is 0
    Not,
    /// `%~`: each bit inverted
    Complement,
}

/// A mark of a conditional after its `%?`.
#[derive(Clone, Copy, Debug, PartialEq, Eq)]
pub enum Mark {
    /// `%t`, after a condition.
    Then,
    /// `%e`, after the parts to run if the condition holds.
    Else,
    /// `%;`, after everything.
    End,
}

/// A code.
#[derive(Clone, Copy, Debug, PartialEq, Eq)]
pub enum Code {
    /// A code that acts by itself.
    Act(Action),
    /// `%?`, which begins a conditional.
    If,
    /// A mark of the innermost open conditional.
    Of(Mark),
}

/// Reads the code after its `%{`.
#[inline(always)]
fn number_behind(text: &[u8]) -> Result<(Code, &[u8]), ParmFault>
    ensures code { Answers (λ x. (x.0, x.1.now)) result (number_code text.now) }
    ensures within { IfOk result (λ x. length x.1.now ≤ length text.now) }
{
    let [b'0'..=b'9', ..] = text else {
        return Err(ParmFault::BadCode);
    };
    match number(text) {
        (value, [b'}', rest @ ..]) if value <= LARGEST => Ok((
            Code::Act(Action::Push(value as i32)),
            rest,
        )),
        _ => Err(ParmFault::BadCode),
    }
}

/// The variable with this letter.
#[inline(always)]
fn variable_of(letter: u8) -> Option<Variable>
    ensures { result ≡ variable letter }
{
    match letter {
        b'a'..=b'z' => Some(Variable::Dynamic(letter - b'a')),
        b'A'..=b'Z' => Some(Variable::Static(letter - b'A')),
        _ => None,
    }
}

/// The variable whose letter `text` begins with, and the rest.
#[inline(always)]
fn variable_ahead(text: &[u8]) -> Result<(Variable, &[u8]), ParmFault>
    ensures variable { (f : Variable → Action) →
        Answers (λ x. (Code.Act (f x.0), x.1.now)) result (variable_code f text.now) }
    ensures within { IfOk result (λ x. length x.1.now ≤ length text.now) }
{
    let [letter, rest @ ..] = text else {
        return Err(ParmFault::BadCode);
    };
    match variable_of(*letter) {
        Some(variable) => Ok((variable, rest)),
        None => Err(ParmFault::BadCode),
    }
}

/// The code of `%` and `byte`, if these two are a whole code.
#[tactic(auto, unfolding(crate::specs::Codes::short_code))]
#[inline(always)]
fn short_of(byte: u8) -> Option<Code>
    ensures { result ≡ short_code byte }
{
    let code = match byte {
        b'%' => Code::Act(Action::Literal(b'%')),
        b'c' => Code::Act(Action::Character),
        b'l' => Code::Act(Action::Length),
        b'+' => Code::Act(Action::Operate(Operator::Add)),
        b'-' => Code::Act(Action::Operate(Operator::Subtract)),
        b'*' => Code::Act(Action::Operate(Operator::Multiply)),
        b'/' => Code::Act(Action::Operate(Operator::Divide)),
        b'm' => Code::Act(Action::Operate(Operator::Remainder)),
        b'&' => Code::Act(Action::Operate(Operator::BitAnd)),
        b'|' => Code::Act(Action::Operate(Operator::BitOr)),
        b'^' => Code::Act(Action::Operate(Operator::BitXor)),
        b'=' => Code::Act(Action::Operate(Operator::Equal)),
        b'>' => Code::Act(Action::Operate(Operator::Greater)),
        b'<' => Code::Act(Action::Operate(Operator::Less)),
        b'A' => Code::Act(Action::Operate(Operator::Both)),
        b'O' => Code::Act(Action::Operate(Operator::Either)),
        b'!' => Code::Act(Action::Change(Unary::Not)),
        b'~' => Code::Act(Action::Change(Unary::Complement)),
        b'i' => Code::Act(Action::Increment),
        b'?' => Code::If,
        b't' => Code::Of(Mark::Then),
        b'e' => Code::Of(Mark::Else),
        b';' => Code::Of(Mark::End),
        _ => return None,
    };
    Some(code)
}

/// Reads the code after its `%p`.
#[inline(always)]
fn parameter_behind(text: &[u8]) -> Result<(Code, &[u8]), ParmFault>
    ensures code { Answers (λ x. (x.0, x.1.now)) result (parameter_code text.now) }
    ensures within { IfOk result (λ x. length x.1.now ≤ length text.now) }
{
    match text {
        [digit @ b'1'..=b'9', rest @ ..] => Ok((Code::Act(Action::Parameter(*digit - b'1')), rest)),
        _ => Err(ParmFault::BadCode),
    }
}

/// Reads the code after its `%'`.
#[inline(always)]
fn character_behind(text: &[u8]) -> Result<(Code, &[u8]), ParmFault>
    ensures code { Answers (λ x. (x.0, x.1.now)) result (character_code text.now) }
    ensures within { IfOk result (λ x. length x.1.now ≤ length text.now) }
{
    match text {
        [byte, b'\'', rest @ ..] => Ok((Code::Act(Action::Push(i32::from(*byte))), rest)),
        _ => Err(ParmFault::BadCode),
    }
}

/// Reads the code after its `%`.
#[inline(always)]
fn behind_percent(text: &[u8]) -> Result<(Code, &[u8]), ParmFault>
    ensures code { Answers (λ x. (x.0, x.1.now)) result (percent_code text.now) }
    ensures within { IfOk result (λ x. length x.1.now ≤ length text.now) }
{
    match text {
        [b'p', rest @ ..] => parameter_behind(rest),
        [b'P', rest @ ..] => {
            let (variable, behind) = variable_ahead(rest)?;
            Ok((Code::Act(Action::Set(variable)), behind))
        }
        [b'g', rest @ ..] => {
            let (variable, behind) = variable_ahead(rest)?;
            Ok((Code::Act(Action::Get(variable)), behind))
        }
        [b'\'', rest @ ..] => character_behind(rest),
        [b'{', rest @ ..] => number_behind(rest),
        [b'd', rest @ ..] => Ok((Code::Act(Action::Show(PLAIN)), rest)),
        [b':', rest @ ..] => format_behind(rest),
        [] => Err(ParmFault::BadCode),
        [byte, rest @ ..] => match short_of(*byte) {
            Some(code) => Ok((code, rest)),
            None => format_behind(text),
        },
    }
}

/// Reads a format after its `%` and `:`.
#[inline(always)]
fn format_behind(text: &[u8]) -> Result<(Code, &[u8]), ParmFault>
    ensures code { Answers (λ x. (x.0, x.1.now)) result (format_code text.now) }
    ensures shorter { IfOk result (λ x. length x.1.now < length text.now) }
{
    let (format, rest) = format_ahead(text)?;
    Ok((Code::Act(Action::Show(format)), rest))
}

/// The first code of `text`, which must not be empty, and the rest. Fails with `BadCode` if there is no code.
#[tactic(auto, unfolding(crate::specs::Codes::code_at))]
#[inline(always)]
pub fn next_code(text: &[u8]) -> Result<(Code, &[u8]), ParmFault>
    requires { 0 < length text.now }
    ensures code { Answers (λ x. (x.0, x.1.now)) result (code_at text.now) }
    ensures shorter { IfOk result (λ x. length x.1.now < length text.now) }
{
    match text {
        [b'%', rest @ ..] => behind_percent(rest),
        [byte, rest @ ..] => Ok((Code::Act(Action::Literal(*byte)), rest)),
        [] => Err(ParmFault::BadCode),
    }
}

/// The first code of `text` and the rest, if it is one that nearly all strings have: a byte to write, a parameter, or
/// `%?`, `%t` or `%;`. The compiler makes no value of type `Code` for these.
#[tactic(auto, unfolding(crate::specs::Codes::code_at))]
#[inline(always)]
pub fn frequent_code(text: &[u8]) -> Option<(Code, &[u8])>
    ensures code { IfSome result (λ x. code_at text.now ≡ Ok (x.0, x.1.now)) }
    ensures shorter { IfSome result (λ x. length x.1.now < length text.now) }
{
    match text {
        [b'%', b'p', digit @ b'1'..=b'9', rest @ ..] => {
            Some((Code::Act(Action::Parameter(*digit - b'1')), rest))
        }
        [b'%', b'?', rest @ ..] => Some((Code::If, rest)),
        [b'%', b't', rest @ ..] => Some((Code::Of(Mark::Then), rest)),
        [b'%', b';', rest @ ..] => Some((Code::Of(Mark::End), rest)),
        [b'%', ..] | [] => None,
        [byte, rest @ ..] => Some((Code::Act(Action::Literal(*byte)), rest)),
    }
}
