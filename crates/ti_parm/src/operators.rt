//! The results of operators.
ghost use Rattle.std.specs.Prelude.{◌≡◌};
ghost use Rattle.ti_parm.specs.{Fault.{Answers}, Operators.{byte_of, fitting, is_true, operate, truth, apply_unary}};

use crate::code::{Operator, Unary};
use crate::fault::ParmFault;

/// The truth value of a test: 1 if it holds, otherwise 0.
fn truth_of(holds: bool) -> i32
    ensures { result ≡ truth holds }
{
    if holds { 1 } else { 0 }
}

/// The result of a binary operator for its left and right operands.
pub fn operate(operator: Operator, left: i32, right: i32) -> Result<i32, ParmFault>
    ensures { Answers (λ n. n) result (operate operator left right) }
{
    match operator {
        Operator::Add => left.checked_add(right).ok_or(ParmFault::Overflow),
        Operator::Subtract => left.checked_sub(right).ok_or(ParmFault::Overflow),
        Operator::Multiply => left.checked_mul(right).ok_or(ParmFault::Overflow),
        Operator::Divide if right == 0 => Ok(0),
        Operator::Divide => left.checked_div(right).ok_or(ParmFault::Overflow),
        Operator::Remainder if right == 0 => Ok(0),
        Operator::Remainder => Ok(left.wrapping_rem(right)),
        Operator::BitAnd => Ok(left & right),
        Operator::BitOr => Ok(left | right),
        Operator::BitXor => Ok(left ^ right),
        Operator::Equal => Ok(truth_of(left == right)),
        Operator::Greater => Ok(truth_of(left > right)),
        Operator::Less => Ok(truth_of(left < right)),
        Operator::Both => Ok(truth_of(left != 0 && right != 0)),
        Operator::Either => Ok(truth_of(left != 0 || right != 0)),
    }
}

/// The result of a unary operator for its operand.
pub fn apply_unary(operator: Unary, number: i32) -> i32
    ensures { result ≡ apply_unary operator number }
{
    match operator {
        Unary::Not => truth_of(number == 0),
        Unary::Complement => !number,
    }
}

/// The byte that a number is written as: 128 for 0.
pub fn byte_of(number: i32) -> Result<u8, ParmFault>
    ensures { Answers (λ b. b) result (byte_of number) }
{
    match number {
        0 => Ok(128),
        1..=255 => Ok(number as u8),
        _ => Err(ParmFault::BadChar),
    }
}
