//! The stack of an expansion.
use crate::code::{Operator, Unary};
use crate::fault::ParmFault;
use crate::operators::{apply_unary, operate};
use crate::param::Param;
use smallvec::SmallVec;
use std::alloc::{AllocError, Global};
use std::marker::Model;

/// The stack of values. Contracts see it as a list, the top first.
#[derive(Drop)]
pub struct Stack<'a> {
    values: SmallVec<Param<'a>, 16>,
}

impl<'a> Model for Stack<'a> {
    ghost use Rattle.std.specs.Prelude.{reverse};
    ghost use Rattle.ti_parm.specs.Value.{Values, values_of};

    ghost Value = { Values };

    ghost view = { λ s. reverse (values_of s.values.items) };
}

impl<'a> Stack<'a> {
    ghost use Rattle.std.specs.Prelude.{◌≡◌, [], ◌∷◌, OnOk, OnErr, Ok, MatchOption};
    ghost use Rattle.ti_parm.specs.{Fault.{Answers, Gives}, Operators.{binary, pop_number, text_length, unary}};
    ghost use Rattle.ti_parm.specs.Value.{Number, value_of};

    /// The empty stack.
    pub fn new(alloc: Global) -> Self
        ensures { result ≡ [] }
    {
        Stack {
            values: SmallVec::new(alloc),
        }
    }

    /// Pushes a value.
    pub fn push(&mut self, value: Param<'a>) -> Result<(), AllocError>
        ensures ok { OnOk result (self.new ≡ value_of value.entry ∷ self.old) }
        ensures err { OnErr result (self.new ≡ self.old) }
    {
        self.values.push(value)?;
        Ok(())
    }

    /// Pops the top value, if there is one.
    pub fn pop(&mut self) -> Option<Param<'a>>
        ensures { MatchOption result ((self.old ≡ []) × (self.new ≡ [])) (λ top. self.old ≡ value_of top ∷ self.new) }
    {
        self.values.pop()
    }

    /// Pushes a number.
    pub fn push_number(&mut self, number: i32) -> Result<(), ParmFault>
        ensures { Gives (λ _. self.new) result (Ok (Number number ∷ self.old)) }
    {
        self.push(Param::Number(number))
            .map_err(|_| ParmFault::NoMemory)
    }

    /// Pops a number.
    pub fn pop_number(&mut self) -> Result<i32, ParmFault>
        ensures { Answers (λ n. (n, self.new)) result (pop_number self.old) }
    {
        match self.pop() {
            Some(Param::Number(number)) => Ok(number),
            Some(Param::Text(_)) => Err(ParmFault::WrongKind),
            None => Err(ParmFault::Underflow),
        }
    }

    /// Replaces the two values on top by the operator's result.
    pub fn operate(&mut self, operator: Operator) -> Result<(), ParmFault>
        ensures { Gives (λ _. self.new) result (binary operator self.old) }
    {
        let (Some(right), Some(left)) = (self.pop(), self.pop()) else {
            return Err(ParmFault::Underflow);
        };
        match (left, right) {
            (Param::Number(left), Param::Number(right)) => {
                let number = operate(operator, left, right)?;
                self.push_number(number)
            }
            _ => Err(ParmFault::WrongKind),
        }
    }

    /// Replaces the number on top by the operator's result.
    pub fn change(&mut self, operator: Unary) -> Result<(), ParmFault>
        ensures { Gives (λ _. self.new) result (unary operator self.old) }
    {
        let number = self.pop_number()?;
        self.push_number(apply_unary(operator, number))
    }

    /// Replaces the text on top by its length.
    pub fn measure(&mut self) -> Result<(), ParmFault>
        ensures { Gives (λ _. self.new) result (text_length self.old) }
    {
        match self.pop() {
            Some(Param::Text(bytes)) => {
                let length = i32::try_from(bytes.len()).map_err(|_| ParmFault::Overflow)?;
                self.push_number(length)
            }
            Some(Param::Number(_)) => Err(ParmFault::WrongKind),
            None => Err(ParmFault::Underflow),
        }
    }
}
