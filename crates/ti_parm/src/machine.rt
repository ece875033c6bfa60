//! The state of a run, and the effect of each code on it.
ghost use Rattle.std.specs.Prelude.{◌≡◌, ◌↔◌, ℕ, List, [], ◌<◌, ◌≤◌, IfErr, IfOk, IsTrue, length, pos, slice_index_or};
ghost use Rattle.std.specs.Prelude.{slice_set};
ghost use Rattle.ti_parm.specs.{Fault.{Answers, Extends, FailsBy, Gives}, Value.{nine, values_of, value_of, zeros}};
ghost use Rattle.ti_parm.specs.Meaning.{ReadsUnset, act, character, one_more, pop_test, start_of, writing};
ghost use Rattle.ti_parm.specs.{Formats.{shown}, Machine.{state_of}, Conditionals.{judged}};
ghost use Rattle.ti_parm.specs.{Runs.{judged_ahead, judged_behind, run_ahead}, Syntax.{HasEnd, ahead, before}};

use crate::code::{Action, Code, Mark, Variable, frequent_code, next_code};
use crate::fault::ParmFault;
use crate::formats::{Conversion, Format};
use crate::judge::first_fault;
use crate::nest::Nest;
use crate::operators::byte_of;
use crate::param::{Param, Params};
use crate::show::{write_number, write_text};
use crate::skip::skip;
use crate::stack::Stack;
use crate::statics::Statics;
use crate::uses::{FirstUse, note, reads_first};
use std::alloc::Global;

/// The parameters, variables and stack of a run. Callers pass the bytes written so far.
#[derive(Drop)]
pub struct Machine<'a> {
    params: Params<'a>,
    dynamics: [i32; 26],
    pub statics: [i32; 26],
    first_uses: [FirstUse; 26],
    stack: Stack<'a>,
}

/// A parameter plus one.
fn one_more(value: Param<'_>) -> Result<Param<'_>, ParmFault>
    ensures { Answers value_of result (one_more (value_of value.entry)) }
{
    match value {
        Param::Number(number) => match number.checked_add(1) {
            Some(more) => Ok(Param::Number(more)),
            None => Err(ParmFault::Overflow),
        },
        Param::Text(_) => Err(ParmFault::WrongKind),
    }
}

/// The number at `index`, 0 past the end.
fn number_at(numbers: &[i32; 26], index: u8) -> i32
    ensures { result ≡ slice_index_or numbers.now index (pos 0) }
{
    numbers.get(usize::from(index)).copied().unwrap_or(0)
}

/// Sets the number at `index`, if it exists.
fn put_at(numbers: &mut [i32; 26], index: u8, number: i32)
    ensures { numbers.new ≡ slice_set numbers.old index number }
{
    if index < 26 {
        numbers[usize::from(index)] = number;
    }
}

impl<'a> Machine<'a> {
    /// The state at the start of a run.
    #[tactic(auto, unfolding(crate::specs::Value::zeros))]
    #[inline(always)]
    pub fn new(alloc: Global, given: &'a [Param<'a>], statics: &Statics) -> Self
        ensures { state_of result [] ≡ start_of (values_of given.now) statics.now }
    {
        Machine {
            params: Params::new(given),
            dynamics: [0; 26],
            statics: statics.numbers(),
            first_uses: [FirstUse::Unused; 26],
            stack: Stack::new(alloc),
        }
    }

    /// Whether a static variable was read before it was set.
    pub fn reads_unset(&self) -> bool
        ensures { (output : List ℕ) → IsTrue result ↔ ReadsUnset (state_of self.now output) }
    {
        reads_first(&self.first_uses)
    }

    /// Runs the first code of `text`, which must not be empty, and returns the text to go on with. Checks the syntax on
    /// the way, and that of the whole rest if the run meets a fault.
    ///
    /// The codes that nearly all strings have come first, since the compiler leaves of `step` only what these need.
    #[inline(always)]
    pub fn advance<'s>(
        &mut self,
        text: &'s [u8],
        nest: &mut Nest,
        out: &mut Vec<u8>,
    ) -> Result<&'s [u8], ParmFault>
        requires { 0 < length text.now }
        ensures ok { IfOk result (λ rest. judged_ahead (ahead rest.now) nest.new (state_of self.new out.new.items) ≡
            judged_ahead (ahead text.now) nest.old (state_of self.old out.old.items)) }
        ensures fault { IfErr result (λ e.
            FailsBy e (judged_ahead (ahead text.now) nest.old (state_of self.old out.old.items))) }
        ensures shorter { IfOk result (λ rest. length rest.now < length text.now) }
        ensures grows { Extends out.old.items out.new.items }
    {
        if let Some((code, behind)) = frequent_code(text) {
            return self.step(code, behind, nest, out);
        }
        let (code, behind) = next_code(text)?;
        self.step(code, behind, nest, out)
    }

    /// Runs `code`, with the text `behind` after it, and returns the text to go on with. Checks the syntax on the
    /// way, and that of the whole rest if the run meets a fault.
    #[inline(always)]
    fn step<'s>(
        &mut self,
        code: Code,
        behind: &'s [u8],
        nest: &mut Nest,
        out: &mut Vec<u8>,
    ) -> Result<&'s [u8], ParmFault>
        ensures ok { IfOk result (λ rest. judged_ahead (ahead rest.now) nest.new (state_of self.new out.new.items) ≡
            judged_ahead (before code (ahead behind.now)) nest.old (state_of self.old out.old.items)) }
        ensures fault { IfErr result (λ e.
            FailsBy e (judged_ahead (before code (ahead behind.now)) nest.old (state_of self.old out.old.items))) }
        ensures within { IfOk result (λ rest. length rest.now ≤ length behind.now) }
        ensures grows { Extends out.old.items out.new.items }
    {
        match code {
            Code::Act(action) => match self.act(action, out) {
                Ok(()) => Ok(behind),
                Err(fault) => Err(first_fault(nest, behind, fault)),
            },
            Code::If => {
                nest.pass(code)?;
                Ok(behind)
            }
            Code::Of(mark) => {
                nest.pass(code)?;
                self.pass(mark, behind, nest)
            }
        }
    }

    /// The text to go on with after `mark`: `behind` it, or after the parts to skip.
    #[inline(always)]
    fn pass<'s>(
        &mut self,
        mark: Mark,
        behind: &'s [u8],
        nest: &mut Nest,
    ) -> Result<&'s [u8], ParmFault>
        ensures judged { IfOk result (λ rest. judged (ahead rest.now).behind nest.new ≡
            judged (ahead behind.now).behind nest.old) }
        ensures ok { IfOk result (λ rest. (output : List ℕ) → HasEnd (ahead behind.now).behind →
            run_ahead (ahead rest.now) (state_of self.new output) ≡
            run_ahead (before (Code.Of mark) (ahead behind.now)) (state_of self.old output)) }
        ensures fault { IfErr result (λ e. (output : List ℕ) →
            FailsBy e (judged_behind (judged (ahead behind.now).behind nest.old)
            (run_ahead (before (Code.Of mark) (ahead behind.now)) (state_of self.old output)))) }
        ensures within { IfOk result (λ rest. length rest.now ≤ length behind.now) }
    {
        match mark {
            Mark::Then => match self.pop_test() {
                Ok(true) => Ok(behind),
                Ok(false) => skip(nest, behind, true),
                Err(fault) => Err(first_fault(nest, behind, fault)),
            },
            Mark::Else => skip(nest, behind, false),
            Mark::End => Ok(behind),
        }
    }

    /// Pops a number, and returns whether it is other than 0.
    #[inline(always)]
    fn pop_test(&mut self) -> Result<bool, ParmFault>
        ensures { (output : List ℕ) →
            Gives (λ holds. (holds, state_of self.new output)) result
            (pop_test self.old.stack (state_of self.old output)) }
    {
        let number = self.stack.pop_number()?;
        Ok(number != 0)
    }

    /// Runs one code that acts by itself.
    #[tactic(auto, unfolding(crate::specs::Meaning::act))]
    #[inline(always)]
    fn act(&mut self, action: Action, out: &mut Vec<u8>) -> Result<(), ParmFault>
        ensures meant { Gives (λ _. state_of self.new out.new.items) result
            (act action (state_of self.old out.old.items)) }
        ensures grows { Extends out.old.items out.new.items }
    {
        match action {
            Action::Literal(byte) => out.push(byte).map_err(|_| ParmFault::NoMemory),
            Action::Push(number) => self.stack.push_number(number),
            Action::Parameter(index) => self
                .stack
                .push(self.params.get(index))
                .map_err(|_| ParmFault::NoMemory),
            Action::Set(variable) => self.set(variable),
            Action::Get(variable) => self.get(variable),
            Action::Operate(operator) => self.stack.operate(operator),
            Action::Change(turn) => self.stack.change(turn),
            Action::Length => self.stack.measure(),
            Action::Increment => self.increment(),
            Action::Character => self.write_character(out),
            Action::Show(format) => self.show(format, out),
        }
    }

    /// Pushes a variable.
    #[tactic(auto, unfolding(crate::specs::Meaning::act))]
    fn get(&mut self, variable: Variable) -> Result<(), ParmFault>
        ensures { (output : List ℕ) →
            Gives (λ _. state_of self.new output) result (act (Action.Get variable) (state_of self.old output)) }
    {
        match variable {
            Variable::Dynamic(index) => self.stack.push_number(number_at(&self.dynamics, index)),
            Variable::Static(index) => {
                note(&mut self.first_uses, index, FirstUse::ReadFirst);
                self.stack.push_number(number_at(&self.statics, index))
            }
        }
    }

    /// Takes a number and puts it into a variable.
    #[tactic(auto, unfolding(crate::specs::Meaning::act))]
    fn set(&mut self, variable: Variable) -> Result<(), ParmFault>
        ensures { (output : List ℕ) →
            Gives (λ _. state_of self.new output) result (act (Action.Set variable) (state_of self.old output)) }
    {
        let number = self.stack.pop_number()?;
        match variable {
            Variable::Dynamic(index) => put_at(&mut self.dynamics, index, number),
            Variable::Static(index) => {
                put_at(&mut self.statics, index, number);
                note(&mut self.first_uses, index, FirstUse::SetFirst);
            }
        }
        Ok(())
    }

    /// Adds one to the first two parameters.
    #[tactic(auto, unfolding(crate::specs::Meaning::act))]
    fn increment(&mut self) -> Result<(), ParmFault>
        ensures { (output : List ℕ) →
            Gives (λ _. state_of self.new output) result (act Action.Increment (state_of self.old output)) }
    {
        let first = one_more(self.params.get(0))?;
        let second = one_more(self.params.get(1))?;
        self.params.set_first(first, second);
        Ok(())
    }

    /// Writes the number on top of the stack as one byte.
    fn write_character(&mut self, out: &mut Vec<u8>) -> Result<(), ParmFault>
        ensures meant { Gives (λ _. state_of self.new out.new.items) result
            (writing character (state_of self.old out.old.items)) }
        ensures grows { Extends out.old.items out.new.items }
    {
        let number = self.stack.pop_number()?;
        let byte = byte_of(number)?;
        out.push(byte).map_err(|_| ParmFault::NoMemory)
    }

    /// Writes the value on top of the stack in a format.
    fn show(&mut self, format: Format, out: &mut Vec<u8>) -> Result<(), ParmFault>
        ensures meant { Gives (λ _. state_of self.new out.new.items) result
            (writing (shown format) (state_of self.old out.old.items)) }
        ensures grows { Extends out.old.items out.new.items }
    {
        match (format.conversion, self.stack.pop()) {
            (_, None) => Err(ParmFault::Underflow),
            (Conversion::Text, Some(Param::Text(text))) => {
                write_text(&format, text, out).map_err(|_| ParmFault::NoMemory)
            }
            (Conversion::Text, Some(Param::Number(_))) | (_, Some(Param::Text(_))) => {
                Err(ParmFault::WrongKind)
            }
            (_, Some(Param::Number(number))) => {
                write_number(&format, number, out).map_err(|_| ParmFault::NoMemory)
            }
        }
    }
}
