//! Running a parameter string.
ghost use Rattle.std.specs.Prelude.{◌≡◌, ◌↔◌, ◌++◌, ◌⊎◌, ℕ, ℤ, List, Result, IfErr, IfOk, IsTrue, OnErr, OnOk, Ok, Err};
ghost use Rattle.std.specs.Prelude.{length, take};
ghost use Rattle.ti_parm.specs.{Delays.{HasNoOpening, strip}, Fault.{Gives}, Machine.{state_of}};
ghost use Rattle.ti_parm.specs.Meaning.{Agree, ReadsUnset, State, meaning, sent, sent_with, start_of};
ghost use Rattle.ti_parm.specs.{Runs.{judged_run}, Spellings.{IsAnswer, Spells}, Syntax.{IsPlain, Parts, syntax}};
ghost use Rattle.ti_parm.specs.Value.{Value, values_of, zeros};

use crate::delays::strip_from;
use crate::fault::ParmFault;
use crate::machine::Machine;
use crate::nest::Nest;
use crate::param::Param;
use crate::statics::Statics;
use std::alloc::Global;

/// Checks the syntax of `string` and runs it from the state of `machine` on, in a single pass, appending to `out`. On
/// an error some bytes may have been appended.
fn run(
    alloc: Global,
    string: &[u8],
    machine: &mut Machine,
    out: &mut Vec<u8>,
) -> Result<(), ParmFault>
    ensures meant { Gives (λ _. state_of machine.new out.new.items) result
        (judged_run string.now (state_of machine.old out.old.items)) }
    ensures kept { OnErr result (take (length out.old.items) out.new.items ≡ out.old.items) }
{
    let mut nest = Nest::new(alloc);
    let mut rest = string;
    while !rest.is_empty() {
        rest = machine.advance(rest, &mut nest, out)?;
    }
    nest.end()
}

/// Expands a parameter string: appends to `out` the bytes that it writes for these parameters, and sets the static
/// variables as the string does.
///
/// The first nine of `params` are used, and 0 for those missing. The syntax of `string` comes first: the error is its
/// first fault (`BadCode`, `BadNest`). The other errors are the first fault of the codes that are run, and out of
/// memory. On every error `out` and `statics` stay as they were.
///
/// terminfo(5), "Parameterized Strings".
pub fn expand(
    alloc: Global,
    string: &[u8],
    params: &[Param],
    statics: &mut Statics,
    out: &mut Vec<u8>,
) -> Result<(), ParmFault>
    ensures ok { OnOk result ((end : State) × (meaning string.now (values_of params.now) statics.old ≡ Ok end) ×
        (out.new.items ≡ out.old.items ++ end.output) × (statics.new ≡ end.statics)) }
    ensures fault { IfErr result (λ e. (e ≡ ParmFault.NoMemory) ⊎
        (meaning string.now (values_of params.now) statics.old ≡ Err e)) }
    ensures unwritten { OnErr result (out.new.items ≡ out.old.items) }
    ensures unset { OnErr result (statics.new ≡ statics.old) }
{
    let written = out.len();
    let mut machine = Machine::new(alloc, params, statics);
    match run(alloc, string, &mut machine, out) {
        Ok(()) => {
            statics.replace(machine.statics);
            Ok(())
        }
        Err(fault) => {
            out.truncate(written);
            Err(fault)
        }
    }
}

/// Appends to `out` the bytes that a string sends to a terminal for these parameters: its expansion with all
/// variables 0, without its delays.
///
/// Allocates only for the growth of `out` and, like `expand`, for a deep stack. The errors are those of `expand`, and
/// on every error `out` stays as it was.
///
/// terminfo(5), "Parameterized Strings", "Delays and Padding".
pub fn sent(
    alloc: Global,
    string: &[u8],
    params: &[Param],
    out: &mut Vec<u8>,
) -> Result<(), ParmFault>
    ensures ok { OnOk result ((bytes : List ℕ) × (sent string.now (values_of params.now) ≡ Ok bytes) ×
        (out.new.items ≡ out.old.items ++ bytes)) }
    ensures fault { IfErr result (λ e. (e ≡ ParmFault.NoMemory) ⊎ (sent string.now (values_of params.now) ≡ Err e)) }
    ensures unwritten { OnErr result (out.new.items ≡ out.old.items) }
{
    let written = out.len();
    let mut statics = Statics::new();
    expand(alloc, string, params, &mut statics, out)?;
    strip_from(out, written);
    Ok(())
}

/// Runs a string with all static variables 0 and appends the bytes written to `out`. Returns whether the string reads
/// a static variable that it has not set before. On an error some bytes may have been appended.
fn run_alone(
    alloc: Global,
    string: &[u8],
    params: &[Param],
    out: &mut Vec<u8>,
) -> Result<bool, ParmFault>
    ensures ok { IfOk result (λ reads. (end : State) × (meaning string.now (values_of params.now) zeros ≡ Ok end) ×
        (IsTrue reads ↔ ReadsUnset end) × (out.new.items ≡ out.old.items ++ end.output)) }
    ensures fault { IfErr result (λ e. (e ≡ ParmFault.NoMemory) ⊎
        (meaning string.now (values_of params.now) zeros ≡ Err e)) }
{
    let statics = Statics::new();
    let mut machine = Machine::new(alloc, params, &statics);
    run(alloc, string, &mut machine, out)?;
    Ok(machine.reads_unset())
}

/// Whether `string`, expanded for `params` with all static variables 0, reads a static variable that it has not set
/// before. If not, the bytes that it sends don't depend on the static variables.
///
/// The errors are those of `expand` for these parameters and static variables.
///
/// terminfo(5), "Parameterized Strings".
pub fn reads_unset(alloc: Global, string: &[u8], params: &[Param]) -> Result<bool, ParmFault>
    ensures ok { IfOk result (λ reads. (end : State) × (meaning string.now (values_of params.now) zeros ≡ Ok end) ×
        (IsTrue reads ↔ ReadsUnset end)) }
    ensures fault { IfErr result (λ e. (e ≡ ParmFault.NoMemory) ⊎
        (meaning string.now (values_of params.now) zeros ≡ Err e)) }
{
    let mut out = Vec::new(alloc);
    run_alone(alloc, string, params, &mut out)
}

/// `sent` and `reads_unset` in one run: appends to `out` the bytes that a string sends for these parameters, and
/// returns whether it reads a static variable that it has not set before.
///
/// The errors are those of `expand`. On an error some bytes may have been appended.
///
/// terminfo(5), "Parameterized Strings", "Delays and Padding".
pub fn sent_and_reads_unset(
    alloc: Global,
    string: &[u8],
    params: &[Param],
    out: &mut Vec<u8>,
) -> Result<bool, ParmFault>
    ensures ok { IfOk result (λ reads. (end : State) × (meaning string.now (values_of params.now) zeros ≡ Ok end) ×
        (IsTrue reads ↔ ReadsUnset end) × (out.new.items ≡ out.old.items ++ strip end.output)) }
    ensures fault { IfErr result (λ e. (e ≡ ParmFault.NoMemory) ⊎
        (meaning string.now (values_of params.now) zeros ≡ Err e)) }
{
    let start = out.len();
    let reads = run_alone(alloc, string, params, out)?;
    strip_from(out, start);
    Ok(reads)
}

/// Law: a string without `%` is written as it is, whatever the parameters, and changes no static variable; if it has
/// no `$<` either, it is sent as it is.
pub fn plain_text_is_itself()
    ensures written { (string : List ℕ) (given : List Value) (statics : List ℤ) → IsPlain string →
        meaning string given statics ≡ Ok (record (start_of given statics) { output = string }) }
    ensures sent { (string : List ℕ) (given : List Value) (statics : List ℤ) → IsPlain string → HasNoOpening string →
        sent_with string given statics ≡ Ok string }
{}

/// Law: the bytes sent don't depend on static variables that the string doesn't read before it sets them. With other
/// static variables that agree on those that it reads first, it has no fault either, and sends the same bytes.
pub fn unread_statics_have_no_say()
    ensures { (string : List ℕ) (given : List Value) (one other : List ℤ) (end : State) → length one ≡ 26 →
        length other ≡ 26 → meaning string given one ≡ Ok end → Agree end one other →
        sent_with string given other ≡ sent_with string given one }
{}

/// Law: a string has a syntax tree exactly if it spells that tree, by the grammar of codes and conditionals; so it
/// spells at most one tree.
pub fn strings_spell_trees()
    ensures read { (string : List ℕ) (parts : Parts) → Spells string parts → syntax string ≡ Ok parts }
    ensures written { (string : List ℕ) (parts : Parts) → syntax string ≡ Ok parts → Spells string parts }
{}

/// Law: each string has exactly one answer for given parameters and static variables: that of the tree that it spells
/// or, if it spells none, the first fault of its syntax.
pub fn strings_have_one_answer()
    ensures some { (string : List ℕ) (given : List Value) (statics : List ℤ) →
        IsAnswer string given statics (meaning string given statics) }
    ensures one { (string : List ℕ) (given : List Value) (statics : List ℤ) (answer : Result State ParmFault) →
        IsAnswer string given statics answer → answer ≡ meaning string given statics }
{}
