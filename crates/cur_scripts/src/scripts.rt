//! Reading a whole script.
ghost use Rattle.std.specs.Prelude.{◌≡◌, ◌∷◌, [], IfOk, IfErr, IfSome, Ok, option_map};
ghost use Rattle.cur_scripts.specs.{Cuts.{cut_at}, Texts.{FailsBy, only_call, only_line, script_of}};

use crate::Call;
use crate::cuts::{cut, first_part};
use crate::faults::{ScriptFault, ScriptFaultKind};
use crate::lines::{hand_on_call, is_skipped, read_line};
use crate::takers::OneCall;
use std::alloc::Global;

// The expected length of a short line.
const SHORT_LINE: usize = 8;

/// The most bytes of a script.
pub const LONGEST: usize = 1_048_576;

/// The calls of a script, one per line, without its empty lines and those that begin with `#`.
///
/// # Errors
/// The first fault: `TooLong`, at line 0, if `text` has more than 1048576 bytes; `BadLine` if the
/// line isn't a call. `NoMemory` can come at any line.
#[tactic(auto, unfolding(crate::specs::Texts::script_of))]
pub fn read_script<'a>(alloc: Global, text: &'a [u8]) -> Result<Vec<Call<'a>>, ScriptFault>
    ensures calls { IfOk result (λ v. script_of text.now ≡ Ok v.items) }
    ensures fault { IfErr result (λ e. FailsBy e.kind e (script_of text.now)) }
{
    if text.len() > LONGEST {
        return Err(ScriptFault {
            line: 0,
            kind: ScriptFaultKind::TooLong,
        });
    }
    let mut calls = room_for_calls(alloc, text)?;
    let mut left = Some(text);
    let mut number = 1;
    while let Some(text) = left {
        let (line, rest) = first_part(b'\n', text);
        read_line(number, line, &mut calls)?;
        left = rest;
        number += 1;
    }
    Ok(calls)
}

// Room for the calls of a text with at least some eight bytes per line; it grows for a text with shorter lines.
fn room_for_calls<'a>(alloc: Global, text: &[u8]) -> Result<Vec<Call<'a>>, ScriptFault>
    ensures none { IfOk result (λ v. v.items ≡ []) }
    ensures fault { IfErr result (λ e. e.kind ≡ ScriptFaultKind.NoMemory) }
{
    match Vec::with_capacity(alloc, text.len() / SHORT_LINE) {
        Ok(calls) => Ok(calls),
        Err(_) => Err(ScriptFault {
            line: 0,
            kind: ScriptFaultKind::NoMemory,
        }),
    }
}

/// The call of a script that has only one line, if that is a call. Takes no memory.
pub fn read_call<'a>(text: &'a [u8]) -> Option<Call<'a>>
    ensures value { result ≡ only_call text.now }
    ensures script { IfSome result (λ call. script_of text.now ≡ Ok (call ∷ [])) }
{
    only_call(text)
}

// The call of a script that has only one line, without the clause about the script.
#[tactic(auto, unfolding(crate::specs::Takers::HandsOn))]
fn only_call<'a>(text: &'a [u8]) -> Option<Call<'a>>
    ensures { result ≡ only_call text.now }
{
    if text.len() > LONGEST {
        return None;
    }
    let line = only_line(text)?;
    if is_skipped(line) {
        return None;
    }
    let mut one = OneCall { call: None };
    match hand_on_call(line, &mut one) {
        Ok(()) => one.call,
        Err(_) => None,
    }
}

/// The line of a text that has only one, with or without its line feed.
fn only_line(text: &[u8]) -> Option<&[u8]>
    ensures { option_map (λ line. line.now) result ≡ only_line text.now (cut_at 10 text.now) }
{
    match cut(b'\n', text) {
        None => Some(text),
        Some((line, [])) => Some(line),
        Some(_) => None,
    }
}
