//! The padding of a string, which stays where another string is suggested.

ghost use Rattle.std.specs.Prelude.{◌≡◌, ◌++◌, ◌∷◌, ◌==◌, ◌&&◌, ◌||◌, [], if◌then◌else◌, IfOk, OnOk, false, not};
ghost use Rattle.ti_repairs.specs.Paddings as spec;

use std::alloc::{AllocError, Global};
use ti_parm::strip_delays;

/// Whether a delay begins with this byte, before the rest of a text.
fn begins(byte: u8, rest: &[u8]) -> bool
    ensures { result ≡ spec.begins byte rest.now }
{
    match rest {
        [next, ..] => byte == b'$' && *next == b'<',
        [] => false,
    }
}

/// Appends the byte if it is part of a delay.
fn push_if(delays: &mut Vec<u8>, is_inside: bool, byte: u8) -> Result<(), AllocError>
    ensures { OnOk result (delays.new.items ≡ delays.old.items ++ (if is_inside then byte ∷ [] else [])) }
{
    if is_inside {
        delays.push(byte)?;
    }
    Ok(())
}

/// The bytes from each `$<` to the next `>`.
fn delays_in(alloc: Global, string: &[u8]) -> Result<Vec<u8>, AllocError>
    ensures { IfOk result (λ delays. delays.items ≡ spec.delays_in false string.now) }
{
    let mut delays = Vec::new(alloc);
    let mut is_open = false;
    let mut rest = string;
    while let [byte, behind @ ..] = rest {
        let is_inside = is_open || begins(*byte, behind);
        push_if(&mut delays, is_inside, *byte)?;
        is_open = is_inside && *byte != b'>';
        rest = behind;
    }
    Ok(delays)
}

/// The delays of a string, one after another; none if one of them isn't one.
pub fn padding_of(alloc: Global, string: &[u8]) -> Result<Vec<u8>, AllocError>
    ensures { IfOk result (λ padding. padding.items ≡ spec.padding_of string.now) }
{
    let delays = delays_in(alloc, string)?;
    let sent = strip_delays(alloc, delays.as_slice())?;
    if sent.is_empty() {
        Ok(delays)
    } else {
        Ok(Vec::new(alloc))
    }
}
