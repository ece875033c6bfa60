//! The words of a refusal.

ghost use Rattle.std.specs.{Prelude.{◌≡◌, ◌++◌, IfOk, OnOk, codes}, Fmt.{decimal}};
ghost use Rattle.ti_files.specs.Refusals as spec;

use crate::failure::CommandRefusal;
use std::alloc::{AllocError, Global};
use ti_compiled::PackFault;
use ti_parm::ParmFault;
use ti_resolve::ResolveFault;
use ti_source::{EscapeFault, FaultKind, SourceFault};
use vt_term::{TokenFault, TokenFaultKind};

/// The name of the variant of `$kind` that `$value` is, in bytes. The names are those of all variants.
#[macro_export]
macro_rules! variant_name {
    ($value:expr; $kind:ident: $($name:ident),*) => {
        match $value {
            $($kind::$name => stringify!($name).as_bytes(),)*
        }
    };
}

/// The words of `refusal` after `refused: `: its kind, and the place or the name that it is about.
/// A name has the bytes that it has in its source.
pub fn refusal_words(alloc: Global, refusal: &CommandRefusal) -> Result<Vec<u8>, AllocError>
    ensures { IfOk result (λ words. words.items ≡ spec.refusal_text_of refusal.now) }
{
    match refusal {
        CommandRefusal::Size => Vec::from_slice(alloc, b"BadSize"),
        CommandRefusal::Escape(fault) => Vec::from_slice(alloc, escape_name(*fault)),
        CommandRefusal::Parm(fault) => Vec::from_slice(alloc, parm_name(*fault)),
        CommandRefusal::Token(fault) => token_words(alloc, *fault),
        CommandRefusal::Stuck(fault) => stuck_words(alloc, fault.at),
        CommandRefusal::Source(fault) => source_words(alloc, *fault),
        CommandRefusal::Resolve(fault) => resolve_words(alloc, fault),
        CommandRefusal::Pack(fault) => Vec::from_slice(alloc, pack_name(*fault)),
        CommandRefusal::Verdict(words) => Vec::from_slice(alloc, words.as_slice()),
    }
}

fn token_words(alloc: Global, fault: TokenFault) -> Result<Vec<u8>, AllocError>
    ensures { IfOk result (λ words. words.items ≡ spec.token_text fault.kind fault.at) }
{
    match fault.kind {
        TokenFaultKind::Unfinished => unfinished_words(alloc, fault.at),
        TokenFaultKind::Stuck => stuck_words(alloc, fault.at),
        TokenFaultKind::NoMemory => Vec::from_slice(alloc, b"NoMemory"),
    }
}

fn unfinished_words(alloc: Global, at: usize) -> Result<Vec<u8>, AllocError>
    ensures { IfOk result (λ words. words.items ≡ codes "Unfinished " ++ decimal at) }
{
    Ok(format!(in alloc; "Unfinished {at}")?.into_bytes())
}

fn stuck_words(alloc: Global, at: usize) -> Result<Vec<u8>, AllocError>
    ensures { IfOk result (λ words. words.items ≡ codes "Stuck " ++ decimal at) }
{
    Ok(format!(in alloc; "Stuck {at}")?.into_bytes())
}

fn source_words(alloc: Global, fault: SourceFault) -> Result<Vec<u8>, AllocError>
    ensures { IfOk result (λ words. words.items
        ≡ spec.refusal_text_of (CommandRefusal.Source fault)) }
{
    let line = fault.line;
    let mut words = format!(in alloc; "line {line}: ")?.into_bytes();
    words.extend_from_slice(source_name(fault.kind))?;
    Ok(words)
}

/// The kind of `fault`, and the name that it is about.
fn resolve_words(alloc: Global, fault: &ResolveFault) -> Result<Vec<u8>, AllocError>
    ensures { IfOk result (λ words. words.items ≡ spec.resolve_text fault.now) }
{
    match fault {
        ResolveFault::NoSuchEntry(name) => named(alloc, b"NoSuchEntry ", name.as_slice()),
        ResolveFault::Cycle(name) => named(alloc, b"Cycle ", name.as_slice()),
        ResolveFault::TooMany(name) => named(alloc, b"TooMany ", name.as_slice()),
        ResolveFault::NoMemory => Vec::from_slice(alloc, b"NoMemory"),
    }
}

/// The `kind`, and the `name` after it.
fn named(alloc: Global, kind: &[u8], name: &[u8]) -> Result<Vec<u8>, AllocError>
    ensures { IfOk result (λ words. words.items ≡ kind.now ++ name.now) }
{
    let mut words = Vec::from_slice(alloc, kind)?;
    words.extend_from_slice(name)?;
    Ok(words)
}

fn escape_name(fault: EscapeFault) -> &'static [u8]
    ensures { result.now ≡ spec.escape_name fault }
{
    variant_name!(fault; EscapeFault: BadEscape, TooLong, NoMemory)
}

/// The name of a fault of parameters.
pub fn parm_name(fault: ParmFault) -> &'static [u8]
    ensures { result.now ≡ spec.parm_name fault }
{
    variant_name!(fault; ParmFault:
        Underflow, BadNest, BadCode, Overflow, BadChar, WrongKind, NoMemory
    )
}

fn source_name(kind: FaultKind) -> &'static [u8]
    ensures { result.now ≡ spec.source_name kind }
{
    variant_name!(kind; FaultKind:
        NoName, WrongKind, BadNumber, NumberRange, OpenField, BadEscape, TooLong, NoMemory
    )
}

fn pack_name(fault: PackFault) -> &'static [u8]
    ensures { result.now ≡ spec.pack_name fault }
{
    variant_name!(fault; PackFault:
        Short, BadMagic, BadCount, BadFlag, BadNumber, BadOffset, NoNul, TooLarge, NoMemory,
        BadNames
    )
}
