//! The lines about suggestions that are left out.

ghost use Rattle.std.specs.Prelude.{◌≡◌, ◌++◌, IfOk, OnOk, codes};
ghost use Rattle.ti_caps.specs.Table.{name_at};
ghost use Rattle.ti_files.specs.Shown.{shown};
ghost use Rattle.ti_repairs.specs.Notes as spec;

use std::alloc::{AllocError, Global};
use ti_caps::{Cap, name};
use ti_files::push_shown;
use ti_source::RawEntry;
use ti_steps::{Kept, Reason, Remedy};
use ti_verdicts::{first_name, names_of};

/// The first name of the entry at `place`; empty behind all entries.
pub fn own_name(raws: &[RawEntry], place: usize) -> &[u8]
    ensures { result.now ≡ spec.own_name raws.now place }
{
    first_name(names_of(raws, place))
}

/// Appends why a suggestion is left out that the entry at `root` wants.
fn push_reason(
    lines: &mut Vec<u8>,
    raws: &[RawEntry],
    root: usize,
    reason: Reason,
) -> Result<(), AllocError>
    ensures { OnOk result (lines.new.items ≡ lines.old.items ++ spec.reason_text raws.now root reason) }
{
    match reason {
        Reason::Unplaced => lines.extend_from_slice(b"no way to take it was found"),
        Reason::Changes(place) => {
            push_about(lines, raws, place, b" would change and not be mended")
        }
        Reason::Faults(place, cap) => push_faulty(lines, raws, place, cap),
        Reason::Loses(place) => push_about(lines, raws, place, b" would lose its yes"),
        Reason::Refused => push_about(lines, raws, root, b" would stay at fault"),
    }
}

/// Appends the name of the entry at `place` and the `words` about it.
fn push_about(
    lines: &mut Vec<u8>,
    raws: &[RawEntry],
    place: usize,
    words: &[u8],
) -> Result<(), AllocError>
    ensures { OnOk result
        (lines.new.items ≡ lines.old.items ++ (shown (spec.own_name raws.now place) ++ words.now)) }
{
    push_shown(lines, own_name(raws, place))?;
    lines.extend_from_slice(words)
}

/// Appends that the capability of the entry at `place` would be at fault.
fn push_faulty(
    lines: &mut Vec<u8>,
    raws: &[RawEntry],
    place: usize,
    cap: Cap,
) -> Result<(), AllocError>
    ensures { OnOk result (lines.new.items ≡ lines.old.items
        ++ (shown (spec.own_name raws.now place) ++ (codes " would be at fault in " ++ name_at cap))) }
{
    push_about(lines, raws, place, b" would be at fault in ")?;
    lines.extend_from_slice(name(cap))
}

/// Appends ` of NAME`, if entries are `named`.
fn push_of(lines: &mut Vec<u8>, named: bool, name: &[u8]) -> Result<(), AllocError>
    ensures { OnOk result (lines.new.items ≡ lines.old.items ++ spec.of_text named name.now) }
{
    if named {
        lines.extend_from_slice(b" of ")?;
        push_shown(lines, name)?;
    }
    Ok(())
}

/// Appends the line of a suggestion that is left out.
fn push_line(
    lines: &mut Vec<u8>,
    named: bool,
    raws: &[RawEntry],
    remedy: &Remedy,
    reason: Reason,
) -> Result<(), AllocError>
    ensures { OnOk result (lines.new.items ≡ lines.old.items ++ spec.reason_line named raws.now remedy.now reason) }
{
    lines.extend_from_slice(b"kept ")?;
    lines.extend_from_slice(name(remedy.change.cap))?;
    push_of(lines, named, own_name(raws, remedy.root))?;
    lines.extend_from_slice(b": ")?;
    push_reason(lines, raws, remedy.root, reason)?;
    lines.push(b'\n')?;
    Ok(())
}

/// Appends a line if it isn't known that nothing more can be taken.
fn push_ended(lines: &mut Vec<u8>, is_ended: bool) -> Result<(), AllocError>
    ensures { OnOk result (lines.new.items ≡ lines.old.items ++ spec.ended_line is_ended) }
{
    if !is_ended {
        lines.extend_from_slice(b"more suggestions may be taken by another run\n")?;
    }
    Ok(())
}

/// A line for each suggestion that is left out. Entries are `named` unless all suggestions are for one.
fn left_out_lines(
    alloc: Global,
    named: bool,
    raws: &[RawEntry],
    kept: &[Kept],
) -> Result<Vec<u8>, AllocError>
    ensures { IfOk result (λ lines. lines.items ≡ spec.left_out_lines named raws.now kept.now) }
{
    let mut lines = Vec::new(alloc);
    for one in kept {
        push_line(&mut lines, named, raws, &one.remedy, one.reason)?;
    }
    Ok(lines)
}

/// The lines about the suggestions that are left out, and whether more may be taken.
pub fn kept_lines(
    alloc: Global,
    named: bool,
    raws: &[RawEntry],
    kept: &[Kept],
    is_ended: bool,
) -> Result<Vec<u8>, AllocError>
    ensures { IfOk result (λ lines. lines.items ≡ spec.kept_lines named raws.now kept.now is_ended) }
{
    let mut lines = left_out_lines(alloc, named, raws, kept)?;
    push_ended(&mut lines, is_ended)?;
    Ok(lines)
}
