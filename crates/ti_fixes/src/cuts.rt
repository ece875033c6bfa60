//! A source text cut where its entries begin.

ghost use Rattle.std.specs.Prelude.{◌≡◌, ◌≤◌, IfOk, length};
ghost use Rattle.ti_fixes.specs.Cuts as spec;

use std::alloc::{AllocError, Global};
use ti_source::RawEntry;

/// The bytes of the first `count` lines; all bytes if there are fewer lines.
fn length_of_lines(text: &[u8], count: u32) -> usize
    ensures { result ≤ length text.now }
{
    if count == 0 {
        return 0;
    }
    let mut left = count;
    for place in 0..text.len() {
        if text[place] == b'\n' {
            if left <= 1 {
                return place + 1;
            }
            left -= 1;
        }
    }
    text.len()
}

/// The text before the first of these entries, and then that of each entry, up to the next one.
pub fn cut(alloc: Global, text: &[u8], raws: &[RawEntry]) -> Result<Vec<Vec<u8>>, AllocError>
    ensures { IfOk result (λ parts. spec.whole parts.items ≡ text.now) }
{
    let mut parts = Vec::new(alloc);
    let mut rest = text;
    let mut line = 1;
    for raw in raws {
        let (own, behind) = rest.split_at(length_of_lines(rest, raw.line.saturating_sub(line)));
        let part = Vec::from_slice(alloc, own)?;
        parts.push(part)?;
        rest = behind;
        line = raw.line;
    }
    let last = Vec::from_slice(alloc, rest)?;
    parts.push(last)?;
    Ok(parts)
}

/// The parts, one after another.
pub fn joined(alloc: Global, parts: &[Vec<u8>]) -> Result<Vec<u8>, AllocError>
    ensures { IfOk result (λ text. text.items ≡ spec.whole parts.now) }
{
    let mut text = Vec::new(alloc);
    for part in parts {
        text.extend_from_slice(part.as_slice())?;
    }
    Ok(text)
}
