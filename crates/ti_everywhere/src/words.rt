//! The words about an entry's answer.

use std::alloc::{AllocError, Global};
use ti_caps::{Cap, name};
use ti_checker::No;
use ti_verdicts::no_words;
use vt_term::Size;

/// Words, or that memory ran out.
pub(crate) type Words = Result<Vec<u8>, AllocError>;

/// The words about this `size`.
pub(crate) fn size_words(alloc: Global, size: Size) -> Words {
    let rows = size.rows;
    let cols = size.cols;
    let words = format!(in alloc; "at {rows} {cols}")?;
    Ok(words.into_bytes())
}

/// The words of a doubt, which begin with `word`, about the capability `cap`.
pub(crate) fn doubt_words(alloc: Global, word: &[u8], cap: Cap) -> Words {
    let mut words = Vec::from_slice(alloc, word)?;
    words.push(b' ')?;
    words.extend_from_slice(name(cap))?;
    Ok(words)
}

/// The words of `no` at this `size`, on one line.
pub(crate) fn no_at(alloc: Global, size: Size, no: &No) -> Words {
    let mut words = no_words(alloc, no)?;
    words.push(b' ')?;
    words.extend_from_slice(size_words(alloc, size)?.as_slice())?;
    Ok(words)
}
