//! A text in which fields were given other strings.

ghost use Rattle.std.specs.{Prelude.{◌≡◌, Err, IfNone, IfOk, IfSome, Ok}, List.{AllByRecursion}};
ghost use Rattle.ti_source.specs.{Raw.{IsRaw}, Source.{source_of}, declared.types.SourceFault.{SourceFault}};

use std::alloc::{AllocError, Global};
use ti_source::{RawEntry, read};

/// A source text in which fields were given other strings.
#[derive(Debug, Drop)]
pub struct Fixed {
    /// The text.
    pub text: Vec<u8>,
    /// All entries of the text, as they were read.
    pub raws: Vec<RawEntry>,
}

/// The entries of a text; `None` if it can't be read.
pub fn entries_of(alloc: Global, text: &[u8]) -> Result<Option<Vec<RawEntry>>, AllocError>
    ensures reads { IfOk result (λ found. IfSome found (λ raws. source_of text.now ≡ Ok raws.items)) }
    ensures fit { IfOk result (λ found. IfSome found (λ raws. AllByRecursion IsRaw raws.items)) }
    ensures none { IfOk result (λ found. IfNone found ((fault : SourceFault) × (source_of text.now ≡ Err fault))) }
{
    match read(alloc, text) {
        Ok(raws) => Ok(Some(raws)),
        Err(fault) => {
            fault.kind.must_claim()?;
            Ok(None)
        }
    }
}
