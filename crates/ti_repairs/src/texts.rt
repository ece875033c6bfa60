//! The files of a command, as files whose entries are put together.

ghost use Rattle.std.specs.{Prelude.{◌≡◌, ◌≤◌, ◌∷◌, [], IfOk, length, true}, List.{AllZip}};
ghost use Rattle.ti_commands.specs.Further.{together_in};
ghost use Rattle.ti_fixes.specs.Files.{all_raws, sheet_of, sheets};
ghost use Rattle.ti_repairs.specs.Texts as spec;

use std::alloc::{AllocError, Global};
use ti_commands::PutTogether;
use ti_fixes::{Text, Texts, push_entries};
use ti_source::RawEntry;
use ti_sources::FurtherFile;

/// Whether a further file is read as a source: a compiled one has no text.
fn is_source(file: &FurtherFile) -> bool {
    file.text().len() == file.bytes.len()
}

/// Copies of the entries.
fn copied(alloc: Global, raws: &[RawEntry]) -> Result<Vec<RawEntry>, AllocError>
    ensures { IfOk result (λ copy. copy.items ≡ raws.now) }
{
    let mut copy = Vec::new(alloc);
    push_entries(alloc, &mut copy, raws)?;
    Ok(copy)
}

/// A further file, whose entries are `raws`.
fn further_text(alloc: Global, file: &FurtherFile, raws: &[RawEntry]) -> Result<Text, AllocError>
    ensures sheet { IfOk result (λ text. spec.IsSheetOf file.now (sheet_of text)) }
    ensures raws { IfOk result (λ text. text.raws.items ≡ raws.now) }
{
    Ok(Text {
        path: String::from_str(alloc, file.path.as_str())?,
        bytes: Vec::from_slice(alloc, file.bytes.as_slice())?,
        raws: copied(alloc, raws)?,
        is_source: is_source(file),
        is_changed: false,
    })
}

/// How many of `length` entries are those of the file at `place` among the files; the last file has all that are left.
fn own_count(length: usize, counts: &[usize], place: usize, is_last: bool) -> usize
    ensures range { result ≤ length }
    ensures last { is_last ≡ true → result ≡ length }
{
    if is_last {
        return length;
    }
    match counts.get(place) {
        Some(count) if *count < length => *count,
        _ => length,
    }
}

/// The `further` files, whose entries are `raws`; each has a number of entries among `counts`, before which is that of
/// the source.
fn further_texts(
    alloc: Global,
    further: &[FurtherFile],
    counts: &[usize],
    raws: &[RawEntry],
) -> Result<Vec<Text>, AllocError>
    requires { further.now ≡ [] → raws.now ≡ [] }
    ensures each { IfOk result (λ texts. AllZip spec.IsSheetOf further.now (sheets texts.items)) }
    ensures raws { IfOk result (λ texts. all_raws (sheets texts.items) ≡ raws.now) }
{
    let mut texts = Vec::new(alloc);
    let mut rest = raws;
    for place in 0..further.len() {
        let count = own_count(rest.len(), counts, place + 1, place + 1 == further.len());
        let (own, behind) = rest.split_at(count);
        let text = further_text(alloc, &further[place], own)?;
        texts.push(text)?;
        rest = behind;
    }
    Ok(texts)
}

/// The file of a source, whose entries are `raws`.
fn own_text(
    alloc: Global,
    path: &str,
    bytes: Vec<u8>,
    raws: &[RawEntry],
) -> Result<Text, AllocError>
    ensures sheet { IfOk result (λ text. spec.IsSourceSheet path.now bytes.items (sheet_of text)) }
    ensures raws { IfOk result (λ text. text.raws.items ≡ raws.now) }
{
    Ok(Text {
        path: String::from_str(alloc, path)?,
        bytes,
        raws: copied(alloc, raws)?,
        is_source: true,
        is_changed: false,
    })
}

/// The file `own`, and then the others.
fn in_front(alloc: Global, own: Text, others: Vec<Text>) -> Result<Vec<Text>, AllocError>
    ensures { IfOk result (λ files. files.items ≡ own ∷ others.items) }
{
    let mut others = others;
    let mut files = Vec::new(alloc);
    files.push(own)?;
    files.append(&mut others)?;
    Ok(files)
}

/// Whether there is no further file.
fn is_none(further: &[FurtherFile]) -> bool
    ensures { further.now ≡ [] → result ≡ true }
{
    match further {
        [] => true,
        [_first, ..] => false,
    }
}

/// The source at `path` and the files of `--with`, with their entries put together as they were read.
///
/// # Errors
/// Out of memory.
pub fn texts_of(
    alloc: Global,
    path: &str,
    text: Vec<u8>,
    all: PutTogether,
) -> Result<Texts, AllocError>
    ensures sheets { IfOk result
        (λ texts. spec.AreSheetsOf path.now text.items (together_in all) (sheets texts.files.items)) }
    ensures raws { IfOk result (λ texts. texts.raws ≡ all.raws) }
{
    let PutTogether {
        raws,
        files: further,
        counts,
    } = all;
    let further = further.as_slice();
    let slice = raws.as_slice();
    let count = own_count(slice.len(), counts.as_slice(), 0, is_none(further));
    let (own, behind) = slice.split_at(count);
    let others = further_texts(alloc, further, counts.as_slice(), behind)?;
    let own = own_text(alloc, path, text, own)?;
    let files = in_front(alloc, own, others)?;
    Ok(Texts { files, raws })
}
