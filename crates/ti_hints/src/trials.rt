//! Advice about strings that aren't checked, from one run of each on T.

use crate::functions::does_all;
use std::alloc::{AllocError, Global};
use ti_caps::{Cap, Entry, Kind, STRINGS, at, by_name, name};
use ti_conforms::is_checked;
use ti_parm::{Param, ParmFault, sent_and_reads_unset};
use ti_rows::Row;
use ti_words::push_spelled;
use vt_term::{Settings, Size, Terminal, TokenFault, TokenFaultKind, tokens};

/// The results of an entry's checks, and of one run of each string that isn't checked.
#[derive(Drop)]
pub struct Tried {
    /// The number of strings that are checked.
    pub checked: usize,
    /// The number of strings that were run and did what their names say.
    pub right: usize,
    /// A text for each string that was run and did something else. It begins with the name of the string.
    pub advice: Vec<Vec<u8>>,
    /// The strings that were not looked at.
    pub unseen: Vec<Cap>,
}

/// The effect that terminfo(5) gives a string by its name, from a certain place of a screen.
struct Deed {
    name: &'static [u8],
    /// The number that the string takes; 0 for a string that takes none.
    count: i32,
    /// Moves the cursor to the place.
    start: &'static [u8],
    /// The function of ECMA-48 that does the same there.
    standard: &'static [u8],
    words: &'static [u8],
}

/// The strings that change cells, which are compared with functions of ECMA-48.
const DEEDS: [Deed; 10] = [
    Deed {
        name: b"ich1",
        count: 0,
        start: b"\x1b[3;4H",
        standard: b"\x1b[@",
        words: b"insert a blank",
    },
    Deed {
        name: b"ich",
        count: 2,
        start: b"\x1b[3;4H",
        standard: b"\x1b[2@",
        words: b"insert 2 blanks",
    },
    Deed {
        name: b"dch1",
        count: 0,
        start: b"\x1b[3;4H",
        standard: b"\x1b[P",
        words: b"delete a cell",
    },
    Deed {
        name: b"dch",
        count: 2,
        start: b"\x1b[3;4H",
        standard: b"\x1b[2P",
        words: b"delete 2 cells",
    },
    Deed {
        name: b"il1",
        count: 0,
        start: b"\x1b[3H",
        standard: b"\x1b[L",
        words: b"insert a line",
    },
    Deed {
        name: b"il",
        count: 2,
        start: b"\x1b[3H",
        standard: b"\x1b[2L",
        words: b"insert 2 lines",
    },
    Deed {
        name: b"dl1",
        count: 0,
        start: b"\x1b[3H",
        standard: b"\x1b[M",
        words: b"delete a line",
    },
    Deed {
        name: b"dl",
        count: 2,
        start: b"\x1b[3H",
        standard: b"\x1b[2M",
        words: b"delete 2 lines",
    },
    Deed {
        name: b"indn",
        count: 2,
        start: b"\x1b[5H",
        standard: b"\x1b[2S",
        words: b"scroll up by 2 lines",
    },
    Deed {
        name: b"rin",
        count: 2,
        start: b"\x1b[1H",
        standard: b"\x1b[2T",
        words: b"scroll down by 2 lines",
    },
];

/// The strings that end something, each with the one that begins it.
const ENDS: [(&[u8], &[u8]); 3] = [(b"rmul", b"smul"), (b"rmso", b"smso"), (b"rmir", b"smir")];

/// The lines of the screen on which strings are run.
const ROWS: usize = 5;

/// The columns of that screen.
const COLS: usize = 10;

/// Fills that screen with characters that all differ, but for the last column.
const CELLS: &[u8] = b"abcdefghi\r\njklmnopqr\r\nstuvwxyzA\r\nBCDEFGHIJ\r\nKLMNOPQRS\x1b[H";

/// Shows whether a rendition or insertion has begun: a character before others.
const MARK: &[u8] = b"\x1b[1;4Hx";

/// The outcome of a run.
#[derive(Clone, Copy, PartialEq, Eq)]
enum Outcome {
    /// The string did what its name says.
    Right,
    /// It did something else.
    Wrong,
    /// T ignores a part of it, or it can't be run.
    Unseen,
}

/// A run of a string.
#[derive(Clone, Copy)]
struct Run<'a> {
    outcome: Outcome,
    /// The words for the effect that the string should have had.
    words: &'a [u8],
}

/// The state of T that a run leaves.
#[derive(Drop)]
struct Left {
    screen: Vec<u8>,
    settings: Settings,
}

/// The strings of `entry`, each of which is checked, run once, or not looked at. `acsc` counts as checked.
pub fn tried_strings(alloc: Global, entry: &Entry) -> Result<Tried, AllocError> {
    let mut tried = Tried {
        checked: 0,
        right: 0,
        advice: Vec::new(alloc),
        unseen: Vec::new(alloc),
    };
    for position in 0..STRINGS {
        if let Some(cap) = at(Kind::String, position) {
            if entry.get_string(cap).is_some() {
                add_string(alloc, entry, cap, &mut tried)?;
            }
        }
    }
    Ok(tried)
}

/// Adds the string `cap` of `entry` to those that were `tried`.
fn add_string(alloc: Global, entry: &Entry, cap: Cap, tried: &mut Tried) -> Result<(), AllocError> {
    if is_judged(entry, cap) {
        tried.checked = tried.checked.saturating_add(1);
        return Ok(());
    }
    let name = name(cap);
    if let Some(deed) = DEEDS.iter().find(|deed| deed.name == name) {
        let outcome = deed_outcome(alloc, entry, cap, deed)?;
        let words = deed.words;
        return add_run(alloc, entry, cap, Run { outcome, words }, tried);
    }
    if let Some((_, begun)) = ENDS.iter().find(|end| end.0 == name) {
        let outcome = end_outcome(alloc, entry, cap, begun)?;
        let words = joined(alloc, b"end ", begun)?;
        let words = words.as_slice();
        return add_run(alloc, entry, cap, Run { outcome, words }, tried);
    }
    tried.unseen.push(cap)?;
    Ok(())
}

/// Adds the `run` of the string `cap` of `entry`.
fn add_run(
    alloc: Global,
    entry: &Entry,
    cap: Cap,
    run: Run<'_>,
    tried: &mut Tried,
) -> Result<(), AllocError> {
    match run.outcome {
        Outcome::Right => tried.right = tried.right.saturating_add(1),
        Outcome::Wrong => tried
            .advice
            .push(wrong_words(alloc, entry, cap, run.words)?)?,
        Outcome::Unseen => tried.unseen.push(cap)?,
    }
    Ok(())
}

/// Whether the string `cap` of `entry` is one that a certificate is about.
fn is_judged(entry: &Entry, cap: Cap) -> bool {
    match Row::named(name(cap)) {
        Some(row) => is_checked(entry, row),
        None => name(cap) == b"acsc".as_slice(),
    }
}

/// The outcome of a run of the string `cap` of `entry` beside the function that does the `deed`.
fn deed_outcome(
    alloc: Global,
    entry: &Entry,
    cap: Cap,
    deed: &Deed,
) -> Result<Outcome, AllocError> {
    let Some(bytes) = sent(alloc, entry, cap, deed.count)? else {
        return Ok(Outcome::Unseen);
    };
    let own = left_by(alloc, deed.start, &[bytes.as_slice()])?;
    let wanted = left_by(alloc, deed.start, &[deed.standard])?;
    Ok(if is_same(&own, &wanted) {
        Outcome::Right
    } else {
        Outcome::Wrong
    })
}

/// The outcome of a run of the string `cap` of `entry` behind the string that has the name `begun`. A string that
/// begins nothing on T can't be ended.
fn end_outcome(
    alloc: Global,
    entry: &Entry,
    cap: Cap,
    begun: &[u8],
) -> Result<Outcome, AllocError> {
    let Some(first) = by_name(begun) else {
        return Ok(Outcome::Unseen);
    };
    let (Some(on), Some(off)) = (sent(alloc, entry, first, 0)?, sent(alloc, entry, cap, 0)?) else {
        return Ok(Outcome::Unseen);
    };
    let before = left_by(alloc, b"", &[])?;
    let between = left_by(alloc, b"", &[on.as_slice(), MARK])?;
    let plain = left_by(alloc, b"", &[MARK])?;
    let after = left_by(alloc, b"", &[on.as_slice(), off.as_slice()])?;
    let marked = left_by(alloc, b"", &[on.as_slice(), off.as_slice(), MARK])?;
    Ok(if is_same(&between, &plain) {
        Outcome::Unseen
    } else if is_same(&after, &before) && is_same(&marked, &plain) {
        Outcome::Right
    } else {
        Outcome::Wrong
    })
}

/// The bytes that the string `cap` of `entry` sends for the number `count`; `None` if it has none, if it can't be
/// expanded or depends on earlier strings, or if T doesn't do all that they ask for.
fn sent(alloc: Global, entry: &Entry, cap: Cap, count: i32) -> Result<Option<Vec<u8>>, AllocError> {
    let Some(string) = entry.get_string(cap) else {
        return Ok(None);
    };
    let mut bytes = Vec::new(alloc);
    match sent_and_reads_unset(alloc, string, &[Param::Number(count)], &mut bytes) {
        Ok(false) => (),
        Ok(true) => return Ok(None),
        Err(ParmFault::NoMemory) => return Err(AllocError),
        Err(_) => return Ok(None),
    }
    match tokens(alloc, bytes.as_slice()) {
        Ok(found) => {
            let is_known = found.iter().all(|token| does_all(token.function()));
            Ok(if is_known { Some(bytes) } else { None })
        }
        Err(
            TokenFault {
                kind: TokenFaultKind::NoMemory,
                ..
            },
        ) => Err(AllocError),
        Err(_) => Ok(None),
    }
}

/// The state of a screen that is full of characters, after the bytes of `start` and of each of the `texts`; `None` if T
/// is stuck.
fn left_by(alloc: Global, start: &[u8], texts: &[&[u8]]) -> Result<Option<Left>, AllocError> {
    let Some(size) = Size::new(ROWS, COLS) else {
        return Ok(None);
    };
    let mut terminal = Terminal::new(alloc, size)?;
    if terminal.feed(CELLS).is_err() || terminal.feed(start).is_err() {
        return Ok(None);
    }
    for text in texts {
        if terminal.feed(text).is_err() {
            return Ok(None);
        }
    }
    Ok(Some(Left {
        screen: terminal.print_screen(alloc)?,
        settings: terminal.settings(),
    }))
}

/// Whether both runs left the same state.
fn is_same(one: &Option<Left>, other: &Option<Left>) -> bool {
    match (one, other) {
        (Some(one), Some(other)) => {
            one.settings == other.settings && one.screen.as_slice() == other.screen.as_slice()
        }
        (Some(_), None) => false,
        (None, Some(_)) => false,
        (None, None) => false,
    }
}

/// Adds to `words` the capability `cap` with its string in `entry`, `NAME=STRING`.
pub(crate) fn push_definition(
    words: &mut Vec<u8>,
    entry: &Entry,
    cap: Cap,
) -> Result<(), AllocError> {
    words.extend_from_slice(name(cap))?;
    words.extend_from_slice(b"=")?;
    push_spelled(words, entry.get_string(cap).unwrap_or(&[]))
}

/// The words that the string `cap` of `entry` doesn't do what `deed` says.
fn wrong_words(alloc: Global, entry: &Entry, cap: Cap, deed: &[u8]) -> Result<Vec<u8>, AllocError> {
    let mut words = joined(alloc, name(cap), b": ")?;
    push_definition(&mut words, entry, cap)?;
    words.extend_from_slice(b" doesn't ")?;
    words.extend_from_slice(deed)?;
    words.extend_from_slice(b" on T")?;
    Ok(words)
}

fn joined(alloc: Global, first: &[u8], later: &[u8]) -> Result<Vec<u8>, AllocError> {
    let mut words = Vec::from_slice(alloc, first)?;
    words.extend_from_slice(later)?;
    Ok(words)
}
