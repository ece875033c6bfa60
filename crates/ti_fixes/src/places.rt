//! The place in a text of a field of an entry. Nothing is promised of it: a text that is changed there is read again
//! and compared.

use std::alloc::{AllocError, Global};
use ti_caps::{Cap, Opener, name};

/// A piece of a text: the place of its first byte, and its length.
#[derive(Clone, Copy, Debug, PartialEq, Eq)]
pub struct Piece {
    pub start: usize,
    pub length: usize,
}

/// A walk over the bytes of a text of one entry, for the pieces before commas.
#[derive(Drop)]
struct Walk {
    /// The place of the next byte.
    at: usize,
    /// Whether the next byte is the first of its line.
    is_start: bool,
    /// Whether the line is a comment.
    is_comment: bool,
    opener: Opener,
    /// The place of the first byte behind the last comma.
    start: usize,
    pieces: Vec<Piece>,
}

impl Walk {
    /// A walk from the start of the text.
    fn new(alloc: Global) -> Walk {
        Walk {
            at: 0,
            is_start: true,
            is_comment: false,
            opener: Opener::Nothing,
            start: 0,
            pieces: Vec::new(alloc),
        }
    }

    /// Goes on by a byte.
    fn take(&mut self, byte: u8) -> Result<(), AllocError> {
        let at = self.at;
        self.at = at.saturating_add(1);
        if byte == b'\n' {
            self.end_line();
            return Ok(());
        }
        if self.is_start {
            self.is_start = false;
            self.is_comment = byte == b'#';
        }
        if self.is_comment {
            return Ok(());
        }
        self.take_in_field(at, byte)
    }

    fn end_line(&mut self) {
        self.is_start = true;
        self.is_comment = false;
        self.opener = Opener::Nothing;
        self.start = self.at;
    }

    /// Goes on by a byte at the place `at`, which isn't in a comment.
    fn take_in_field(&mut self, at: usize, byte: u8) -> Result<(), AllocError> {
        if !self.opener.ends_field(byte) {
            self.opener = self.opener.after(byte);
            return Ok(());
        }
        let start = self.start;
        self.opener = Opener::Nothing;
        self.start = at.saturating_add(1);
        self.pieces.push(Piece {
            start,
            length: at.saturating_sub(start),
        })?;
        Ok(())
    }
}

/// The pieces of a text of one entry before commas.
fn pieces_of(alloc: Global, text: &[u8]) -> Result<Vec<Piece>, AllocError> {
    let mut walk = Walk::new(alloc);
    for byte in text {
        walk.take(*byte)?;
    }
    let Walk { pieces, .. } = walk;
    Ok(pieces)
}

/// The bytes of a piece; none if the text has no such piece.
fn bytes_of(text: &[u8], piece: Piece) -> &[u8] {
    if piece.start > text.len() {
        return &[];
    }
    let (_, rest) = text.split_at(piece.start);
    if piece.length > rest.len() {
        return &[];
    }
    let (own, _) = rest.split_at(piece.length);
    own
}

/// The number of spaces and tabs at the start.
fn white_before(bytes: &[u8]) -> usize {
    match bytes
        .iter()
        .position(|byte| *byte != b' ' && *byte != b'\t')
    {
        Some(count) => count,
        None => bytes.len(),
    }
}

/// The piece without the spaces and tabs at its start.
fn trimmed(text: &[u8], piece: Piece) -> Piece {
    let white = white_before(bytes_of(text, piece));
    Piece {
        start: piece.start.saturating_add(white),
        length: piece.length.saturating_sub(white),
    }
}

/// Whether a field with this name sets it or cancels it.
fn is_about(field: &[u8], name: &[u8]) -> bool {
    match field.strip_prefix(name) {
        Some(rest) => match rest {
            [mark, ..] => *mark == b'=' || *mark == b'@' || *mark == b'#',
            [] => false,
        },
        None => false,
    }
}

/// The first of the fields with this name.
fn named_piece(text: &[u8], pieces: &[Piece], name: &[u8]) -> Option<Piece> {
    for piece in pieces {
        let own = trimmed(text, *piece);
        if is_about(bytes_of(text, own), name) {
            return Some(own);
        }
    }
    None
}

/// Whether the piece is a use of another entry.
fn is_use(text: &[u8], piece: Piece) -> bool {
    bytes_of(text, trimmed(text, piece)).starts_with(b"use=")
}

/// The empty piece behind the comma after the last of the pieces that is no use.
fn behind(text: &[u8], pieces: &[Piece]) -> Option<Piece> {
    let mut found = None;
    for piece in pieces {
        if !is_use(text, *piece) {
            found = Some(Piece {
                start: piece.start.saturating_add(piece.length).saturating_add(1),
                length: 0,
            });
        }
    }
    found
}

/// The piece of the text that is the first of the entry's fields about `cap`, or the empty piece behind the last own
/// one if there is none. `pieces` are those of the entry before commas.
fn piece_about(text: &[u8], pieces: &[Piece], cap: Cap) -> Option<Piece> {
    let fields: &[Piece] = match pieces {
        [] => &[],
        [_names, fields @ ..] => fields,
    };
    match named_piece(text, fields, name(cap)) {
        Some(piece) => Some(piece),
        None => behind(text, pieces),
    }
}

/// The piece of a text of one entry that is its field about `cap`, or the empty piece behind its last own field.
pub fn find_own_piece(alloc: Global, text: &[u8], cap: Cap) -> Result<Option<Piece>, AllocError> {
    let pieces = pieces_of(alloc, text)?;
    Ok(piece_about(text, pieces.as_slice(), cap))
}
