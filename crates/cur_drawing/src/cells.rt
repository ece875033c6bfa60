//! Attributes and cells (X/Open Curses Issue 7, "Attributes", "Characters").
ghost use Rattle.std.specs.Prelude.{ℕ, length, slice_index_or, ⊤, ◌≡◌, ◌<◌, ◌≤◌, ◌-◌, ◌==◌, [], ◌∷◌, codes, bit_or};
ghost use Rattle.std.specs.Prelude.{bit_and, false, true};
ghost use Rattle.cur_drawing.specs.Cells.{content_of, IsPrinted, IsCell, space, restyled};

use bitflags::{Flag, Flags, bitflag_items};
use std::marker::Model;

/// A set of attributes: how a character is shown.
#[derive(Clone, Copy, PartialEq, Eq, Debug)]
pub struct Attrs(u8);

bitflag_items! {
    impl Attrs: u8 {
        const STANDOUT = 1;
        const UNDERLINE = 2;
        const REVERSE = 4;
        const BLINK = 8;
        const DIM = 16;
        const BOLD = 32;
        const INVISIBLE = 64;
        const ALTCHARSET = 128;
    }
}

impl Flags for Attrs {
    type Bits = u8;

    ghost exact = { ⊤ };

    ghost table = { (codes "STANDOUT", 1) ∷ (codes "UNDERLINE", 2) ∷ (codes "REVERSE", 4) ∷ (codes "BLINK", 8)
        ∷ (codes "DIM", 16) ∷ (codes "BOLD", 32) ∷ (codes "INVISIBLE", 64) ∷ (codes "ALTCHARSET", 128) ∷ [] };

    ghost set_of = { λ a. a.0 };

    fn flags<'a>() -> &'a [Flag<Attrs>] {
        Attrs::FLAGS
    }

    fn bits(&self) -> u8 {
        self.0
    }

    fn from_bits_retain(bits: u8) -> Attrs {
        Attrs(bits)
    }
}

impl Attrs {
    /// No attributes.
    pub fn none() -> Attrs
        ensures { result ≡ record { 0 = 0 } }
    {
        Attrs(0)
    }

    /// Whether this set has all attributes of `other`.
    pub fn has(self, other: Attrs) -> bool
        ensures { result ≡ (bit_and self.0 other.0 == other.0) }
    {
        self.0 & other.0 == other.0
    }

    /// The attributes of either set.
    pub fn with(self, other: Attrs) -> Attrs
        ensures { result ≡ record { 0 = bit_or self.0 other.0 } }
    {
        Attrs(self.0 | other.0)
    }

    /// The attributes of this set that `other` doesn't have.
    pub fn without(self, other: Attrs) -> Attrs
        ensures { result ≡ record { 0 = bit_and self.0 (255 - other.0) } }
    {
        Attrs(self.0 & (255 - other.0))
    }
}

/// The number of color pairs, of which the first is pair 0.
pub const PAIRS: u8 = 64;

/// The content of one place: a character from 32 to 126, its attributes and its color pair from 0 to 63.
#[derive(Clone, Copy, Debug, PartialEq, Eq)]
pub struct Cell {
    // the character, the attributes and the pair, from the lowest byte up
    code: u32,
}

impl Model for Cell {
    ghost use Rattle.std.specs.Prelude.{◌≡◌, ◌<◌, ◌≤◌, ◌+◌, ◌*◌, ◌%◌, ◌/◌, ℕ};
    ghost use Rattle.std.proofs.Common.{ap};
    ghost use Rattle.cur_drawing.specs.{Cells.{Content}, Codes.{rejoined}};

    ghost Value = { Content };

    ghost view = { λ c. record { byte = c.code % 256; attrs = c.code / 256 % 256; pair = c.code / 256 / 256 } };

    ghost invariant = { λ c. (32 ≤ c.code % 256) × (c.code % 256 ≤ 126) × (c.code / 256 / 256 < 64) };

    ghost inverse = { λ v. record { code = v.byte + 256 * (v.attrs + 256 * v.pair) } };

    ghost inverse_ok = { λ c h. ap (λ (n : ℕ). record { code = n }) (rejoined c.code) };
}

impl Cell {
    /// A cell of this character, which must be from 32 to 126, these attributes and this pair,
    /// which must be below 64.
    pub fn new(byte: u8, attrs: Attrs, pair: u8) -> Cell
        requires printed { IsPrinted byte }
        requires pair_there { pair < 64 }
        ensures { result ≡ record { byte = byte; attrs = attrs.0; pair = pair } }
    {
        let code = byte as u32 + 256 * (attrs.0 as u32 + 256 * pair as u32);
        Cell { code }
    }

    /// A space without attributes, of pair 0.
    pub fn space() -> Cell
        ensures { result ≡ space }
    {
        Cell::new(b' ', Attrs::none(), 0)
    }

    /// The character.
    pub fn byte(&self) -> u8
        ensures value { result ≡ self.now.byte }
        ensures printed { IsPrinted result }
    {
        (self.code % 256) as u8
    }

    /// The attributes.
    pub fn attrs(&self) -> Attrs
        ensures { result ≡ record { 0 = self.now.attrs } }
    {
        Attrs((self.code / 256 % 256) as u8)
    }

    /// The color pair.
    pub fn pair(&self) -> u8
        ensures value { result ≡ self.now.pair }
        ensures there { result < 64 }
    {
        (self.code / 256 / 256) as u8
    }

    /// Whether this cell has the attributes and the pair of `other`.
    #[tactic(auto, using(crate::proofs::Numbers::same_styles, crate::proofs::Numbers::equal_styles))]
    pub fn is_styled_like(self, other: Cell) -> bool
        ensures alike { result ≡ true → (self.attrs ≡ other.attrs) × (self.pair ≡ other.pair) }
        ensures apart { result ≡ false → self.attrs ≡ other.attrs → self.pair ≡ other.pair → ⊥ }
    {
        self.code / 256 == other.code / 256
    }

    /// The cell as one number, from which all of it can be read.
    pub fn number(&self) -> u32
        ensures { content_of result ≡ self.now }
    {
        self.code
    }

    /// The cell after its window's background was changed from `was` to `new`.
    pub fn restyled(self, was: Cell, new: Cell) -> Cell
        ensures { result ≡ restyled was new self }
    {
        let byte = if self.byte() == was.byte() {
            new.byte()
        } else {
            self.byte()
        };
        let pair = if self.pair() == was.pair() {
            new.pair()
        } else {
            self.pair()
        };
        Cell::new(
            byte,
            self.attrs().without(was.attrs()).with(new.attrs()),
            pair,
        )
    }
}

/// A fact for proofs: each of these cells holds a character from 32 to 126 and a pair below 64. The
/// call does nothing.
pub fn all_cells(cells: &[Cell])
    ensures { (k : ℕ) → k < length cells.now → IsCell (slice_index_or cells.now k space) }
{
    for k in 0..cells.len() {
        // the calls bring in a cell's invariant; the loop does nothing else
        let _ = (cells[k].byte(), cells[k].pair());
    }
}
