//! A row of the table: a checked capability with its parameters.
use vt_term::Color;

/// The attributes that a parameter list of `sgr` asks for. The other two of its nine numbers, for
/// protection and for the alternate set, are 0.
#[derive(Clone, Copy, Debug, PartialEq, Eq)]
pub struct Attributes {
    pub standout: bool,
    pub underline: bool,
    pub reverse: bool,
    pub blink: bool,
    pub dim: bool,
    pub bold: bool,
    pub invisible: bool,
}

/// No attribute.
pub const NO_ATTRIBUTES: Attributes = Attributes {
    standout: false,
    underline: false,
    reverse: false,
    blink: false,
    dim: false,
    bold: false,
    invisible: false,
};

/// The six marks of a rendition (ECMA-48 8.3.117, SGR).
#[derive(Clone, Copy, Debug, PartialEq, Eq)]
pub struct Marks {
    pub bold: bool,
    pub faint: bool,
    pub underline: bool,
    pub blink: bool,
    pub negative: bool,
    pub concealed: bool,
}

/// No mark.
pub const NO_MARKS: Marks = Marks {
    bold: false,
    faint: false,
    underline: false,
    blink: false,
    negative: false,
    concealed: false,
};

/// Bold alone.
pub const BOLD: Marks = Marks {
    bold: true,
    ..NO_MARKS
};

/// Faint alone.
pub const FAINT: Marks = Marks {
    faint: true,
    ..NO_MARKS
};

/// Underline alone.
pub const UNDERLINE: Marks = Marks {
    underline: true,
    ..NO_MARKS
};

/// Blink alone.
pub const BLINK: Marks = Marks {
    blink: true,
    ..NO_MARKS
};

/// Negative alone.
pub const NEGATIVE: Marks = Marks {
    negative: true,
    ..NO_MARKS
};

/// Concealed alone.
pub const CONCEALED: Marks = Marks {
    concealed: true,
    ..NO_MARKS
};

/// How each attribute looks alone: standout by any marks, each other by its own mark or by none.
#[derive(Clone, Copy, Debug, PartialEq, Eq)]
pub struct Looks {
    pub standout: Marks,
    pub underline: bool,
    pub reverse: bool,
    pub blink: bool,
    pub dim: bool,
    pub bold: bool,
    pub invisible: bool,
}

/// Attributes that can't be seen.
pub const NO_LOOKS: Looks = Looks {
    standout: NO_MARKS,
    underline: false,
    reverse: false,
    blink: false,
    dim: false,
    bold: false,
    invisible: false,
};

/// A checked capability with its parameters; each variant has its capability's name in terminfo(5).
/// Rows and columns are counted from 0.
#[derive(Clone, Copy, Debug, PartialEq, Eq)]
pub enum Row {
    Clear,
    /// To this row and column.
    Cup(u16, u16),
    Home,
    Cr,
    /// To this column.
    Hpa(u16),
    /// To this row.
    Vpa(u16),
    Cub1,
    Cuf1,
    Cuu1,
    Cud1,
    /// Left by this many columns.
    Cub(u16),
    /// Right by this many columns.
    Cuf(u16),
    /// Up by this many rows.
    Cuu(u16),
    /// Down by this many rows.
    Cud(u16),
    El,
    El1,
    Ed,
    /// This many cells, from the cursor on.
    Ech(u16),
    Sgr(Attributes),
    Sgr0,
    Setaf(Color),
    Setab(Color),
    Op,
    Smul,
    Rev,
    Blink,
    Dim,
    Bold,
    Invis,
    Smso,
    Enacs,
    Smacs,
    Rmacs,
    /// The first and the last line of the region that scrolls.
    Csr(u16, u16),
    Ind,
    Ri,
    Civis,
    Cnorm,
    Cvvis,
    Smcup,
    Rmcup,
    Bel,
}
