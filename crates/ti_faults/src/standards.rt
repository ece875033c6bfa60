//! The strings that the standards have for the checked capabilities.

ghost use Rattle.std.specs.{Prelude.{◌≡◌, ◌<◌, IfSome, IsTrue}, Option.{option_copied}};
ghost use Rattle.ti_caps.specs.Fits.{string_fits};
ghost use Rattle.ti_faults.specs.Standard as spec;
ghost use Rattle.ti_rows.specs.Names.{order};

use ti_caps::{Entry, Kind, at};
use ti_rows::Row;

/// The standard's string for a row's capability. None has a second screen.
pub fn standard(row: Row) -> Option<&'static [u8]>
    ensures value { option_copied result ≡ spec.standard row }
    ensures fits { IfSome result (λ string. IsTrue (string_fits string.now)) }
{
    match row {
        Row::Bel => Some(b"\x07"),
        Row::Blink => Some(b"\x1b[5m"),
        Row::Bold => Some(b"\x1b[1m"),
        Row::Civis => Some(b"\x1b[?25l"),
        Row::Clear => Some(b"\x1b[H\x1b[2J"),
        Row::Cnorm => Some(b"\x1b[?25h"),
        Row::Cr => Some(b"\r"),
        Row::Csr(_, _) => Some(b"\x1b[%i%p1%d;%p2%dr"),
        Row::Cub(_) => Some(b"\x1b[%p1%dD"),
        Row::Cub1 => Some(b"\x08"),
        Row::Cud(_) => Some(b"\x1b[%p1%dB"),
        Row::Cud1 => Some(b"\n"),
        Row::Cuf(_) => Some(b"\x1b[%p1%dC"),
        Row::Cuf1 => Some(b"\x1b[C"),
        Row::Cup(_, _) => Some(b"\x1b[%i%p1%d;%p2%dH"),
        Row::Cuu(_) => Some(b"\x1b[%p1%dA"),
        Row::Cuu1 => Some(b"\x1b[A"),
        Row::Cvvis => Some(b"\x1b[?25h"),
        _ => standard_from_dim(row),
    }
}

/// The standard's string for a row whose name is `dim` or comes after it in the alphabet.
fn standard_from_dim(row: Row) -> Option<&'static [u8]>
    requires { 17 < order row }
    ensures value { option_copied result ≡ spec.standard row }
    ensures fits { IfSome result (λ string. IsTrue (string_fits string.now)) }
{
    match row {
        Row::Dim => Some(b"\x1b[2m"),
        Row::Ech(_) => Some(b"\x1b[%p1%dX"),
        Row::Ed => Some(b"\x1b[J"),
        Row::El => Some(b"\x1b[K"),
        Row::El1 => Some(b"\x1b[1K"),
        Row::Enacs => Some(b"\x1b(B\x1b)0"),
        Row::Home => Some(b"\x1b[H"),
        Row::Hpa(_) => Some(b"\x1b[%i%p1%dG"),
        Row::Ind => Some(b"\n"),
        Row::Invis => Some(b"\x1b[8m"),
        Row::Op => Some(b"\x1b[39;49m"),
        Row::Rev => Some(b"\x1b[7m"),
        Row::Ri => Some(b"\x1bM"),
        Row::Rmacs => Some(b"\x1b(B"),
        Row::Setab(_) => Some(b"\x1b[4%p1%dm"),
        Row::Setaf(_) => Some(b"\x1b[3%p1%dm"),
        Row::Sgr(_) => Some(
            b"\x1b[0%?%p1%p3%|%t;7%;%?%p2%t;4%;%?%p4%t;5%;%?%p5%t;2%;%?%p6%t;1%;%?%p7%t;8%;m",
        ),
        Row::Sgr0 => Some(b"\x1b[m"),
        Row::Smacs => Some(b"\x1b(0"),
        Row::Smso => Some(b"\x1b[7m"),
        Row::Smul => Some(b"\x1b[4m"),
        Row::Vpa(_) => Some(b"\x1b[%i%p1%dd"),
        _ => None,
    }
}

/// Whether a string has this byte.
fn has_byte(string: Option<&[u8]>, byte: u8) -> bool
    ensures { result ≡ spec.has_byte byte (option_copied string.entry) }
{
    match string {
        Some(bytes) => bytes.contains(&byte),
        None => false,
    }
}

/// Whether the entry changes between ASCII and the line drawing characters by SO and SI: its `smacs` has an SO, or its
/// `rmacs` an SI.
pub(crate) fn shifts(entry: &Entry) -> bool
    ensures { result ≡ spec.shifts entry.now }
{
    has_byte(entry.get_string(Row::Smacs.cap()), 14)
        || has_byte(entry.get_string(Row::Rmacs.cap()), 15)
}

/// The number of colors that the entry has.
#[tactic(auto, unfolding(ti_caps::specs::Table::kind_of, ti_caps::specs::Table::position_of, ti_caps::specs::Table::place_from))]
fn colors_of(entry: &Entry) -> u32
    ensures { result ≡ spec.colors_of entry.now }
{
    let colors = at(Kind::Number, 13).unwrap();
    match entry.get_number(colors) {
        Some(number) => number,
        None => 0,
    }
}

/// Whether `string` begins with `text`.
fn begins(string: Option<&[u8]>, text: &[u8]) -> bool
    ensures { result ≡ spec.begins (option_copied string.entry) text.now }
{
    match string {
        Some(bytes) => bytes.starts_with(text),
        None => false,
    }
}

/// Whether the colors of the entry are those of a palette: more than 8, and at most 256.
fn has_many_colors(entry: &Entry) -> bool
    ensures { result ≡ spec.many_colors entry.now }
{
    let colors = colors_of(entry);
    8 < colors && colors <= 256
}

/// `shifted` if the entry changes sets by SO and SI; else `designated` if it has an `rmacs`; else none.
fn by_sets(
    entry: &Entry,
    shifted: &'static [u8],
    designated: &'static [u8],
) -> Option<&'static [u8]>
    requires first { IsTrue (string_fits shifted.now) }
    requires other { IsTrue (string_fits designated.now) }
    ensures value { option_copied result ≡ spec.by_sets entry.now shifted.now designated.now }
    ensures fits { IfSome result (λ string. IsTrue (string_fits string.now)) }
{
    if shifts(entry) {
        Some(shifted)
    } else if entry.get_string(Row::Rmacs.cap()).is_some() {
        Some(designated)
    } else {
        None
    }
}

/// `string` if `is_so`, else none.
pub fn where_so(is_so: bool, string: &'static [u8]) -> Option<&'static [u8]>
    requires { IsTrue (string_fits string.now) }
    ensures value { option_copied result ≡ spec.where_so is_so string.now }
    ensures fits { IfSome result (λ string. IsTrue (string_fits string.now)) }
{
    if is_so { Some(string) } else { None }
}

/// The string for a row's capability that fits the entry's other strings better than the standard's, if there is one.
pub(crate) fn matching(entry: &Entry, row: Row) -> Option<&'static [u8]>
    ensures value { option_copied result ≡ spec.matching entry.now row }
    ensures fits { IfSome result (λ string. IsTrue (string_fits string.now)) }
{
    match row {
        Row::Smacs => where_so(shifts(entry), b"\x0e"),
        Row::Rmacs => where_so(shifts(entry), b"\x0f"),
        Row::Sgr0 => by_sets(entry, b"\x1b[m\x0f", b"\x1b(B\x1b[m"),
        Row::Sgr(_) => by_sets(
            entry,
            b"\x1b[0%?%p1%p3%|%t;7%;%?%p2%t;4%;%?%p4%t;5%;%?%p5%t;2%;%?%p6%t;1%;%?%p7%t;8%;m%?%p9%t\x0e%e\x0f%;",
            b"%?%p9%t\x1b(0%e\x1b(B%;\x1b[0%?%p1%p3%|%t;7%;%?%p2%t;4%;%?%p4%t;5%;%?%p5%t;2%;%?%p6%t;1%;%?%p7%t;8%;m",
        ),
        Row::Setaf(_) => where_so(
            has_many_colors(entry),
            b"\x1b[%?%p1%{8}%<%t3%p1%d%e%p1%{16}%<%t9%p1%{8}%-%d%e38;5;%p1%d%;m",
        ),
        Row::Setab(_) => where_so(
            has_many_colors(entry),
            b"\x1b[%?%p1%{8}%<%t4%p1%d%e%p1%{16}%<%t10%p1%{8}%-%d%e48;5;%p1%d%;m",
        ),
        Row::Smcup => where_so(
            begins(entry.get_string(Row::Rmcup.cap()), b"\x1b[?1049l"),
            b"\x1b[?1049h",
        ),
        Row::Rmcup => where_so(
            begins(entry.get_string(Row::Smcup.cap()), b"\x1b[?1049h"),
            b"\x1b[?1049l",
        ),
        _ => None,
    }
}

/// The standard's string for a row's capability of an entry: none for `setaf` and `setab` if the entry has more than
/// 256 colors.
pub(crate) fn general(entry: &Entry, row: Row) -> Option<&'static [u8]>
    ensures value { option_copied result ≡ spec.general entry.now row }
    ensures fits { IfSome result (λ string. IsTrue (string_fits string.now)) }
{
    match row {
        Row::Setaf(_) | Row::Setab(_) if 256 < colors_of(entry) => None,
        _ => standard(row),
    }
}
