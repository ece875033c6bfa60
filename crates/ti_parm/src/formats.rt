//! Formats as a parameter string spells them.
ghost use Rattle.std.specs.Prelude.{◌≡◌, ◌<◌, ◌≤◌, IfOk, IfSome, MatchOption, None, Some, length, min, option_map};
ghost use Rattle.ti_parm.specs.Codes.{as_code, behind_flags, behind_precision, conversion, finished, flag_at, flags_on};
ghost use Rattle.ti_parm.specs.{Codes.{format_code, no_flags, precision_at}, Fault.{Answers}};

use crate::fault::ParmFault;
use crate::number::number;

/// The way in which a format shows a value.
#[derive(Clone, Copy, Debug, PartialEq, Eq)]
pub enum Conversion {
    /// `d`
    Decimal,
    /// `o`
    Octal,
    /// `x`
    LowerHex,
    /// `X`
    UpperHex,
    /// `s`
    Text,
}

/// The flags of a format.
#[derive(Clone, Copy, Debug, PartialEq, Eq)]
pub struct Flags {
    /// `-`: pads on the right.
    pub left: bool,
    /// `+`: shows a sign even before a number that isn't negative.
    pub plus: bool,
    /// `#`: shows the base.
    pub alternate: bool,
    /// `0`: pads with zeros.
    pub zero: bool,
    /// A space: shows a space before a number that isn't negative.
    pub space: bool,
}

/// No flag.
const NO_FLAGS: Flags = Flags {
    left: false,
    plus: false,
    alternate: false,
    zero: false,
    space: false,
};

/// A format.
#[derive(Clone, Copy, Debug, PartialEq, Eq)]
pub struct Format {
    /// The flags.
    pub flags: Flags,
    /// The least number of bytes to show.
    pub width: u8,
    /// The least number of digits or, for a text, the greatest number of bytes.
    pub precision: Option<u8>,
    /// The kind of value shown, and its base.
    pub conversion: Conversion,
}

/// The format of `%d`: the number as it is.
pub const PLAIN: Format = Format {
    flags: NO_FLAGS,
    width: 0,
    precision: None,
    conversion: Conversion::Decimal,
};

/// `flags` with the flag that `text` begins with, and the rest.
fn flag_ahead(flags: Flags, text: &[u8]) -> Option<(Flags, &[u8])>
    ensures flag { MatchOption result (flag_at flags text.now ≡ None) (λ x. flag_at flags text.now ≡
        Some (x.0, x.1.now)) }
    ensures shorter { IfSome result (λ x. length x.1.now < length text.now) }
{
    let [byte, rest @ ..] = text else {
        return None;
    };
    let more = match byte {
        b'-' => Flags {
            left: true,
            ..flags
        },
        b'+' => Flags {
            plus: true,
            ..flags
        },
        b'#' => Flags {
            alternate: true,
            ..flags
        },
        b'0' => Flags {
            zero: true,
            ..flags
        },
        b' ' => Flags {
            space: true,
            ..flags
        },
        _ => return None,
    };
    Some((more, rest))
}

/// The flags that `text` begins with, and the rest.
fn flags_ahead(text: &[u8]) -> (Flags, &[u8])
    ensures flags { result.0 ≡ flags_on no_flags text.now }
    ensures rest { result.1.now ≡ behind_flags text.now }
    ensures within { length result.1.now ≤ length text.now }
{
    let mut flags = NO_FLAGS;
    let mut rest = text;
    while let Some((more, behind)) = flag_ahead(flags, rest) {
        flags = more;
        rest = behind;
    }
    (flags, rest)
}

/// The conversion with this letter.
fn conversion_of(byte: u8) -> Option<Conversion>
    ensures { result ≡ conversion byte }
{
    match byte {
        b'd' => Some(Conversion::Decimal),
        b'o' => Some(Conversion::Octal),
        b'x' => Some(Conversion::LowerHex),
        b'X' => Some(Conversion::UpperHex),
        b's' => Some(Conversion::Text),
        _ => None,
    }
}

/// The precision that `text` begins with, and the rest.
fn precision_ahead(text: &[u8]) -> (Option<u64>, &[u8])
    ensures precision { result.0 ≡ option_map (min 2147483648) (precision_at text.now) }
    ensures rest { result.1.now ≡ behind_precision text.now }
    ensures within { length result.1.now ≤ length text.now }
{
    match text {
        [b'.', rest @ ..] => {
            let (precision, behind) = number(rest);
            (Some(precision), behind)
        }
        _ => (None, text),
    }
}

/// The format of these parts, if its numbers are small enough.
fn finished(
    flags: Flags,
    width: u64,
    precision: Option<u64>,
    conversion: Conversion,
) -> Option<Format>
    ensures { result ≡ finished flags width precision conversion }
{
    if width > 255 {
        return None;
    }
    let precision = match precision {
        None => None,
        Some(digits) if digits <= 255 => Some(digits as u8),
        Some(_) => return None,
    };
    Some(Format {
        flags,
        width: width as u8,
        precision,
        conversion,
    })
}

/// The format that `text` begins with, after its `%` and `:`, and the rest.
pub fn format_ahead(text: &[u8]) -> Result<(Format, &[u8]), ParmFault>
    ensures code { Answers (λ x. (as_code x.0, x.1.now)) result (format_code text.now) }
    ensures shorter { IfOk result (λ x. length x.1.now < length text.now) }
{
    let (flags, digits) = flags_ahead(text);
    let (width, point) = number(digits);
    let (precision, rest) = precision_ahead(point);
    let [byte, behind @ ..] = rest else {
        return Err(ParmFault::BadCode);
    };
    let Some(conversion) = conversion_of(*byte) else {
        return Err(ParmFault::BadCode);
    };
    match finished(flags, width, precision, conversion) {
        Some(format) => Ok((format, behind)),
        None => Err(ParmFault::BadCode),
    }
}
