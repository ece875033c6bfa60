//! The names of functions that T lacks, in ECMA-48 (5th edition), in DEC's manuals (DEC STD 070; VT100 User Guide,
//! chapter 3; VT510 Video Terminal Programmer Information, chapter 5) and in xterm's control sequences (ctlseqs, "CSI",
//! "Functions using CSI", and "VT100 Mode").

/// A name of a function, and where it is defined.
#[derive(Clone, Copy, Debug, PartialEq, Eq)]
pub struct FunctionName {
    /// The name.
    pub name: &'static str,
    /// The standard or manual, with the section if it has one.
    pub section: &'static str,
}

fn named(name: &'static str, section: &'static str) -> Option<FunctionName> {
    Some(FunctionName { name, section })
}

/// The name of the function that a `sequence` names, which has no numbers but one of SGR or of a mode that is set or
/// reset; `None` if it has none.
pub fn function_name(sequence: &[u8]) -> Option<FunctionName> {
    match sequence {
        [27, b'[', body @ ..] => control_name(body),
        [27, behind @ ..] => escape_name(behind),
        _ => None,
    }
}

fn control_name(body: &[u8]) -> Option<FunctionName> {
    match body {
        [b'?', digits @ .., b'h' | b'l'] => private_mode_name(number_of(digits)),
        [last] => plain_name(*last),
        [digits @ .., b'm'] if begins_number(digits) => rendition_name(number_of(digits)),
        [digits @ .., b'h' | b'l'] if begins_number(digits) => mode_name(number_of(digits)),
        [mark, last] => marked_name(*mark, *last),
        [b'?', b'$', b'p'] => named("DECRQM", "VT510"),
        _ => None,
    }
}

fn begins_number(digits: &[u8]) -> bool {
    match digits {
        [first, ..] => first.is_ascii_digit(),
        [] => false,
    }
}

/// The number of some digits, 0 for other bytes.
fn number_of(digits: &[u8]) -> u32 {
    let mut number: u32 = 0;
    for digit in digits {
        if !digit.is_ascii_digit() {
            return 0;
        }
        number = number
            .saturating_mul(10)
            .saturating_add(u32::from(digit.saturating_sub(b'0')));
    }
    number
}

/// Control sequences with numbers alone.
fn plain_name(last: u8) -> Option<FunctionName> {
    match last {
        b'A' | b'B' | b'C' | b'D' | b'G' | b'H' | b'd' | b'f' => moving_name(last),
        b'@' | b'J' | b'K' | b'L' | b'M' | b'P' | b'S' | b'T' | b'X' => editing_name(last),
        b'E' => named("CNL", "ECMA-48 8.3.12"),
        b'F' => named("CPL", "ECMA-48 8.3.13"),
        b'I' => named("CHT", "ECMA-48 8.3.10"),
        b'W' => named("CTC", "ECMA-48 8.3.17"),
        b'Y' => named("CVT", "ECMA-48 8.3.23"),
        b'Z' => named("CBT", "ECMA-48 8.3.7"),
        b'`' => named("HPA", "ECMA-48 8.3.57"),
        b'a' => named("HPR", "ECMA-48 8.3.59"),
        b'b' => named("REP", "ECMA-48 8.3.103"),
        b'e' => named("VPR", "ECMA-48 8.3.160"),
        b'j' => named("HPB", "ECMA-48 8.3.58"),
        b'k' => named("VPB", "ECMA-48 8.3.159"),
        b'm' => named("SGR", "ECMA-48 8.3.117"),
        b'r' => named("DECSTBM", "VT100"),
        b's' => named("SCOSC, DECSLRM", "xterm; VT510"),
        b'u' => named("SCORC", "xterm, ctlseqs"),
        _ => device_name(last),
    }
}

/// Moves that T has.
fn moving_name(last: u8) -> Option<FunctionName> {
    match last {
        b'A' => named("CUU", "ECMA-48 8.3.22"),
        b'B' => named("CUD", "ECMA-48 8.3.19"),
        b'C' => named("CUF", "ECMA-48 8.3.20"),
        b'D' => named("CUB", "ECMA-48 8.3.18"),
        b'G' => named("CHA", "ECMA-48 8.3.9"),
        b'H' => named("CUP", "ECMA-48 8.3.21"),
        b'd' => named("VPA", "ECMA-48 8.3.158"),
        b'f' => named("HVP", "ECMA-48 8.3.63"),
        _ => None,
    }
}

/// Functions on characters and lines that T has.
fn editing_name(last: u8) -> Option<FunctionName> {
    match last {
        b'@' => named("ICH", "ECMA-48 8.3.64"),
        b'J' => named("ED", "ECMA-48 8.3.39"),
        b'K' => named("EL", "ECMA-48 8.3.41"),
        b'L' => named("IL", "ECMA-48 8.3.67"),
        b'M' => named("DL", "ECMA-48 8.3.32"),
        b'P' => named("DCH", "ECMA-48 8.3.26"),
        b'S' => named("SU", "ECMA-48 8.3.147"),
        b'T' => named("SD", "ECMA-48 8.3.113"),
        b'X' => named("ECH", "ECMA-48 8.3.38"),
        _ => None,
    }
}

/// Questions, tabs, printers and windows.
fn device_name(last: u8) -> Option<FunctionName> {
    match last {
        b'c' => named("DA", "ECMA-48 8.3.24"),
        b'g' => named("TBC", "ECMA-48 8.3.154"),
        b'h' => named("SM", "ECMA-48 8.3.125"),
        b'i' => named("MC", "ECMA-48 8.3.82"),
        b'l' => named("RM", "ECMA-48 8.3.106"),
        b'n' => named("DSR", "ECMA-48 8.3.35"),
        b'q' => named("DECLL", "VT100"),
        b't' => named("XTWINOPS", "xterm, ctlseqs"),
        b'x' => named("DECREQTPARM", "VT100"),
        b'y' => named("DECTST", "VT100"),
        _ => None,
    }
}

/// Control sequences with a private mark or an intermediate byte.
fn marked_name(mark: u8, last: u8) -> Option<FunctionName> {
    match (mark, last) {
        (b' ', b'@') => named("SL", "ECMA-48 8.3.121"),
        (b' ', b'A') => named("SR", "ECMA-48 8.3.135"),
        (b' ', b'q') => named("DECSCUSR", "VT510"),
        (b'!', b'p') => named("DECSTR", "VT510"),
        (b'"', b'p') => named("DECSCL", "VT510"),
        (b'"', b'q') => named("DECSCA", "VT510"),
        (b'$', b'p') => named("DECRQM", "VT510"),
        (b'?', b'J') => named("DECSED", "VT510"),
        (b'?', b'K') => named("DECSEL", "VT510"),
        (b'?', b'i') => named("MC", "VT510"),
        (b'?', b'n') => named("DSR", "VT510"),
        (b'?', b'm') => named("XTQMODKEYS", "xterm, ctlseqs"),
        (b'?', b'r') => named("XTRESTORE", "xterm, ctlseqs"),
        (b'?', b's') => named("XTSAVE", "xterm, ctlseqs"),
        _ => keyboard_name(mark, last),
    }
}

fn keyboard_name(mark: u8, last: u8) -> Option<FunctionName> {
    match (mark, last) {
        (b'>', b'c') => named("secondary DA", "VT510"),
        (b'=', b'c') => named("tertiary DA", "VT510"),
        (b'>', b'm') => named("XTMODKEYS", "xterm, ctlseqs"),
        (b'>', b'n') => named("XTMODKEYS off", "xterm, ctlseqs"),
        (b'>', b'q') => named("XTVERSION", "xterm, ctlseqs"),
        (b'>', b'p') => named("XTSMPOINTER", "xterm, ctlseqs"),
        (b'>', b't') => named("XTSMTITLE", "xterm, ctlseqs"),
        (b'#', b'p' | b'{') => named("XTPUSHSGR", "xterm, ctlseqs"),
        (b'#', b'q' | b'}') => named("XTPOPSGR", "xterm, ctlseqs"),
        _ => None,
    }
}

/// Escape sequences.
fn escape_name(behind: &[u8]) -> Option<FunctionName> {
    match behind {
        [b'7'] => named("DECSC", "VT100"),
        [b'8'] => named("DECRC", "VT100"),
        [b'='] => named("DECKPAM", "VT100"),
        [b'>'] => named("DECKPNM", "VT100"),
        [b'H'] => named("HTS", "ECMA-48 8.3.62"),
        [b'N'] => named("SS2", "ECMA-48 8.3.141"),
        [b'O'] => named("SS3", "ECMA-48 8.3.142"),
        [b'Z'] => named("DECID", "VT100"),
        [b'\\'] => named("ST", "ECMA-48 8.3.143"),
        [b'c'] => named("RIS", "ECMA-48 8.3.105"),
        [b'n'] => named("LS2", "ECMA-48 8.3.78"),
        [b'o'] => named("LS3", "ECMA-48 8.3.80"),
        [b'|'] => named("LS3R", "ECMA-48 8.3.81"),
        [b'}'] => named("LS2R", "ECMA-48 8.3.79"),
        [b'~'] => named("LS1R", "ECMA-48 8.3.77"),
        [b'#', line] => line_name(*line),
        [b'(' | b')' | b'*' | b'+' | b'-' | b'.' | b'/', ..] => named("SCS", "ECMA-35 14.3; VT510"),
        [b'%', _] => named("DOCS", "ECMA-35 15.4"),
        [b' ', _] => named("ACS", "ECMA-35 15.2"),
        _ => None,
    }
}

/// Sizes of lines, and the screen of E's.
fn line_name(line: u8) -> Option<FunctionName> {
    match line {
        b'3' | b'4' => named("DECDHL", "VT100"),
        b'5' => named("DECSWL", "VT100"),
        b'6' => named("DECDWL", "VT100"),
        b'8' => named("DECALN", "VT100"),
        _ => None,
    }
}

/// Numbers of SGR (ECMA-48 8.3.117; from 38 on beside 51 to 55 ISO 8613-6 and xterm).
fn rendition_name(number: u32) -> Option<FunctionName> {
    match number {
        3 => named("SGR 3, italic", "ECMA-48 8.3.117"),
        6 => named("SGR 6, rapidly blinking", "ECMA-48 8.3.117"),
        9 => named("SGR 9, crossed out", "ECMA-48 8.3.117"),
        10..=20 => named("SGR, a font", "ECMA-48 8.3.117"),
        21 => named("SGR 21, doubly underlined", "ECMA-48 8.3.117"),
        23 => named("SGR 23, not italic", "ECMA-48 8.3.117"),
        29 => named("SGR 29, not crossed out", "ECMA-48 8.3.117"),
        38 => named("SGR 38, a foreground of 256 or direct color", "ISO 8613-6"),
        48 => named("SGR 48, a background of 256 or direct color", "ISO 8613-6"),
        58 => named("SGR 58, the color of underlines", "xterm, ctlseqs"),
        90..=97 => named("SGR, a bright foreground", "xterm, ctlseqs"),
        100..=107 => named("SGR, a bright background", "xterm, ctlseqs"),
        _ => named("SGR", "ECMA-48 8.3.117"),
    }
}

/// Modes of ECMA-48.
fn mode_name(number: u32) -> Option<FunctionName> {
    match number {
        2 => named("KAM", "ECMA-48 7.2.11"),
        12 => named("SRM", "ECMA-48 7.2.15"),
        20 => named("LNM", "VT100"),
        _ => named("a mode", "ECMA-48 7.2"),
    }
}

/// Modes of DEC and of xterm.
fn private_mode_name(number: u32) -> Option<FunctionName> {
    match number {
        1 => named("DECCKM", "VT100"),
        2 => named("DECANM", "VT100"),
        3 => named("DECCOLM", "VT100"),
        4 => named("DECSCLM", "VT100"),
        5 => named("DECSCNM", "VT100"),
        6 => named("DECOM", "VT100"),
        8 => named("DECARM", "VT100"),
        18 => named("DECPFF", "VT510"),
        19 => named("DECPEX", "VT510"),
        42 => named("DECNRCM", "VT510"),
        66 => named("DECNKM", "VT510"),
        67 => named("DECBKM", "VT510"),
        69 => named("DECLRMM", "VT510"),
        _ => xterm_mode_name(number),
    }
}

/// Modes of xterm (ctlseqs, "DEC Private Mode Set").
fn xterm_mode_name(number: u32) -> Option<FunctionName> {
    match number {
        12 | 13 => named("a blinking cursor", "xterm, ctlseqs"),
        40 | 45 | 1034..=1045 => named("a mode of xterm", "xterm, ctlseqs"),
        47 | 1047 => named("the alternate screen", "xterm, ctlseqs"),
        1048 => named("the saved cursor", "xterm, ctlseqs"),
        1049 => named(
            "the alternate screen and the saved cursor",
            "xterm, ctlseqs",
        ),
        9 | 1000..=1003 | 1005..=1006 | 1015 | 1016 => named(
            "reports of the mouse",
            "xterm, ctlseqs",
        ),
        1004 => named("reports of the focus", "xterm, ctlseqs"),
        2004 => named("bracketed paste", "xterm, ctlseqs"),
        _ => named("a private mode", "xterm, ctlseqs"),
    }
}
