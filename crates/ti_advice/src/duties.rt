//! The strings that programs send without asking, and what each name means on T.

ghost use Rattle.std.specs.Prelude.{◌≡◌, option_copied};
ghost use Rattle.ti_advice.specs.Duties as spec;

/// A string that programs send, and what its name means on T.
#[derive(Clone, Copy, Debug, PartialEq, Eq)]
pub enum Duty {
    /// `smul`. Underlining begins (ECMA-48 8.3.117, parameter 4).
    Smul,
    /// `rev`. Reverse begins (ECMA-48 8.3.117, parameter 7).
    Rev,
    /// `blink`. Blinking begins (ECMA-48 8.3.117, parameter 5).
    Blink,
    /// `dim`. Faint text begins (ECMA-48 8.3.117, parameter 2).
    Dim,
    /// `bold`. Bold text begins (ECMA-48 8.3.117, parameter 1).
    Bold,
    /// `invis`. Concealed text begins (ECMA-48 8.3.117, parameter 8).
    Invis,
    /// `smso`. Standout begins: any marks may go on, and none goes off (terminfo(5), "Highlighting").
    Smso,
    /// `rmul`. The mark that `smul` began ends (ECMA-48 8.3.117, parameter 0).
    Rmul,
    /// `rmso`. The mark that `smso` began ends (ECMA-48 8.3.117, parameter 0).
    Rmso,
    /// `ich1`. A blank is inserted (ECMA-48 8.3.64).
    Ich1,
    /// `ich`. Blanks are inserted (ECMA-48 8.3.64).
    Ich,
    /// `dch1`. A cell is deleted (ECMA-48 8.3.26).
    Dch1,
    /// `dch`. Cells are deleted (ECMA-48 8.3.26).
    Dch,
    /// `il1`. A line is inserted (ECMA-48 8.3.67).
    Il1,
    /// `il`. Lines are inserted (ECMA-48 8.3.67).
    Il,
    /// `dl1`. A line is deleted (ECMA-48 8.3.32).
    Dl1,
    /// `dl`. Lines are deleted (ECMA-48 8.3.32).
    Dl,
    /// `indn`. The lines scroll up (ECMA-48 8.3.147).
    Indn,
    /// `rin`. The lines scroll down (ECMA-48 8.3.113).
    Rin,
    /// `ht`. The cursor goes to the next tab stop (ECMA-48 8.3.60).
    Ht,
    /// `cbt`. T has no function that goes back to a tab stop (ECMA-48 8.3.7 has), so nothing changes.
    Cbt,
    /// `nel`. The cursor goes to the start of the next line (ECMA-48 8.3.86).
    Nel,
    /// `sc`. T saves no cursor (the VT100 does, by DECSC), so nothing changes.
    Sc,
    /// `rc`. T restores no cursor (the VT100 does, by DECRC), so nothing changes.
    Rc,
    /// `flash`. Nothing has changed in the end (terminfo(5), "Bells").
    Flash,
    /// `rmam`. Lines no longer wrap (VT100 user guide, DECAWM).
    Rmam,
    /// `smam`. Lines wrap (VT100 user guide, DECAWM).
    Smam,
    /// `smir`. Insertion begins (ECMA-48 7.2.10).
    Smir,
    /// `rmir`. Insertion ends (ECMA-48 7.2.10).
    Rmir,
    /// `smkx`. T has no keypad, so nothing changes.
    Smkx,
    /// `rmkx`. T has no keypad, so nothing changes.
    Rmkx,
}

/// The number of duties.
pub const DUTIES: usize = 31;

impl Duty {
    /// Every duty.
    pub fn all() -> [Duty; DUTIES]
        ensures { result ≡ spec.all }
    {
        [
            Duty::Smul,
            Duty::Rev,
            Duty::Blink,
            Duty::Dim,
            Duty::Bold,
            Duty::Invis,
            Duty::Smso,
            Duty::Rmul,
            Duty::Rmso,
            Duty::Ich1,
            Duty::Ich,
            Duty::Dch1,
            Duty::Dch,
            Duty::Il1,
            Duty::Il,
            Duty::Dl1,
            Duty::Dl,
            Duty::Indn,
            Duty::Rin,
            Duty::Ht,
            Duty::Cbt,
            Duty::Nel,
            Duty::Sc,
            Duty::Rc,
            Duty::Flash,
            Duty::Rmam,
            Duty::Smam,
            Duty::Smir,
            Duty::Rmir,
            Duty::Smkx,
            Duty::Rmkx,
        ]
    }

    /// The name of the string.
    pub fn name(self) -> &'static [u8]
        ensures { result.now ≡ spec.name self }
    {
        match self {
            Duty::Smul => b"smul",
            Duty::Rev => b"rev",
            Duty::Blink => b"blink",
            Duty::Dim => b"dim",
            Duty::Bold => b"bold",
            Duty::Invis => b"invis",
            Duty::Smso => b"smso",
            Duty::Rmul => b"rmul",
            Duty::Rmso => b"rmso",
            Duty::Ich1 => b"ich1",
            Duty::Ich => b"ich",
            Duty::Dch1 => b"dch1",
            Duty::Dch => b"dch",
            Duty::Il1 => b"il1",
            Duty::Il => b"il",
            Duty::Dl1 => b"dl1",
            Duty::Dl => b"dl",
            Duty::Indn => b"indn",
            Duty::Rin => b"rin",
            Duty::Ht => b"ht",
            Duty::Cbt => b"cbt",
            Duty::Nel => b"nel",
            Duty::Sc => b"sc",
            Duty::Rc => b"rc",
            Duty::Flash => b"flash",
            Duty::Rmam => b"rmam",
            Duty::Smam => b"smam",
            Duty::Smir => b"smir",
            Duty::Rmir => b"rmir",
            Duty::Smkx => b"smkx",
            Duty::Rmkx => b"rmkx",
        }
    }

    /// The number that the string is sent with; 0 for a string that takes none.
    pub fn number(self) -> u8
        ensures { result ≡ spec.number self }
    {
        match self {
            Duty::Smul | Duty::Rev | Duty::Blink | Duty::Dim => 0,
            Duty::Bold | Duty::Invis | Duty::Smso | Duty::Rmul => 0,
            Duty::Rmso | Duty::Ich1 | Duty::Dch1 | Duty::Il1 => 0,
            Duty::Dl1 | Duty::Ht | Duty::Cbt | Duty::Nel => 0,
            Duty::Sc | Duty::Rc | Duty::Flash | Duty::Rmam => 0,
            Duty::Smam | Duty::Smir | Duty::Rmir | Duty::Smkx => 0,
            Duty::Rmkx => 0,
            Duty::Ich | Duty::Dch | Duty::Il | Duty::Dl => 2,
            Duty::Indn | Duty::Rin => 2,
        }
    }

    /// The name of the string that begins what this one ends, if its own words are sent before.
    pub fn begun(self) -> Option<&'static [u8]>
        ensures { option_copied result ≡ spec.begun self }
    {
        match self {
            Duty::Smul | Duty::Rev | Duty::Blink | Duty::Dim => None,
            Duty::Bold | Duty::Invis | Duty::Smso | Duty::Ich1 => None,
            Duty::Ich | Duty::Dch1 | Duty::Dch | Duty::Il1 => None,
            Duty::Il | Duty::Dl1 | Duty::Dl | Duty::Indn => None,
            Duty::Rin | Duty::Ht | Duty::Cbt | Duty::Nel => None,
            Duty::Sc | Duty::Rc | Duty::Flash | Duty::Rmam => None,
            Duty::Smam | Duty::Smir | Duty::Rmir | Duty::Smkx => None,
            Duty::Rmkx => None,
            Duty::Rmul => Some(b"smul"),
            Duty::Rmso => Some(b"smso"),
        }
    }

    /// The bytes that lead to the place from which the string is sent.
    pub(crate) fn start(self) -> &'static [u8]
        ensures { result.now ≡ spec.start self }
    {
        match self {
            Duty::Smul | Duty::Rev | Duty::Blink | Duty::Dim => b"",
            Duty::Bold | Duty::Invis | Duty::Rmul | Duty::Rmso => b"",
            Duty::Smso => b"\x1b[1;2;4;5;7;8;31;42m",
            Duty::Ich1 | Duty::Ich | Duty::Dch1 | Duty::Dch => b"\x1b[3;4H",
            Duty::Smir => b"\x1b[3;4H",
            Duty::Il1 | Duty::Il | Duty::Dl1 | Duty::Dl => b"\x1b[3H",
            Duty::Indn => b"\x1b[5H",
            Duty::Rin => b"\x1b[1H",
            Duty::Ht => b"\x1b[3;3H",
            Duty::Cbt | Duty::Nel | Duty::Sc | Duty::Rc => b"\x1b[3;6H",
            Duty::Flash | Duty::Smkx | Duty::Rmkx => b"\x1b[3;6H",
            Duty::Rmam => b"\x1b[3;9H",
            Duty::Smam => b"\x1b[?7l\x1b[3;9H",
            Duty::Rmir => b"\x1b[4h\x1b[3;4H",
        }
    }

    /// Whether the string begins a mark, and is sent again while every mark is on.
    pub fn is_mark(self) -> bool
        ensures { result ≡ spec.is_mark self }
    {
        match self {
            Duty::Smul | Duty::Rev | Duty::Blink | Duty::Dim => true,
            Duty::Bold | Duty::Invis => true,
            Duty::Smso | Duty::Rmul | Duty::Rmso | Duty::Ich1 => false,
            Duty::Ich | Duty::Dch1 | Duty::Dch | Duty::Il1 => false,
            Duty::Il | Duty::Dl1 | Duty::Dl | Duty::Indn => false,
            Duty::Rin | Duty::Ht | Duty::Cbt | Duty::Nel => false,
            Duty::Sc | Duty::Rc | Duty::Flash | Duty::Rmam => false,
            Duty::Smam | Duty::Smir | Duty::Rmir | Duty::Smkx => false,
            Duty::Rmkx => false,
        }
    }

    /// The bytes that do on T what the name means.
    pub fn standard(self) -> &'static [u8]
        ensures { result.now ≡ spec.standard self }
    {
        match self {
            Duty::Smul => b"\x1b[4m",
            Duty::Rev => b"\x1b[7m",
            Duty::Blink => b"\x1b[5m",
            Duty::Dim => b"\x1b[2m",
            Duty::Bold => b"\x1b[1m",
            Duty::Invis => b"\x1b[8m",
            Duty::Smso | Duty::Cbt | Duty::Sc | Duty::Rc => b"",
            Duty::Flash | Duty::Smkx | Duty::Rmkx => b"",
            Duty::Rmul | Duty::Rmso => b"\x1b[m",
            Duty::Ich1 => b"\x1b[@",
            Duty::Ich => b"\x1b[2@",
            Duty::Dch1 => b"\x1b[P",
            Duty::Dch => b"\x1b[2P",
            Duty::Il1 => b"\x1b[L",
            Duty::Il => b"\x1b[2L",
            Duty::Dl1 => b"\x1b[M",
            Duty::Dl => b"\x1b[2M",
            Duty::Indn => b"\x1b[2S",
            Duty::Rin => b"\x1b[2T",
            Duty::Ht => b"\t",
            Duty::Nel => b"\r\n",
            Duty::Rmam => b"\x1b[?7l",
            Duty::Smam => b"\x1b[?7h",
            Duty::Smir => b"\x1b[4h",
            Duty::Rmir => b"\x1b[4l",
        }
    }
}
