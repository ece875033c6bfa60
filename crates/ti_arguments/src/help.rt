//! The version, and the help texts.

/// The version of the program, the libraries and the packages; the scripts of `tools/` read it here.
pub const VERSION: &str = "1.0.0";

/// The program in one line.
pub const ABOUT: &str =
    "Checks terminal descriptions: what their strings do to a terminal, what their source says, and how they compile";

/// The help that all commands have in common.
pub const MORE: &str = "\
An ENTRY is FILE:NAME, a terminfo source file and the name of an entry in it (split at the last colon),
or FILE, a compiled terminfo file. A word that begins with `-` and is not an option is written after `--`.

A file that is read may be `-`, standard input, once in a command; a file of that name is `./-`. The entry NAME of
a source on standard input is `-:NAME`, after `--`:
  infocmp -1 xterm | ticurses check -- -:xterm 24 80

Exit status:
  0  done
  1  refused: standard error has a line `refused: KIND`, and then what explains it
  2  usage error
  3  a file could not be read or written (`file: PATH`), or standard output could not be written (`output`)
  4  out of memory (`no memory`)

`ticurses COMMAND --help` explains a command, its limits and each KIND, and shows an example.";

/// `expand` in one line.
pub const EXPAND: &str =
    "Expands a parameter string and shows where it leaves the cursor of a blank terminal";

/// `expand` in full.
pub const EXPAND_MORE: &str = "\
STRING is written in the escapes of terminfo source, as in '\\E[%i%p1%d;%p2%dH'.
A STRING or PARAM that begins with `-` is written after `--`.

The first line of the output is the bytes that the string sends, in hexadecimal; delays, as $<5>, are left
out. The second line is `cursor ROW COLUMN`: where the bytes leave the cursor of a blank terminal of this
size, both counted from 0.

With --cup a third line says whether the string serves as `cup`. `cup yes` means that for every row and
column, whatever was on the screen before, the string leaves the cursor there. `cup no ROW COLUMN` names the
first place, row by row, for which this could not be shown.

At most nine PARAMs are used, and a parameter that is not given is 0.

Exit status: 0 done; 1 refused, with a line `refused: KIND` on standard error; 2 usage error; 3 standard
output could not be written; 4 out of memory.

KIND is one of:
  BadSize        ROWS is not 2 to 200, or COLS is not 2 to 500
  BadEscape      STRING ends with `\\` or `^`, or has a `^` before a comma
  TooLong        STRING is more than 4095 bytes
  BadCode        what follows a `%` is not a code
  BadNest        a conditional does not have the form `%? %t %e %;`
  Underflow      a code takes a value from the empty stack
  Overflow       a result does not fit into 32 bits
  BadChar        `%c` of a number that is not 0 to 255
  WrongKind      a text is given where a number is needed, or a number where a text is needed
  Stuck AT       the byte at AT, counted from 0, is neither printable ASCII nor part of a sequence
  Unfinished AT  the sequence that begins at AT, counted from 0, is not complete

Example:
  ticurses expand --cup '\\E[%i%p1%d;%p2%dH' 24 80 2 9";

/// `feed` in one line.
pub const FEED: &str = "Feeds a file to a blank terminal and shows its screen";

/// `feed` in full.
pub const FEED_MORE: &str = "\
The output is the rows of the screen, then the line `cursor ROW COLUMN`, both counted from 0 (with ` hidden`
where the cursor is not visible), then for each run of cells with attributes or colors a line
`look ROW COLUMN-COLUMN LETTERS`: B bold, D dim, U underlined, K blinking, R reverse, I invisible,
G line drawing, fN and bN the colors.

With --state there follow lines for the rest of the state: `pending` (yes, no), `margins FIRST LAST`, `autowrap` and
`insert` (on, off), `rendition` (LETTERS, or -), `g0` and `g1` (plain, graphic), `active` (g0, g1), and `open`: what has
come of a sequence that is not whole, in hexadecimal, or -. With --json the state is one JSON object with members of
these names.

Standard error has a line for each kind of sequence that T ignores, wholly or for one of its numbers, and how often it
came: `no effect: REP (CSI b) 15 times`; the screen may then differ from a real terminal's. After the first 50 kinds
one line counts all others. With --state these are lines `no-effect TIMES NAME (SEQUENCE)` after the state, and with
--json they are the items of the member `no_effect`.

With --cases each line of the file is a case: a name, a space, and bytes in hexadecimal, or - for none. The output has
for each case the JSON object of the state that its bytes leave of a blank terminal, with the case's `name`; if its
bytes are stuck, also with `stuck`, the place, and the state is that of the bytes before it.

With --plain-text the file is a recording: strings (titles and other OSC, DCS, SOS, PM, APC) are dropped up to their
end, a character above 127 counts as `?`, and the lines `Script started on ..` and `Script done on ..` that script(1)
puts around it are left out. Standard error has the count of dropped bytes of strings.

Exit status: 0 done; 1 refused, with a line `refused: KIND` on standard error; 2 usage error; 3 the file
could not be read or has more than 16777216 bytes, or standard output could not be written; 4 out of memory.

KIND is one of:
  BadSize          ROWS is not 2 to 200, or COLS is not 2 to 500
  Stuck AT         the byte at AT, counted from 0, is neither 7-bit text nor part of a sequence
  line N: BadLine  with --cases: this line of the file is no case

Example:
  ticurses feed 24 80 sent.bytes
  TERM=vt100 script -q -c 'stty rows 24 cols 80; less text.txt' typescript
  ticurses feed --plain-text 24 80 typescript";

/// `tic` in one line.
pub const TIC: &str = "Reads an entry, reports what is odd in its source, and compiles it";

/// `tic` in full, with the causes for which a source or a compiled file is refused.
pub const TIC_MORE: &str = "\
Standard error gets a line `note line N: KIND` for each odd place of the whole source file: UnknownName (the
field is left out), Duplicate (the first value counts), OddEscape (`\\x` stands for `x`). Without --out nothing
is written. With --out the file is written whole or not at all.

A source file has at most 16777216 bytes, its names and each string at most 4095. A compiled file that is read
has at most 131072 bytes; one that is written has at most 4096, or 32768 where a number is above 32767.

With --join, which check, infocmp, survey, tic and verify take, a field of a source may continue on further lines: where
a line ends before the comma of its field, and the next one begins with a space or a tab and is neither blank nor a
comment, the next line goes on in the field, without its leading white space. Each place is given by the lines of the
file: with a column it is the place of that byte, and without one, as that of a note, the first of the lines that were
joined. The text that `check --fix --join` writes has each field on one line, and blank lines in place of those that
went on in it. A compiled file, and a certificate, is read as it is.

With --with FILE, which the same commands take, as often as there are files, an entry of a source may use those of other
files too: a name leads to the first entry that has it, in the entry's own file or else in these, in order. Such a FILE
is a source, or a compiled file, whose entry is one that gives each of its values itself. Each place names the file that
it is in; a compiled file has no lines. Notes and hints are those of the entry's own file. If one of these files can't
be read, or has a fault, the command is refused. `survey` reads each entry of these files by itself, and lists those of
its own files alone. A compiled ENTRY uses no other, and the files are not read.

Exit status: 0 done; 1 refused, with a line `refused: KIND` on standard error; 2 usage error; 3 a file could
not be read or written, or is too long; 4 out of memory.

KIND is one of, for a source file (with `line N:` before it):
  NoName       white space before any entry, an empty first name, or a byte below 32 in the names
  WrongKind    a field has the form of another kind, as `cols=80`
  BadNumber    a number is not decimal, 0x hexadecimal or 0 octal
  NumberRange  a number is above 2147483647
  OpenField    a line ends before the comma of its field; --join lets the field go on
  BadEscape    a `\\` or `^` ends its field or line
  TooLong      the names or a string have more than 4095 bytes
for an entry of it:
  NoSuchEntry NAME  no entry has this name; --with names files that have more
  Cycle NAME        the entry uses itself, perhaps through others
  TooMany NAME      more than 64 other entries are used
for a compiled file:
  BadMagic   it does not begin with 1a 01 or 1e 02
  Short      it ends within its header or a section
  BadCount   a size is negative, or there are too many flags, numbers or strings
  BadFlag, BadNumber, BadOffset  a value that the format does not allow
  NoNul      the names or a string are not ended by a 0
  BadNames   a source file can't have these names
  TooLarge   a string is longer than 4095 bytes, or the file to be written is longer than its form allows

Example:
  ticurses tic my.ti:myterm --out myterm";

/// `infocmp` in one line.
pub const INFOCMP: &str = "Prints an entry, or compares two";

/// `infocmp` in full.
pub const INFOCMP_MORE: &str = "\
One ENTRY is printed with its uses resolved: its names, then its flags, numbers and strings, each kind in the
byte order of names. With -c or -n two entries are compared, and the output is a line for each name.

Exit status: 0 done; 1 refused, with a line `refused: KIND` on standard error; 2 usage error; 3 a file could
not be read or is too long, or standard output could not be written; 4 out of memory.

The limits and each KIND are those of `ticurses tic --help`.

Example:
  ticurses infocmp -c my.ti:myterm my.ti:other";

/// `check` in one line.
pub const CHECK: &str =
    "Checks an entry: writes its certificate, or says which string is wrong and what it does instead";

/// `check` in full.
pub const CHECK_MORE: &str = "\
The output is a certificate: for each checked string of the entry, and for all parameters that a terminal of this
size allows, the bytes that the string sends and what they do. There is one only if each of them does what programs
rely on, from every state in which programs send it. `ticurses verify` reads it. With --out it is written to FILE,
whole or not at all, and there is no output. A terminal as standard error has a further line with the bound of a
session: the most bytes that a refresh sends for each cell that differs, and once more, and the length of the way out of
an unknown state. With --out it also has a last line `yes, N lines`.

Standard error gets a line `note CAP HEX` for each sequence of the entry's strings, with the first parameters of each,
that the terminal ignores, or of which it ignores a number. There are none where a string can't be expanded, or doesn't
send text and whole sequences. Of an entry of a source, and of those that it uses, it gets a line `hint line N: NAME is
no capability` for each name that is none, and hints at names that the entry has twice, and at escapes without a
meaning. After a certificate, it also gets a line `advice CAP: ..` for each feature that the entry has a string for but
never shows: an attribute that sgr leaves out, colors without setaf, setab or op, acsc without smacs or rmacs, civis
without cnorm. Neither changes what is answered.

If there is no certificate, standard error has a line `refused: no CAP P..: CAUSE` with a capability and its parameters,
the first in the order of a certificate's lines. The lines below it say what the string sends for these parameters, from
which state of the terminal it goes wrong, what was wanted there, and what happens instead. If the library for C opens a
session without the strings at fault, the last line names what it leaves out: `a session leaves out CAP..`.

With --all there is no certificate. The output is all that is wrong: a line `no CAP P..: CAUSE` for what the entry as a
whole has or lacks (FlagOut, Absent, AcsByte), and one for each other capability that goes wrong, with the first of its
parameters for which it does; then conflicts between strings that are each right on their own, which mending the faults
above may resolve. Below each of an entry of a source is a line `FILE:LINE:COLUMN: CAP of NAME`, with the place of its
field and the first name of the entry that has it, through `use=`. Then comes the field itself, after four spaces, with
`^~~~` below the code, the control function or its parameter that is at fault, or below all of its value where none is
alone; with --join it comes as it is in the file, up to the line on which the marks begin, which go no further than that
line; and then the lines that explain the fault, after two spaces. The first of them is its grade: `grade: broken` for a
string that is wrong for any terminal, `contradicts` for one that the entry's own other strings speak against, `unknown`
for one that T can't judge or that sends a function which T hasn't, and else `wrong`. Where the standard's string would
be right in that place, with all others that are named taken too, the last of them is `CAP=STRING would be right on T`;
below the fault of smacs or rmacs there may be one for each of enacs, smacs and rmacs, which are right only together.
Where clear and cup are both at fault, standard error says instead that the entry seems to be for a terminal of another
kind. The last line is the number of faults, and then how many have which CAUSE. Standard error has the first of them
too, after `refused: `. If nothing is wrong, the output is `yes`. Standard error also gets advice on strings that aren't
checked but don't do on T what their names say, and a line `strings: ..` that counts those that were checked and those
that were not looked at.

With --json there is no certificate either. The output is JSON, an object on each line: what is wrong first, or with
--all one for each fault, or one with the verdict `yes`; then one with the verdict `advice` for each advice, and one
with the verdict `hint` for each hint. An entry that can't be obtained has one with the verdict `refused`. ticurses(1)
lists the members of an object; one that doesn't apply is null, or an empty list. Characters outside 32 to 126 are
escapes of JSON. The notes, the line `refused: ` and the exit status are those of the form without --json.

With --sarif the output is one file of SARIF 2.1.0, which code hosts show at the lines of FILE: a result for each object
of --json --all but a yes. ruleId is the rule. The level is error for faults of the grades broken and contradicts and
for what can't be read, warning for the grade wrong, and note for the grade unknown, for advice, for hints and where the
entry seems to be for a terminal of another kind. The message has the line of the fault, its explanation and the
suggestion. A result marks the whole field, and has a fix if a string is suggested that is right without others and the
grade isn't unknown.

With --fix there is no certificate. The output is the text of the source file in which strings that --all suggests are
taken: the field is replaced in its place, in the entry that --all names, and a missing one is added behind the last
field of the entry's own; nothing else of the text is changed, and with --join a field keeps its line breaks. A string
is taken if the entry has a certificate with it and the others, or if its fault is broken or contradicts. No entry of
the source changes but by a fault that it has itself, and one that stays at fault only by a fault of these two grades;
none gets a fault that it hadn't. With --standard strings are also taken for faults of the grade unknown. With --out
the text is written to FILE, whole or not at all; only here FILE may be the source itself. With --diff what differs is
written in place of the text, as `diff -u` prints it and patch(1) reads it. Standard error has a line `kept CAP:
REASON` for each string that isn't taken, with the entry that it would harm, or that it is of no use. The text is
judged again: standard error has a line `left: no CAP P..: CAUSE` for each fault that is left, and the first of them
after `refused: `. With --with the strings are taken in those files too, and --out names a folder: each file that has
changed is written there under its own name, or none is; two files of one name are refused, and a folder that isn't
there is made.

With --every-size the entry is judged at all sizes, and no ROWS and COLS are given. The output is `yes at every size`
where it has a certificate at each of them. Else standard error has `refused: no CAP P..: CAUSE`, as without it, and
below it the line `at ROWS COLS` with a size at which the entry has this fault, or `refused: Undecided CAP` where the
effect of a string depends on the size in a way that isn't judged. --all, --json, --sarif, --fix and --out are not for
--every-size.

A certificate has at most 67108864 bytes. The limits of a source file and of a compiled file are those of
`ticurses tic --help`.

Exit status: 0 done; 1 refused, with a line `refused: KIND` or `refused: no CAP P..: CAUSE` on standard error;
2 usage error; 3 a file could not be read or written, or is too long, or standard output could not be written;
4 out of memory.

CAUSE is one of:
  FlagOut      the entry has xmc, hc, gn or os, with which programs can't rely on what is on the screen
  Absent       it lacks clear, cup or sgr0
  AcsByte      acsc gives a line drawing character a partner that can't be printed
  Underflow, BadNest, BadCode, Overflow, BadChar, WrongKind
               the string can't be expanded with these parameters; `ticurses expand --help` explains each
  StaticRead   the string reads a static variable, %gA to %gZ, before it sets it
  Unfinished   what the string sends ends within a control sequence
  Stuck        what the string sends has a byte that is neither text nor part of a sequence
  BadLook      `sgr` with one attribute, or the string of one, turns on a rendition that is not its own; of acsc: the
               line drawing set can stay active, and the entry can't switch sets
  WrongEffect  from the state that is described the string doesn't do what it is for; of smacs and rmacs also: it
               activates the wrong character set
  NotTame      no single effect describes what is sent from all states; the string may be right
  NotShown     the effect is not the wanted one, but no state was found that shows it; the string may be right
  TooLong      with this line the certificate would have more than 67108864 bytes
  NoResync     what leads out of any state (smcup, enacs, sgr0, rmacs, csr and clear, one after another) doesn't begin
               with ESC; --all lists it only if one of these strings is right by itself
KIND is one of:
  BadSize      ROWS is not 2 to 200, or COLS is not 2 to 500
  NoSource     with --fix: the entry is that of a compiled file
  SeveralFiles  with --fix: there are files of --with, and no --out
and for the entry each KIND of `ticurses tic --help`.

Example:
  ticurses check my.ti:myterm 24 80 --out myterm.cert
  ticurses check --all my.ti:myterm 24 80
  ticurses check --fix my.ti:myterm 24 80 --out mended.ti
  ticurses check --all --json my.ti:myterm 24 80
  ticurses check --sarif my.ti:myterm 24 80";

/// `verify` in one line.
pub const VERIFY: &str =
    "Verifies a certificate: that each checked string of an entry does what programs rely on";

/// `verify` in full.
pub const VERIFY_MORE: &str = "\
The output is `yes` if the certificate CERT shows that the entry conforms on a terminal of this size: each checked
string, with all parameters in range and from every state in which programs send it, does what they rely on. It does
not matter who wrote the certificate. A certificate has at most 67108864 bytes, and is judged as it is read.
docs/CERTIFICATE.md explains its lines and words, and in which order they are judged.

Exit status: 0 done; 1 refused, with a line `refused: KIND` on standard error; 2 usage error; 3 a file could not
be read, or standard output could not be written; 4 out of memory.

KIND is one of, for the certificate (with `line N:` before it):
  BadLine          it is not a line that a certificate of this size has, or the text ends without `end`
  Missing CAP P..  the line of this capability and these parameters has to come here, or earlier
  OutOfOrder       it had to come earlier, or is there twice
  NotWhole         the bytes are not text and whole control sequences
  NotTame          no single effect describes the bytes in all states in which they are sent
  NotShown         the effect is not that of the bytes, or not the one that the capability has to have
  NoResync         the strings do not lead a terminal in an unknown state to a blank screen
  BadLook          an attribute looks like another one, or the line drawing set can stay active
for the certificate and the entry:
  Disagree CAP P..  the entry sends something else than the line of this capability and these parameters has, or
                    only one of the two has it; or no certificate is for an entry that has this flag or number, or
                    that lacks this string
for the size:
  BadSize  ROWS is not 2 to 200, or COLS is not 2 to 500
for the entry: each KIND of `ticurses tic --help`.

Example:
  ticurses verify my.ti:myterm 24 80 myterm.cert";

/// `play` in one line.
pub const PLAY: &str = "Plays a script of curses calls, and writes what it sends to the terminal";

/// `play` in full.
pub const PLAY_MORE: &str = "\
The calls of SCRIPT are played on a terminal of this size, which the entry drives as the certificate CERT shows. The
output is the bytes that the calls send; what a refresh sends is written before the next call, in one piece where it is
no more than 65536 bytes. A call that curses refuses does nothing, except that what a text wrote before its refusal
stays. The calls after it are played; `ticurses show` lists those that were refused.

A script has a call on each line: its name and its arguments, with one space between words. Empty lines and lines that
begin with `#` are skipped. The arguments are:
  w, s, d, new  the number of a window, 0 to 63, without a sign; 0 is the screen, and new is the window that is made
  cell          two lower case hexadecimal digits of a character, then perhaps `/` and attributes, then perhaps `:` and
                a color pair, 0 to 63: `41`, `20/R`, `2a/BU:3`
  line          a cell, or `-` for the usual line or corner
  A             attributes, or `-` for none: S standout, U underline, R reverse, K blink, D dim, B bold, I invisible,
                A line drawing
  f             0 or 1
  0             0
  TEXT          the rest of the line
  others        decimal numbers, -2147483648 to 2147483647: n is how many, y and x are a row and a column from 0 on,
                l and c are lines and columns

The calls are those of X/Open Curses:
  newwin new l c y x    makes a window with its corner at y x; of 0 lines or columns it goes to the edge of the screen
  newpad new l c        makes a pad, a window that is not on the screen
  subwin new w l c y x  makes a part of w, which has the same cells; y x is a place of the screen
  derwin new w l c y x  makes a part of w; y x is a place of w
  subpad new w l c y x  makes a part of the pad w; y x is a place of w
  dupwin new w          makes a copy of w with cells of its own
  delwin w              deletes w
  mvwin w y x           moves w to y x
  move w y x            moves the cursor of w
  addch w cell          writes a cell at the cursor
  addstr w TEXT         writes a text at the cursor
  insch w cell          inserts a cell before the cursor
  delch w               deletes the cell at the cursor
  insertln w            inserts a line above the cursor
  deleteln w            deletes the line of the cursor
  clrtoeol w            erases from the cursor to the end of its line
  clrtobot w            erases from the cursor to the end of w
  erase w               erases w, and moves its cursor to 0 0
  clear w               does the same, and has the next refresh of w paint the whole screen
  hline w line n        draws a horizontal line of n cells from the cursor
  vline w line n        draws a vertical line of n cells from the cursor
  border w line line line line line line line line
                        draws the left, right, top and bottom edge, and the top left, top right, bottom left and
                        bottom right corner
  box w line line       draws the vertical and the horizontal edges
  scroll w n            scrolls the scrolling region up by n lines, or down by -n
  setscrreg w t b       makes lines t to b the scrolling region
  attron w A            turns attributes on for what is written
  attroff w A           turns attributes off
  attrset w A           turns just these attributes on
  color_set w p         writes with color pair p
  init_pair p fg bg     makes color pair p, 1 to 63, of two colors, 0 to 7
  bkgdset w cell        sets the background, with which w is erased
  bkgd w cell           sets the background, and changes the cells that have the old one
  overlay s d           copies s over d, without its spaces, where they overlap on the screen
  overwrite s d         copies s over d where they overlap on the screen
  copywin s d sr sc dr dc er ec f
                        copies s from its place sr sc on over the lines dr to er and the columns dc to ec of d; with f 1
                        without its spaces
  scrollok w f          sets whether w scrolls where a text goes past its last line
  leaveok w f           sets whether the cursor may stay anywhere
  clearok w f           sets whether the next refresh of w paints the whole screen
  idlok w f             changes nothing
  touchwin w            changes nothing
  touchline w y n       changes nothing
  noutrefresh w         copies w to the virtual screen
  refresh w             copies w to the virtual screen, and makes the terminal show it
  doupdate              makes the terminal show the virtual screen
  pnoutrefresh w pr pc sr sc er ec
                        copies the pad w, from its place pr pc on, to the lines sr to er and the columns sc to ec of the
                        virtual screen
  prefresh w pr pc sr sc er ec
                        does the same, and makes the terminal show the virtual screen
  curs_set n            makes the cursor hidden (0), visible (1) or very visible (2)
  beep 0                rings the bell
  endwin                leaves the terminal as other programs want it

Exit status: 0 done; 1 refused, with a line `refused: KIND` on standard error; 2 usage error; 3 a file could not
be read or the script has more than 1048576 bytes, or standard output could not be written (reported
after the last call); 4 out of memory.

KIND is one of, for the script:
  line N: BadLine  the line is not a call with its arguments, and neither empty nor a comment that begins with `#`
for the size, the entry and the certificate: each KIND of `ticurses verify --help`.

Example:
  printf 'addstr 0 hello\\nrefresh 0\\n' | ticurses play my.ti:myterm 24 80 myterm.cert -";

/// `show` in one line.
pub const SHOW: &str =
    "Plays a script of curses calls on the specified terminal, and shows its screen";

/// `show` in full.
pub const SHOW_MORE: &str = "\
SCRIPT, ENTRY and CERT are those of `ticurses play --help`. The output is a line `call N: NAME` for each call that
curses refused, calls being counted from 1 and NAME being the reason, and then the screen in the form of
`ticurses feed --help`.

NAME is one of:
  NoWindow     the number is not that of a window
  NumberUsed   the number is that of a window already
  Full         window numbers are 0 to 63, in any call
  OutOfWindow  the place or the part is not in the window
  OutOfScreen  the place or the part is not on the screen
  HasChildren  the window has subwindows
  IsSub        the window is a subwindow
  IsScreen     window 0 stays
  PadKind      the call takes no pad, or it takes only pads
  NoScroll     the text goes past the last line, and the window may not scroll
  BadRegion    a size, a range or a mode that does not exist
  BadCell      the byte cannot stand in a cell
  BadPair      pairs are 0 to 63, pair 0 cannot be changed, and colors are 0 to 7
  NoCap        the entry lacks the strings for it
  IsLost       what the terminal shows is not known
  NoMemory     out of memory

Exit status: as for `ticurses play`.

Example:
  ticurses show my.ti:myterm 24 80 myterm.cert my.script";

/// `survey` in one line.
pub const SURVEY: &str = "Checks all entries of some files: a line for each, and a line of counts";

/// `survey` in full.
pub const SURVEY_MORE: &str = "\
Each FILE is a source file, of which all entries are checked in their order, or a compiled file, which begins with
1a 01 or 1e 02. The output is a line for each entry, after its first name:
  NAME yes                   there is a certificate
  NAME no CAP P..: CAUSE     there is none; `ticurses check --help` explains each CAUSE
  NAME refused: KIND         the entry can't be read; `ticurses tic --help` explains each KIND
Each entry of a source is read by itself, from a line that begins in column one up to the next. One that can't be read,
and one that uses it, has the line `NAME refused: line N: KIND`; the others are checked. Of several that an entry uses,
the fault is that of the first to which its uses lead, where each use is followed to its end before the next one. A FILE
with a fault of its own has one line, `FILE refused: KIND`: a compiled file, or a source that is too long or has a fault
before its first entry. A source without entries has none. A byte outside 32 to 126 of a name is a backslash and three
octal digits. The last line is the number of the lines before it, and then how many got each answer.

With --all an entry that has no certificate has a line `NAME no CAP P..: CAUSE` for each of its faults, those that
`ticurses check --all` lists. One that is for a terminal of another kind has one line, `NAME no: OtherKind`. One that is
only there to be used by others, without `clear`, `cup` and `sgr0` or with a `+` in its first name, has no line, or with
--parts the line `NAME part`; the last line counts these apart, and --fail passes them. For each fault whose value is in
a source FILE, standard error has the line `FILE:LINE:COLUMN: CAP of ENTRY: NAME no CAP P..: CAUSE`, and below it the
field there, as `ticurses check --all` has it, and the line `grade: GRADE`; ENTRY is NAME, or an entry that it uses. A
fault that several entries have at one place is there once, with a line `in NAME, NAME..` of them all. A line
`grades: ..` counts all listed faults, and the line `opens N` the entries on which the library for C opens a session,
whole or without some strings; parts and entries for a terminal of another kind don't count. It also gets the hints of
`ticurses check`, each with `, in FILE` at its end.

With --json the output is a JSON object on a line of its own for each of these lines but the last, with the members of
`ticurses check --json`, and one for each advice, and with --all for each hint. In place of KIND the verdict is
`refused`, and cause has the KIND; line is that of the fault, and source_file the file that has it, which may be one of
--with. Where a use can't be followed, they are those of the use, and source_entry is the entry that has it.
entry is null where a FILE has a fault of its own, or can't be read, with the cause `file: FILE`.

With --sarif the output is one file of SARIF for all FILEs, as `ticurses check --help` describes it.

With --baseline FILE, which is for --json and --sarif, the objects that FILE has are left out: those of an earlier
output of --json, whatever lines they are on. An object that says the same of the same entry of the same file at the
same size counts as one. So the output is what is new. With --fail the status is 1 only if a new object is a fault or a
refusal. Standard error has a line that says how many faults and refusals of FILE are gone. A FILE with a line that is
no such object can't be read.

With --every-size each entry is judged at all sizes, and no ROWS and COLS are given. The lines are `NAME yes`, `NAME no
CAP P..: CAUSE at ROWS COLS`, `NAME undecided CAP` and those of what can't be read, and the last line counts them.
--all, --json, --sarif, --baseline and --fix are not for --every-size.

With --fail the status is 1 if an answer isn't yes, with the line `refused: Faulty` on standard error. The output is the
same.

With --fix the output is the text of the one FILE, a source file, in which strings that --all suggests for its entries
are taken by the rules of `ticurses check --help`; nothing else of the text is changed, and a second run changes
nothing. With --out it is written to the file named there, whole or not at all, which may be FILE itself; with --diff
what differs is written, and --standard is as for check. For each of these strings that isn't taken standard error has
a line `kept CAP of NAME: REASON`. The text is judged again: standard error has a line `left: NAME no CAP P..: CAUSE`
for each fault that is left, and `left: NAME refused: KIND` for an entry that can't be resolved. An entry that can't be
read refuses the text. With --fail the status is 1 if something is left. With --with the strings for the entries of
FILE are taken in those files too, and --out names a folder, as for `ticurses check --fix`; a line without --out and
--diff is refused.

A FILE has at most 16777216 bytes. One that can't be read has no line, and the others are checked all the same.

Exit status: 0 done, whatever the answers are without --fail; 1 refused, with a line `refused: BadSize` on standard
error, or `refused: Faulty` with --fail, or with --fix `refused: line N: KIND`, or `refused: SeveralFiles` if there are
files of --with and no --out; 2 usage error; 3 a file could not be read or is too long (`file: PATH` names the first),
or a text or standard output could not be written; 4 out of memory.

Example:
  ticurses survey 24 80 my.ti /usr/share/terminfo/*/*
  ticurses survey --every-size my.ti
  ticurses survey --all --fail 24 80 my.ti
  ticurses survey --fix 24 80 my.ti --out mended.ti
  ticurses survey --fix --diff 24 80 my.ti | patch
  ticurses survey --json 24 80 my.ti
  ticurses survey --sarif --baseline old.json 24 80 my.ti";
