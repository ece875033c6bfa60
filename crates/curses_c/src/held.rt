//! The content of an open handle: a session, and the bytes that wait to be taken.
ghost use Rattle.std.specs.Prelude.{◌≡◌, ◌++◌, IfOk, drop, take};
ghost use Rattle.cur_scripts.specs.declared.calls.Call.TheVariants.{Addstr, Attributes, Cell, Number, Numbers};
ghost use Rattle.cur_scripts.specs.declared.groups.CellCall.TheVariants.{Addch};
ghost use Rattle.cur_scripts.specs.declared.groups.NumberCall.TheVariants.{ColorSet};
ghost use Rattle.cur_scripts.specs.declared.groups.NumbersCall.TheVariants.{Move};
ghost use Rattle.curses_c.specs.Codes as codes;
ghost use Rattle.curses_c.specs.Held.{CopiesLines, Does, Hands, Loses, Makes, MakesUpTo, Plays, Recolors, Says, Styles};
ghost use Rattle.curses_c.specs.Held.{IsBegun, fault_line, is_done, line_left, noting};

use crate::codes::{Failure, answer_code, failure_code, script_code};
use crate::lines::line_of;
use crate::outbox::Outbox;
use crate::requests::{Request, attrs_in, call_of};
use cur_drawing::{Attrs, Put};
use cur_play::{Answer, Session};
use cur_scripts::{AttrsCall, Call, ScriptFault, ScriptFaultKind, read_call, read_script};
use cur_update::cells_bounded;
use std::alloc::{AllocError, Global};
use std::slice;
use ti_cert::Checked;
use ti_conforms::Certificate;

/// A session, and the bytes that it sent and the program hasn't taken.
#[derive(Drop)]
pub struct Held {
    pub session: Session<Checked>,
    pub outbox: Outbox,
    /// The line, from 1, at which the last text of calls was left; 0 if all of it was done, or couldn't be read for
    /// want of memory.
    pub failed: usize,
    /// A line for each of the entry's capabilities that the session goes without.
    pub left_out: Vec<u8>,
}

/// How many calls were done, and the answer of the one after them; `Done` if all were done.
#[derive(Clone, Copy)]
pub struct Made {
    done: usize,
    answer: Answer,
}

impl Held {
    /// A session on the terminal of `checked` that has sent nothing, with the lines of what is left out. Fails if
    /// memory runs out.
    pub fn open(
        alloc: Global,
        checked: Checked,
        left_out: Vec<u8>,
    ) -> Result<Box<Held, Global>, AllocError>
        ensures begun { IfOk result (λ b. IsBegun b.value) }
        ensures certificate { IfOk result (λ b. b.value.session.painter.checked ≡ checked) }
        ensures left_out { IfOk result (λ b. b.value.left_out ≡ left_out) }
    {
        // only this call's contract says that the certificate is verified
        let _rows = checked.rows();
        Ok(Box::new(
            alloc,
            Held {
                session: Session::open(alloc, checked)?,
                outbox: Outbox::new(alloc),
                failed: 0,
                left_out,
            },
        )?)
    }

    /// Does `call`; what it sends waits in the outbox.
    pub fn call(&mut self, call: &Call<'_>) -> Answer
        ensures makes { Makes self.old call.now result self.new }
        ensures failed { (self.new).failed ≡ (self.old).failed }
    {
        self.session.call(call, &mut self.outbox)
    }

    /// Does `addstr` in `window`, with any bytes as `text`.
    pub fn addstr(&mut self, window: usize, text: &[u8]) -> Answer
        ensures makes { Makes self.old (Addstr window text.now) result self.new }
        ensures failed { (self.new).failed ≡ (self.old).failed }
    {
        cells_bounded();
        self.session.addstr(window, text)
    }

    /// Does `addch` of `put` in `window`.
    pub fn addch(&mut self, window: usize, put: Put) -> Answer
        ensures makes { Makes self.old (Cell Addch window put) result self.new }
        ensures failed { (self.new).failed ≡ (self.old).failed }
    {
        cells_bounded();
        self.session.addch(window, put)
    }

    /// Does `move` in `window`.
    pub fn move_to(&mut self, window: usize, row: i32, col: i32) -> Answer
        ensures makes { Makes self.old (Numbers Move window row col) result self.new }
        ensures failed { (self.new).failed ≡ (self.old).failed }
    {
        cells_bounded();
        self.session.move_to(window, row, col)
    }

    /// Does `color_set` of `pair` in `window`.
    pub fn color_set(&mut self, window: usize, pair: i32) -> Answer
        ensures makes { Makes self.old (Number ColorSet window pair) result self.new }
        ensures failed { (self.new).failed ≡ (self.old).failed }
    {
        cells_bounded();
        self.session.color_set(window, pair)
    }

    /// Does `attron`, `attroff` or `attrset` in `window`.
    fn styled(&mut self, call: AttrsCall, window: usize, attrs: Attrs) -> Answer
        ensures makes { Makes self.old (Attributes call window attrs) result self.new }
        ensures failed { (self.new).failed ≡ (self.old).failed }
    {
        cells_bounded();
        self.session.attributes(call, window, attrs)
    }

    /// Does `attron`, `attroff` or `attrset` in `window`, and gives the number of its answer; if `attrs` isn't 0 to
    /// 255, that of `BadCall`.
    pub fn attributes(&mut self, call: AttrsCall, window: usize, attrs: i32) -> i32
        ensures { Styles call window attrs self.old result self.new }
    {
        match attrs_in(attrs) {
            Some(attrs) => answer_code(self.styled(call, window, attrs)),
            None => failure_code(Failure::BadCall),
        }
    }

    /// Does the call that `request` encodes, and gives the number of its answer; if it encodes none, that of `BadCall`.
    pub fn make(&mut self, request: &Request) -> i32
        ensures { Does request.now self.old result self.new }
    {
        match call_of(request) {
            Some(call) => answer_code(self.call(&call)),
            None => failure_code(Failure::BadCall),
        }
    }

    /// Sets the colors of `pair`; -1 as `foreground` or `background` is the terminal's default color.
    pub fn init_pair_or_default(&mut self, pair: i32, foreground: i32, background: i32) -> Answer
        ensures { Recolors pair foreground background self.old result self.new }
    {
        self.session
            .init_pair_or_default(pair, foreground, background)
    }

    /// Copies the lines `top` to `bottom` of `window` to the virtual screen, as `noutrefresh` copies all of its lines.
    pub fn noutrefresh_lines(&mut self, window: usize, top: i32, bottom: i32) -> Answer
        ensures { CopiesLines window top bottom self.old result self.new }
    {
        self.session.noutrefresh_lines(window, top, bottom)
    }

    /// Does `calls` up to the first that isn't done.
    fn calls(&mut self, calls: &[Call<'_>]) -> Made
        ensures { MakesUpTo self.old calls.now result.done result.answer self.new }
    {
        let mut done = 0;
        for call in calls {
            let answer = self.call(call);
            if !is_done(answer) {
                return Made { done, answer };
            }
            done += 1;
        }
        Made {
            done,
            answer: Answer::Done,
        }
    }

    /// Does the calls of the script `text` up to the first that isn't done, and gives the number of its answer.
    pub fn script(&mut self, alloc: Global, text: &[u8]) -> i32
        ensures { Says text.now self.old result self.new }
    {
        // most scripts of a program are one call, for which no memory is taken
        if let Some(call) = read_call(text) {
            return self.play(text, slice::from_ref(&call));
        }
        match read_script(alloc, text) {
            Ok(calls) => self.play(text, calls.as_slice()),
            Err(fault) => self.refuse(fault),
        }
    }

    /// Does the `calls` of `text` up to the first that isn't done, notes its line, and gives the number of its answer.
    fn play(&mut self, text: &[u8], calls: &[Call<'_>]) -> i32
        ensures { Plays text.now calls.now self.old result self.new }
    {
        let made = self.calls(calls);
        self.failed = line_left(text, made);
        answer_code(made.answer)
    }

    /// Notes the line of `fault`, and gives its number.
    fn refuse(&mut self, fault: ScriptFault) -> i32
        ensures line { self.new ≡ noting (fault_line fault.kind fault.line) self.old }
        ensures code { result ≡ codes.script_code fault.kind }
    {
        self.failed = match fault.kind {
            ScriptFaultKind::BadLine | ScriptFaultKind::TooLong => fault.line as usize,
            ScriptFaultKind::NoMemory => 0,
        };
        script_code(fault.kind)
    }

    /// Moves the first of the waiting bytes to the start of `room`, as many as it has room for, and gives their number.
    pub fn take_into(&mut self, room: &mut [u8]) -> usize
        ensures hands { Hands self.old room.old result self.new }
        ensures room { room.new ≡ take result (self.old).outbox.waiting ++ drop result room.old }
    {
        self.outbox.take_into(room)
    }

    /// Throws away the waiting bytes and makes the session lost, since not all sent bytes reached the terminal.
    pub fn lose(&mut self)
        ensures { Loses self.old self.new }
    {
        self.outbox.clear();
        self.session.lose();
    }
}

/// The line in `text` of the call that `made` didn't do; 0 if all were done.
fn line_left(text: &[u8], made: Made) -> usize
    ensures { result ≡ line_left text.now made.done made.answer }
{
    if is_done(made.answer) {
        0
    } else {
        line_of(text, made.done)
    }
}

/// Whether `answer` is that of a call that was done.
fn is_done(answer: Answer) -> bool
    ensures { result ≡ is_done answer }
{
    match answer {
        Answer::Done => true,
        Answer::Was(_) => true,
        Answer::Refused(_) => false,
        Answer::WireFailed => false,
    }
}
