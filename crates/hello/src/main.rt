//! `hello SOURCE NAME ROWS COLS CERTIFICATE` shows a greeting in a window, with the strings of the
//! entry NAME of the file SOURCE, which the certificate must be for; waits for a line on standard
//! input; and ends the screen.
#![tactic(auto)]

mod console;
mod greeting;

use anyhow::{Result, anyhow, bail};
use console::Console;
use curses::{Checked, Size, read, resolve, verify};
use greeting::greet;
use std::io::BufWriter;
use std::rt::{Env, Files};
use std::{env, fs};

fn main(rt: HostRuntime) -> Result<()> {
    let words: Vec<String> = env::args(&rt)?.skip(1).collect(rt.alloc())?;
    let checked = checked_by(&rt, words.as_slice())?;
    let mut wire = Console::new(BufWriter::new(rt.alloc(), rt.stdout())?);
    let mut painter = greet(rt.alloc(), checked, &mut wire)?;
    wire.flush()?;
    rt.read_line(&mut String::new(rt.alloc()))?;
    painter.finish(&mut wire)?;
    wire.flush()?;
    Ok(())
}

/// The strings of the entry that the words name, for the size that they name.
fn checked_by<R: Files + AllocGlobal>(rt: &R, words: &[String]) -> Result<Checked> {
    let [source, name, rows, cols, certificate] = words else {
        bail!("its words are SOURCE NAME ROWS COLS CERTIFICATE");
    };
    let Some(size) = Size::new(rows.parse()?, cols.parse()?) else {
        bail!("2 to 200 rows and 2 to 500 columns are a terminal's size");
    };
    let entries = read(rt.alloc(), fs::read(rt, source)?.as_slice())?;
    let entry = resolve(rt.alloc(), entries.as_slice(), name.as_bytes())?;
    let text = fs::read(rt, certificate)?;
    verify(rt.alloc(), &entry, size, text.as_slice()).map_err(|fault| anyhow!("{fault:?}"))
}
