//! `ticurses`: checks terminal descriptions.
#![tactic(auto)]

mod batches;
mod collected;
mod counted;
mod forms;
mod hints;
mod mended;
mod originals;
mod progress;
mod run;
mod stored;

use std::env;
use std::io::ErrorKind;
use std::process::ExitCode;
use std::rt::Env;
use stored::Stored;
use ti_files::{Failure, Remarks, report, usage_error};

/// Runs `command` on the words of the line, the system's files with standard input, standard output
/// and standard error.
fn main(rt: HostRuntime) -> ExitCode {
    ExitCode::from(match words_of(&rt) {
        Ok(words) => run::command(
            rt.alloc(),
            words.as_slice(),
            &mut Stored::new(rt.alloc(), &rt, rt.stdin()),
            &mut rt.stdout(),
            &mut rt.stderr(),
        ),
        Err(failure) => report(&failure, &Remarks::new(rt.alloc()), &mut rt.stderr()),
    })
}

/// The words after the program's own name. A word that isn't UTF-8 is a usage error: the parser of the line and the
/// calls on files take text alone.
fn words_of(rt: &HostRuntime) -> Result<Vec<String>, Failure> {
    match env::args(rt) {
        Ok(words) => Ok(words.skip(1).collect(rt.alloc())?),
        Err(error) if error.kind() == ErrorKind::InvalidData => {
            Err(usage_error(rt.alloc(), NOT_UTF_8))
        }
        Err(_) => Err(Failure::NoMemory),
    }
}

const NOT_UTF_8: &str = "error: a word of the command line is not UTF-8 text\n\n\
                         For more information, try '--help'.\n";
