//! The commands and their words, as tables, and the parser that is made of them.

use crate::help;
use clap::{Arg, ArgAction, Command};
use std::alloc::{AllocError, Global};

/// The sizes of a terminal that a line is about.
#[derive(Clone, Copy)]
pub enum Sizes {
    /// The one that `check` and `survey` are given.
    One,
    /// All, by `--every-size`: `check` and `survey` are given none.
    Every,
}

/// An argument of a command: how it is written, its name and its help.
#[derive(Clone, Copy)]
enum Argument {
    /// One word.
    Word(&'static str, &'static str),
    /// One word or more.
    Words(&'static str, &'static str),
    /// Any number of words.
    AnyWords(&'static str, &'static str),
    /// A switch of one dash and the letter.
    Letter(&'static str, char, &'static str),
    /// A switch of two dashes and the name.
    Switch(&'static str, &'static str),
    /// An option of two dashes and the name, with a path.
    Path(&'static str, &'static str),
    /// An option with a path that may be repeated.
    Paths(&'static str, &'static str),
}

/// A command: its name, its help above and below the list of its arguments, and these in the order of that list.
#[derive(Clone, Copy)]
struct CommandWords {
    name: &'static str,
    about: &'static str,
    more: &'static str,
    arguments: &'static [Argument],
}

const ROWS: Argument = Argument::Word("ROWS", "The terminal's rows, 2 to 200");

const COLS: Argument = Argument::Word("COLS", "The terminal's columns, 2 to 500");

const AN_ENTRY: &str = "FILE:NAME of a source file, or a compiled FILE";

const ENTRY: Argument = Argument::Word("ENTRY", AN_ENTRY);

const CERT: Argument = Argument::Word("CERT", "The entry's certificate");

const SCRIPT: Argument = Argument::Word("SCRIPT", "The calls, one a line, at most 1048576 bytes");

const JOIN: Argument = Argument::Switch(
    "join",
    "Read a field of a source that continues on further lines as one",
);

const WITH: Argument = Argument::Paths(
    "with",
    "Take entries that `use=` names and FILE doesn't have from this file too; several, in order",
);

const SARIF: Argument = Argument::Switch(
    "sarif",
    "Report all faults as SARIF, which code hosts display at the lines",
);

const FIX: Argument = Argument::Switch(
    "fix",
    "Write the source text with the suggested strings in it, and nothing else",
);

const STANDARD: Argument = Argument::Switch(
    "standard",
    "With --fix, take the standard's strings also for strings that T can't judge",
);

const DIFF: Argument = Argument::Switch(
    "diff",
    "With --fix, write what differs, for patch, in place of the text",
);

const FAIL: Argument = Argument::Switch(
    "fail",
    "End with status 1 if an entry has a fault or can't be read",
);

const FILES: Argument = Argument::Words(
    "FILE",
    "A source file, all entries of which are checked, or a compiled file",
);

const EVERY_SIZE: Argument = Argument::Switch(
    "every-size",
    "Judge at all sizes, 2 to 200 rows and 2 to 500 columns; no ROWS and COLS are given",
);

const EXPAND: &[Argument] = &[
    Argument::Switch("cup", "Also report whether the string serves as `cup`"),
    Argument::Word(
        "STRING",
        "The parameter string, in the escapes of terminfo source",
    ),
    ROWS,
    COLS,
    Argument::AnyWords(
        "PARAM",
        "The string's parameters: decimal numbers up to 2147483647, or s:TEXT",
    ),
];

const FEED: &[Argument] = &[
    Argument::Switch(
        "state",
        "Show the whole state: also modes, margins, rendition and what is open of a sequence",
    ),
    Argument::Switch("json", "Show the whole state as a JSON object"),
    Argument::Switch(
        "cases",
        "Read a case from each line, and show the state after each as a JSON object a line",
    ),
    Argument::Switch(
        "plain-text",
        "Drop strings such as titles, and show characters above 127 as question marks",
    ),
    ROWS,
    COLS,
    Argument::Word("FILE", "The bytes to feed, at most 16777216"),
];

const TIC: &[Argument] = &[
    JOIN,
    WITH,
    Argument::Path("out", "Write the entry's compiled form to this file"),
    ENTRY,
];

const INFOCMP: &[Argument] = &[
    Argument::Letter(
        "c",
        'c',
        "List the capabilities that both entries have with equal values",
    ),
    Argument::Letter("n", 'n', "List the capabilities that neither entry has"),
    JOIN,
    WITH,
    Argument::Words("ENTRY", AN_ENTRY),
];

const CHECK: &[Argument] = &[
    Argument::Switch(
        "all",
        "List all faults of the entry, and write no certificate",
    ),
    Argument::Switch(
        "json",
        "Report in JSON, an object on each line, and write no certificate",
    ),
    SARIF,
    FIX,
    STANDARD,
    DIFF,
    EVERY_SIZE,
    JOIN,
    WITH,
    Argument::Path(
        "out",
        "Write the certificate, or the text of --fix, to this file",
    ),
    ENTRY,
    ROWS,
    COLS,
];

/// The arguments of `check --every-size`.
const CHECK_SIZES: &[Argument] = &[EVERY_SIZE, JOIN, WITH, ENTRY];

const VERIFY: &[Argument] = &[
    JOIN,
    WITH,
    ENTRY,
    ROWS,
    COLS,
    Argument::Word("CERT", "The certificate"),
];

const SURVEY: &[Argument] = &[
    Argument::Switch("all", "List all faults of each entry, a line for each"),
    Argument::Switch("json", "Report in JSON, an object on each line"),
    SARIF,
    FAIL,
    Argument::Switch(
        "parts",
        "With --all, name the entries that are only there to be used",
    ),
    Argument::Path(
        "baseline",
        "With --json or --sarif, leave out what this earlier output of --json has",
    ),
    EVERY_SIZE,
    JOIN,
    WITH,
    FIX,
    STANDARD,
    DIFF,
    Argument::Path("out", "Write the text of --fix to this file"),
    ROWS,
    COLS,
    FILES,
];

/// The arguments of `survey --every-size`.
const SURVEY_SIZES: &[Argument] = &[FAIL, EVERY_SIZE, JOIN, WITH, FILES];

/// The arguments of `play` and `show`.
const RUN: &[Argument] = &[ENTRY, ROWS, COLS, CERT, SCRIPT];

fn expand_words() -> CommandWords {
    CommandWords {
        name: "expand",
        about: help::EXPAND,
        more: help::EXPAND_MORE,
        arguments: EXPAND,
    }
}

fn feed_words() -> CommandWords {
    CommandWords {
        name: "feed",
        about: help::FEED,
        more: help::FEED_MORE,
        arguments: FEED,
    }
}

fn tic_words() -> CommandWords {
    CommandWords {
        name: "tic",
        about: help::TIC,
        more: help::TIC_MORE,
        arguments: TIC,
    }
}

fn infocmp_words() -> CommandWords {
    CommandWords {
        name: "infocmp",
        about: help::INFOCMP,
        more: help::INFOCMP_MORE,
        arguments: INFOCMP,
    }
}

fn check_words(sizes: Sizes) -> CommandWords {
    CommandWords {
        name: "check",
        about: help::CHECK,
        more: help::CHECK_MORE,
        arguments: match sizes {
            Sizes::One => CHECK,
            Sizes::Every => CHECK_SIZES,
        },
    }
}

fn verify_words() -> CommandWords {
    CommandWords {
        name: "verify",
        about: help::VERIFY,
        more: help::VERIFY_MORE,
        arguments: VERIFY,
    }
}

fn survey_words(sizes: Sizes) -> CommandWords {
    CommandWords {
        name: "survey",
        about: help::SURVEY,
        more: help::SURVEY_MORE,
        arguments: match sizes {
            Sizes::One => SURVEY,
            Sizes::Every => SURVEY_SIZES,
        },
    }
}

fn play_words() -> CommandWords {
    CommandWords {
        name: "play",
        about: help::PLAY,
        more: help::PLAY_MORE,
        arguments: RUN,
    }
}

fn show_words() -> CommandWords {
    CommandWords {
        name: "show",
        about: help::SHOW,
        more: help::SHOW_MORE,
        arguments: RUN,
    }
}

/// The commands of a line about these `sizes`, in the order of the program's help. Each comes from a function of its
/// own: as one constant, the table is too large for a proof.
fn commands(sizes: Sizes) -> [CommandWords; 9] {
    [
        expand_words(),
        feed_words(),
        tic_words(),
        infocmp_words(),
        check_words(sizes),
        verify_words(),
        survey_words(sizes),
        play_words(),
        show_words(),
    ]
}

/// The program, its commands and their arguments on a line about these `sizes`.
pub fn command_line<'a>(alloc: Global, sizes: Sizes) -> Result<Command<'a>, AllocError> {
    let mut program = Command::new(alloc, "ticurses")
        .no_binary_name(true)
        .bin_name("ticurses")?
        .version(help::VERSION)
        .about(help::ABOUT)
        .after_help(help::MORE)
        .propagate_version(true)
        .subcommand_required(true)
        .arg_required_else_help(true);
    for words in &commands(sizes) {
        program = program.subcommand(command_of(alloc, words)?)?;
    }
    Ok(program)
}

/// The command with these `words`.
fn command_of<'a>(alloc: Global, words: &CommandWords) -> Result<Command<'a>, AllocError> {
    let mut command = Command::new(alloc, words.name)
        .about(words.about)
        .after_help(words.more);
    for argument in words.arguments {
        command = command.arg(argument_of(alloc, *argument))?;
    }
    Ok(command)
}

/// The `argument` as clap has it.
fn argument_of<'a>(alloc: Global, argument: Argument) -> Arg<'a> {
    match argument {
        Argument::Word(name, help) => Arg::new(alloc, name).help(help).required(true),
        Argument::Words(name, help) => Arg::new(alloc, name)
            .help(help)
            .required(true)
            .action(ArgAction::Append)
            .num_args(1..),
        Argument::AnyWords(name, help) => Arg::new(alloc, name)
            .help(help)
            .action(ArgAction::Append)
            .num_args(0..),
        Argument::Letter(name, letter, help) => Arg::new(alloc, name)
            .help(help)
            .short(letter)
            .action(ArgAction::SetTrue),
        Argument::Switch(name, help) => Arg::new(alloc, name)
            .help(help)
            .long(name)
            .action(ArgAction::SetTrue),
        Argument::Path(name, help) => path_option(alloc, name, help).action(ArgAction::Set),
        Argument::Paths(name, help) => path_option(alloc, name, help).action(ArgAction::Append),
    }
}

/// The option `name` with the path of a file.
fn path_option<'a>(alloc: Global, name: &'a str, help: &'a str) -> Arg<'a> {
    Arg::new(alloc, name)
        .help(help)
        .long(name)
        .value_name("FILE")
}
