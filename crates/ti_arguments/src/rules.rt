//! Rules on options that don't go together, beyond those that clap judges.

use clap::ArgMatches;

/// The message about the `words` of the command `name`, if they don't go together.
pub fn fault_of(name: &str, words: &ArgMatches<'_>) -> Option<&'static str> {
    match name {
        "feed" => feed_fault(words),
        "infocmp" => infocmp_fault(words),
        "check" => check_fault(words),
        "survey" => survey_fault(words),
        _ => None,
    }
}

/// `feed` prints in one form, and a file of cases can't be a recording.
fn feed_fault(words: &ArgMatches<'_>) -> Option<&'static str> {
    let state = words.get_flag("state");
    let json = words.get_flag("json");
    let cases = words.get_flag("cases");
    let plain_text = words.get_flag("plain-text");
    if (state && json) || (cases && (state || json || plain_text)) {
        return Some(
            "feed shows one of --state, --json and --cases; --plain-text is not for --cases",
        );
    }
    None
}

/// `infocmp` prints one entry, or compares two.
fn infocmp_fault(words: &ArgMatches<'_>) -> Option<&'static str> {
    let entries = words.get_strs("ENTRY").unwrap_or(&[]);
    match (words.get_flag("c"), words.get_flag("n"), entries.len()) {
        (false, false, 1) | (true, false, 2) | (false, true, 2) => None,
        _ => Some("infocmp prints one ENTRY, or compares two with either -c or -n"),
    }
}

/// `check` writes a certificate, a source text or a report.
fn check_fault(words: &ArgMatches<'_>) -> Option<&'static str> {
    if lacks_fix(words) {
        return Some(FIX_ALONE);
    }
    let reports = reports(words);
    if !reports && !lists_all(words) {
        return None;
    }
    if words.get_flag("fix") {
        return Some(
            "check --fix writes a source text: --all, --json and --sarif are not for --fix",
        );
    }
    if words.get_str("out").is_none() {
        return None;
    }
    if reports {
        return Some(
            "check writes a certificate, or reports on the entry: --out is not for --json and --sarif",
        );
    }
    Some("check writes a certificate, or with --all lists the faults: --out is not for --all")
}

/// `survey` prints lines, a report, or with `--fix` one mended text.
fn survey_fault(words: &ArgMatches<'_>) -> Option<&'static str> {
    if lacks_fix(words) {
        return Some(FIX_ALONE);
    }
    let reports = reports(words);
    if words.get_flag("parts") && (reports || !lists_all(words)) {
        return Some(
            "--parts is for --all, and not for --json and --sarif, where part says it of each entry",
        );
    }
    if words.get_flag("fix") {
        return fix_fault(words);
    }
    if !reports && words.get_str("baseline").is_some() {
        return Some("--baseline is for --json and --sarif");
    }
    if words.get_str("out").is_some() {
        return Some("survey writes a text only with --fix: --out is for --fix");
    }
    None
}

/// The message about a line that has an option of `--fix` without it.
const FIX_ALONE: &str = "--standard and --diff say what --fix writes: they are for --fix";

/// Whether the `words` have an option of `--fix` without it.
fn lacks_fix(words: &ArgMatches<'_>) -> bool {
    !words.get_flag("fix") && (words.get_flag("standard") || words.get_flag("diff"))
}

/// `survey --fix` mends one file, with those of `--with`.
fn fix_fault(words: &ArgMatches<'_>) -> Option<&'static str> {
    let files = words.get_strs("FILE").unwrap_or(&[]);
    let is_of_one = files.len() == 1 && !lists_all(words);
    if !is_of_one || reports(words) || words.get_str("baseline").is_some() {
        return Some(
            "survey --fix writes the text of one source FILE: --all, --json, --sarif and --baseline \
             are not for --fix",
        );
    }
    None
}

/// Whether the line asks for a report: in JSON, or in SARIF, which is made of it.
pub fn reports(words: &ArgMatches<'_>) -> bool {
    words.get_flag("json") || words.get_flag("sarif")
}

/// Whether the line asks for all faults; SARIF has all.
pub fn lists_all(words: &ArgMatches<'_>) -> bool {
    words.get_flag("all") || words.get_flag("sarif")
}
