//! The request of a line: a command with its words.

use crate::parser::UsageFault;
use crate::rules::{lists_all, reports};
use clap::ArgMatches;
use std::alloc::{AllocError, Global};
use ti_requests::{
    CheckWords, ExpandWords, FaultsWords, FeedForm, FeedWords, Request, ScriptWords, SurveyWords,
    VerifyWords,
};

/// The request of the command `name` with these `words`, which go together.
pub fn request_of<'a>(
    alloc: Global,
    name: &str,
    words: &ArgMatches<'a>,
) -> Result<Request<'a>, UsageFault> {
    match name {
        "expand" => Ok(expand_request(alloc, words)?),
        "feed" => Ok(feed_request(words)),
        "tic" => Ok(tic_request(words)),
        "infocmp" => Ok(infocmp_request(words)),
        "check" => Ok(check_request(words)),
        "verify" => Ok(verify_request(words)),
        "play" => Ok(Request::Play(script_words(words))),
        "show" => Ok(Request::Show(script_words(words))),
        "survey" => Ok(survey_request(alloc, words)?),
        _ => Err(UsageFault::Usage(String::new(alloc))),
    }
}

fn expand_request<'a>(alloc: Global, words: &ArgMatches<'a>) -> Result<Request<'a>, AllocError> {
    Ok(Request::Expand(ExpandWords {
        judges_cup: words.get_flag("cup"),
        string: word(words, "STRING"),
        rows: word(words, "ROWS"),
        cols: word(words, "COLS"),
        params: all_words(alloc, words, "PARAM")?,
    }))
}

/// The request of `feed`: the screen is shown if no option is given.
fn feed_request<'a>(words: &ArgMatches<'a>) -> Request<'a> {
    let form = feed_form(words);
    let plain_text = words.get_flag("plain-text");
    let rows = word(words, "ROWS");
    let cols = word(words, "COLS");
    let file = word(words, "FILE");
    if form == FeedForm::Screen && !plain_text {
        return Request::Feed { rows, cols, file };
    }
    Request::FeedAs(FeedWords {
        form,
        plain_text,
        rows,
        cols,
        file,
    })
}

/// The form in which `feed` prints.
fn feed_form(words: &ArgMatches<'_>) -> FeedForm {
    if words.get_flag("state") {
        FeedForm::State
    } else if words.get_flag("json") {
        FeedForm::Json
    } else if words.get_flag("cases") {
        FeedForm::Cases
    } else {
        FeedForm::Screen
    }
}

fn tic_request<'a>(words: &ArgMatches<'a>) -> Request<'a> {
    Request::Tic {
        entry: word(words, "ENTRY"),
        out: words.get_str("out"),
    }
}

/// The request of `infocmp`: one entry is printed, two are compared.
fn infocmp_request<'a>(words: &ArgMatches<'a>) -> Request<'a> {
    match (words.get_flag("c"), words.get_strs("ENTRY").unwrap_or(&[])) {
        (true, [first, second]) => Request::Common { first, second },
        (false, [first, second]) => Request::Neither { first, second },
        _ => Request::Print {
            entry: word(words, "ENTRY"),
        },
    }
}

/// The request of `check`: with `--all` or a report no certificate is written.
fn check_request<'a>(words: &ArgMatches<'a>) -> Request<'a> {
    let lists_all = lists_all(words);
    if reports(words) {
        return Request::CheckJson {
            lists_all,
            words: faults_words(words),
        };
    }
    if lists_all {
        return Request::CheckAll(faults_words(words));
    }
    Request::Check(CheckWords {
        entry: word(words, "ENTRY"),
        rows: word(words, "ROWS"),
        cols: word(words, "COLS"),
        out: words.get_str("out"),
    })
}

/// The words of a `check` that writes no certificate.
fn faults_words<'a>(words: &ArgMatches<'a>) -> FaultsWords<'a> {
    FaultsWords {
        entry: word(words, "ENTRY"),
        rows: word(words, "ROWS"),
        cols: word(words, "COLS"),
    }
}

fn verify_request<'a>(words: &ArgMatches<'a>) -> Request<'a> {
    Request::Verify(VerifyWords {
        entry: word(words, "ENTRY"),
        rows: word(words, "ROWS"),
        cols: word(words, "COLS"),
        certificate: word(words, "CERT"),
    })
}

/// The words of `play` or `show`.
fn script_words<'a>(words: &ArgMatches<'a>) -> ScriptWords<'a> {
    ScriptWords {
        entry: word(words, "ENTRY"),
        rows: word(words, "ROWS"),
        cols: word(words, "COLS"),
        certificate: word(words, "CERT"),
        script: word(words, "SCRIPT"),
    }
}

/// The request of `survey`.
fn survey_request<'a>(alloc: Global, words: &ArgMatches<'a>) -> Result<Request<'a>, AllocError> {
    let survey = SurveyWords {
        lists_all: lists_all(words),
        names_parts: words.get_flag("parts"),
        is_strict: words.get_flag("fail"),
        rows: word(words, "ROWS"),
        cols: word(words, "COLS"),
        paths: all_words(alloc, words, "FILE")?,
    };
    if reports(words) {
        return Ok(Request::SurveyJson(survey));
    }
    Ok(Request::Survey(survey))
}

/// All words for the argument `id`.
pub fn all_words<'a>(
    alloc: Global,
    words: &ArgMatches<'a>,
    id: &str,
) -> Result<Vec<&'a str>, AllocError> {
    Vec::from_slice(alloc, words.get_strs(id).unwrap_or(&[]))
}

/// The word for the argument `id`, or an empty one if there is none.
fn word<'a>(words: &ArgMatches<'a>, id: &str) -> &'a str {
    words.get_str(id).unwrap_or("")
}
