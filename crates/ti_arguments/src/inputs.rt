//! Standard input as a file: the path `-`.

use crate::parser::Asked;
use ti_requests::Request;

/// The path that is standard input.
const INPUT: &str = "-";

/// The message about a line that `asked` to read standard input twice, or to write a file named `-`.
pub fn input_fault(asked: &Asked<'_>) -> Option<&'static str> {
    let beside = read_further(asked).saturating_add(read_earlier(asked));
    if read_by(&asked.request).saturating_add(beside) > 1 {
        return Some("'-' is standard input, which can be read once; a file of that name is './-'");
    }
    match asked.out {
        Some(INPUT) => {
            Some("'-' is standard input, which can't be written; a file of that name is './-'")
        }
        _ => None,
    }
}

/// How many of the paths that `request` reads are standard input.
fn read_by(request: &Request<'_>) -> usize {
    match request {
        Request::Expand(_) => 0,
        Request::Feed { file, .. } => of_paths(&[file]),
        Request::FeedAs(words) => of_paths(&[words.file]),
        Request::Tic { entry, .. } | Request::Print { entry } => of_paths(&[file_of(entry)]),
        Request::Check(words) => of_paths(&[file_of(words.entry)]),
        Request::CheckAll(words) => of_paths(&[file_of(words.entry)]),
        Request::CheckJson { words, .. } => of_paths(&[file_of(words.entry)]),
        Request::Verify(words) => of_paths(&[file_of(words.entry), words.certificate]),
        Request::Play(words) | Request::Show(words) => {
            of_paths(&[file_of(words.entry), words.certificate, words.script])
        }
        Request::Survey(words) | Request::SurveyJson(words) => of_paths(words.paths.as_slice()),
        Request::Common { first, second } | Request::Neither { first, second } => {
            of_paths(&[file_of(first), file_of(second)])
        }
    }
}

/// How many of the files of `--with` are standard input, once for each entry that is read beside them.
fn read_further(asked: &Asked<'_>) -> usize {
    let further = of_paths(asked.further.as_slice());
    match asked.request {
        Request::Common { .. } | Request::Neither { .. } => further.saturating_mul(2),
        _ => further,
    }
}

/// 1 if the earlier report is standard input.
fn read_earlier(asked: &Asked<'_>) -> usize {
    match asked.baseline {
        Some(path) => of_paths(&[path]),
        None => 0,
    }
}

/// How many of `paths` are standard input.
fn of_paths(paths: &[&str]) -> usize {
    paths.iter().filter(|path| **path == INPUT).count()
}

/// The path of the ENTRY `word`.
fn file_of<'a>(word: &'a str) -> &'a str {
    match word.rsplit_once(':') {
        Some((path, _name)) => path,
        None => word,
    }
}
