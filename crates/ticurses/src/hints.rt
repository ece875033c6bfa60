//! Words to write instead of a path of the line that can't be read.

use std::alloc::{AllocError, Global};
use std::io::Read;
use ti_files::{FileCause, FileFault, Files, Remarks};
use ti_requests::Request;

/// The usual tree of compiled files.
const USUAL_TREE: &str = "/usr/share/terminfo";

/// The trees of compiled files, in the order in which ncurses looks in them.
const TREES: [&str; 3] = ["/etc/terminfo", "/lib/terminfo", USUAL_TREE];

/// Adds to `remarks` what to write in place of `path`, which can't be read: the compiled file for the name
/// of an entry, and the files in its folders for a folder in a survey. `request` is that of the line.
pub fn hint_path<F: Files>(
    alloc: Global,
    request: &Request<'_>,
    path: &str,
    files: &mut F,
    remarks: &mut Remarks,
) {
    if is_entry(request, path) {
        hint_entry(alloc, path, files, remarks);
    }
    if matches!(request, Request::Survey(_) | Request::SurveyJson(_)) && is_folder(path, files) {
        let tree = path.trim_end_matches('/');
        if let Ok(words) = format!(in alloc;
            ": survey takes files; those in its folders are {tree}/*/*"
        ) {
            remarks.add(path.as_bytes(), words.as_bytes());
        }
    }
}

/// Adds to `remarks` that `--join` may help, if the command of the `request` has that option.
pub fn hint_join(request: &Request<'_>, remarks: &mut Remarks) {
    let has_option = match request {
        Request::Tic { .. } | Request::Print { .. } | Request::Verify(_) => true,
        Request::Check(_) | Request::CheckAll(_) | Request::CheckJson { .. } => true,
        Request::Survey(_) | Request::SurveyJson(_) => true,
        Request::Common { .. } | Request::Neither { .. } => true,
        Request::Expand(_) | Request::Feed { .. } | Request::FeedAs(_) => false,
        Request::Play(_) | Request::Show(_) => false,
    };
    if has_option {
        remarks.add_words(b"with --join a field may continue on further lines");
    }
}

/// Whether `path` is a whole ENTRY word of the `request`, and could be the name of an entry.
fn is_entry(request: &Request<'_>, path: &str) -> bool {
    let named = match request {
        Request::Tic { entry, .. } | Request::Print { entry } => *entry == path,
        Request::Check(words) => words.entry == path,
        Request::CheckAll(words) => words.entry == path,
        Request::CheckJson { words, .. } => words.entry == path,
        Request::Verify(words) => words.entry == path,
        Request::Play(words) | Request::Show(words) => words.entry == path,
        Request::Common { first, second } | Request::Neither { first, second } => {
            *first == path || *second == path
        }
        Request::Expand(_) | Request::Feed { .. } | Request::FeedAs(_) => false,
        Request::Survey(_) | Request::SurveyJson(_) => false,
    };
    named && path != "-" && !path.contains('/')
}

/// Adds a line with the compiled file of the entry `name`, or with its usual path if there is none.
fn hint_entry<F: Files>(alloc: Global, name: &str, files: &mut F, remarks: &mut Remarks) {
    let words = match compiled_file(alloc, name, files) {
        Ok(Some(path)) => {
            format!(in alloc; ": write {path}, which is the compiled file of this name")
        }
        Ok(None) => usual_words(alloc, name),
        Err(refused) => Err(refused),
    };
    if let Ok(words) = words {
        remarks.add(name.as_bytes(), words.as_bytes());
    }
}

/// The path of the compiled file of the entry `name`, if there is one.
fn compiled_file<F: Files>(
    alloc: Global,
    name: &str,
    files: &mut F,
) -> Result<Option<String>, AllocError> {
    for tree in TREES {
        let path = path_in(alloc, tree, name)?;
        if files.reader(path.as_str()).is_ok() {
            return Ok(Some(path));
        }
    }
    Ok(None)
}

/// The path of the entry `name` in `tree`, a tree of compiled files.
fn path_in(alloc: Global, tree: &str, name: &str) -> Result<String, AllocError> {
    let letter = name.chars().next().unwrap_or('/');
    format!(in alloc; "{tree}/{letter}/{name}")
}

/// The words that explain an ENTRY, with the usual path of the compiled file of the entry `name`.
fn usual_words(alloc: Global, name: &str) -> Result<String, AllocError> {
    let path = path_in(alloc, USUAL_TREE, name)?;
    format!(in alloc;
        ": an ENTRY is FILE:NAME of a source, or the path of a compiled file, usually {path}"
    )
}

/// Whether `path` is that of a folder.
fn is_folder<F: Files>(path: &str, files: &mut F) -> bool {
    let mut byte = [0_u8; 1];
    match files.reader(path) {
        Ok(mut file) => match file.read(&mut byte) {
            Ok(_) => false,
            Err(error) => FileFault::from(error) == FileFault::Failed(FileCause::Directory),
        },
        Err(fault) => fault == FileFault::Failed(FileCause::Directory),
    }
}
