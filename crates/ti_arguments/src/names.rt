//! The names of files that are to be stored in one folder.

use crate::parser::Asked;
use std::alloc::{AllocError, Global};
use ti_requests::Request;

/// The message about two files of a line with `--fix` whose mended texts would go to one file, if there are such.
pub fn names_fault(alloc: Global, asked: &Asked<'_>) -> Result<Option<String>, AllocError> {
    if !asked.fixes {
        return Ok(None);
    }
    let mut paths = Vec::new(alloc);
    if let Some(path) = mended_path(&asked.request) {
        paths.push(path)?;
    }
    paths.extend_from_slice(asked.further.as_slice())?;
    for (place, path) in paths.iter().enumerate() {
        if let Some(before) = namesake(&paths.as_slice()[..place], path) {
            let message = format!(in alloc;
                "'{before}' and '{path}' have one name, under which --out stores both"
            )?;
            return Ok(Some(message));
        }
    }
    Ok(None)
}

/// The path of the file that the `request` mends beside those of `--with`.
fn mended_path<'a>(request: &Request<'a>) -> Option<&'a str> {
    match request {
        Request::Check(words) => match words.entry.rsplit_once(':') {
            Some((path, _name)) => Some(path),
            None => None,
        },
        Request::Survey(words) => words.paths.first().copied(),
        Request::CheckAll(_) | Request::CheckJson { .. } | Request::SurveyJson(_) => None,
        Request::Tic { .. } | Request::Print { .. } => None,
        Request::Common { .. } | Request::Neither { .. } => None,
        Request::Expand(_) | Request::Feed { .. } | Request::FeedAs(_) => None,
        Request::Verify(_) | Request::Play(_) | Request::Show(_) => None,
    }
}

/// The first of `paths` whose file has the name of the one at `path`.
fn namesake<'a>(paths: &[&'a str], path: &str) -> Option<&'a str> {
    paths
        .iter()
        .find(|before| file_name(before) == file_name(path))
        .copied()
}

/// The name of the file at `path`: the text behind the last slash.
fn file_name(path: &str) -> &str {
    match path.rsplit_once('/') {
        Some((_folder, name)) => name,
        None => path,
    }
}
