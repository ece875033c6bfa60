//! Mended texts before they go out: with their line breaks, or as what differs from the texts that the files have.

use crate::originals::Original;
use std::alloc::{AllocError, Global};
use ti_arguments::Asked;
use ti_diffs::{Compared, push_unified};
use ti_files::{FileFault, Files, NewFile, Remarks, Replied, Reply, file_fault};
use ti_requests::Request;
use ti_sources::rewrapped;

/// Whether the mended texts that are `asked` for are kept until all are made.
pub fn is_collected(asked: &Asked<'_>) -> bool {
    asked.fixes && (asked.joins || asked.diff)
}

/// Where the mended texts go that are `asked` for, as far as the command that makes them knows: those of several files
/// go to a folder.
pub fn fix_out<'a>(asked: &'a Asked<'a>) -> Option<&'a str> {
    if !asked.diff {
        return asked.out;
    }
    if asked.further.is_empty() {
        None
    } else {
        Some(".")
    }
}

/// The folder for the mended texts of several files, which is made also where none of them has changed.
pub fn folder_of<'a>(asked: &'a Asked<'a>) -> Option<&'a str> {
    if asked.fixes && !asked.diff && !asked.further.is_empty() {
        asked.out
    } else {
        None
    }
}

/// The paths of the files that are to be mended, as it is `asked`.
pub fn sources_of<'a>(alloc: Global, asked: &'a Asked<'a>) -> Result<Vec<&'a str>, AllocError> {
    let mut paths = Vec::new(alloc);
    match &asked.request {
        Request::Check(words) => {
            if let Some((path, _name)) = words.entry.rsplit_once(':') {
                paths.push(path)?;
            }
        }
        Request::Survey(words) => paths.extend_from_slice(words.paths.as_slice())?,
        Request::CheckAll(_) | Request::CheckJson { .. } | Request::SurveyJson(_) => {}
        Request::Tic { .. } | Request::Print { .. } => {}
        Request::Common { .. } | Request::Neither { .. } => {}
        Request::Expand(_) | Request::Feed { .. } | Request::FeedAs(_) => {}
        Request::Verify(_) | Request::Play(_) | Request::Show(_) => {}
    }
    paths.extend_from_slice(asked.further.as_slice())?;
    Ok(paths)
}

/// The command that was asked for, and the texts that the files have.
#[derive(Clone, Copy)]
pub struct Mending<'a> {
    /// The command, with `--fix`.
    pub asked: &'a Asked<'a>,
    /// The files that are mended.
    pub originals: &'a [Original<'a>],
}

/// Mended texts.
#[derive(Drop)]
pub struct Mended {
    /// The texts that were stored.
    pub stored: Vec<NewFile>,
    /// The reply, which has the text that wasn't.
    pub reply: Reply,
}

impl<'a> Mending<'a> {
    /// The file whose mended text goes to `path`: several go to a folder, each under its own name.
    fn original(&self, path: &str) -> Option<&Original<'a>> {
        if self.asked.further.is_empty() {
            return self.originals.first();
        }
        self.originals
            .iter()
            .find(|original| file_name(original.path) == file_name(path))
    }

    /// The mended `text` that goes to `path`, with the line breaks of its file where they still cut it.
    fn with_breaks(&self, alloc: Global, path: &str, text: &[u8]) -> Result<Vec<u8>, AllocError> {
        if self.asked.joins {
            if let Some(original) = self.original(path) {
                if let Some(broken) = rewrapped(alloc, original.bytes.as_slice(), text)? {
                    return Ok(broken);
                }
            }
        }
        Vec::from_slice(alloc, text)
    }

    /// Appends to `diff` what differs between the text of its file and the mended `text` that goes to `path`.
    fn push_diff(
        &self,
        alloc: Global,
        diff: &mut Vec<u8>,
        path: &str,
        text: &[u8],
    ) -> Result<(), AllocError> {
        match self.original(path) {
            Some(original) => {
                let compared = Compared {
                    path: original.path,
                    old: original.bytes.as_slice(),
                    new: text,
                };
                push_unified(alloc, diff, &compared)
            }
            None => Ok(()),
        }
    }

    /// The differences in all files between their texts and the `mended` ones.
    fn diff(&self, alloc: Global, mended: &Mended) -> Result<Vec<u8>, AllocError> {
        let mut diff = Vec::new(alloc);
        for file in &mended.stored {
            let path = file.path.as_str();
            self.push_diff(alloc, &mut diff, path, file.bytes.as_slice())?;
        }
        if !mended.reply.text.is_empty() {
            self.push_diff(alloc, &mut diff, "", mended.reply.text.as_slice())?;
        }
        Ok(diff)
    }

    /// The `mended` texts with their line breaks.
    fn broken(&self, alloc: Global, mended: Mended) -> Result<Mended, AllocError> {
        let mut stored = Vec::new(alloc);
        for file in &mended.stored {
            let path = file.path.as_str();
            stored.push(NewFile {
                path: String::from_str(alloc, path)?,
                bytes: self.with_breaks(alloc, path, file.bytes.as_slice())?,
            })?;
        }
        let text = self.with_breaks(alloc, "", mended.reply.text.as_slice())?;
        let reply = with_text(mended.reply, text);
        Ok(Mended { stored, reply })
    }
}

/// The `reply` with this `text`.
fn with_text(reply: Reply, text: Vec<u8>) -> Reply {
    Reply {
        notes: reply.notes,
        text,
        failure: reply.failure,
    }
}

/// The name of the file at `path`: the text behind the last slash.
fn file_name(path: &str) -> &str {
    match path.rsplit_once('/') {
        Some((_folder, name)) => name,
        None => path,
    }
}

/// The reply with the `mended` texts, or with what differs, which go to the files of `--out` or to standard output.
pub fn delivered<F: Files>(
    alloc: Global,
    mending: Mending<'_>,
    mended: Mended,
    files: &mut F,
    remarks: &mut Remarks,
) -> Replied {
    let asked = mending.asked;
    let mut mended = mending.broken(alloc, mended)?;
    if asked.diff {
        let diff = mending.diff(alloc, &mended)?;
        mended = Mended {
            stored: Vec::new(alloc),
            reply: with_text(mended.reply, Vec::new(alloc)),
        };
        match asked.out {
            None => return Ok(with_text(mended.reply, diff)),
            Some(path) => mended.stored.push(NewFile {
                path: String::from_str(alloc, path)?,
                bytes: diff,
            })?,
        }
    }
    match store_mended(asked, mended.stored.as_slice(), files) {
        Ok(()) => Ok(mended.reply),
        Err(fault) => {
            let path = asked.out.unwrap_or("");
            Err(file_fault(alloc, path, fault, remarks))
        }
    }
}

/// Stores the mended texts, or what differs in all of them.
fn store_mended<F: Files>(
    asked: &Asked<'_>,
    stored: &[NewFile],
    files: &mut F,
) -> Result<(), FileFault> {
    match stored {
        [] => Ok(()),
        [only] if asked.diff || asked.further.is_empty() => {
            files.store(only.path.as_str(), only.bytes.as_slice())
        }
        [_, ..] => files.store_all(stored),
    }
}
