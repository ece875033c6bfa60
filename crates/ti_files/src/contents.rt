//! Whole files, up to a limit.

ghost use Rattle.std.specs.Prelude.{◌≡◌, ◌≤◌, IfErr, IfOk, vec_len};
ghost use Rattle.ti_files.specs.{Failures.{IsFileFailure}, Contents.{AreBytesOf, AreFirstBytesOf}};

use crate::Remarks;
use crate::failure::{Failure, file_failure};
use crate::files::{FileFault, Files};
use std::alloc::Global;
use std::io::Read;

/// The most bytes of a source file, of a file for `feed`, and of a file in a survey.
pub const LONGEST_FILE: u32 = 16_777_216;

/// The bytes of the file at `path`. A file of more than `limit` bytes is refused as one that can't
/// be read; at most one byte past the limit is read.
pub fn read_whole<F: Files>(
    alloc: Global,
    files: &mut F,
    path: &str,
    limit: u32,
    remarks: &mut Remarks,
) -> Result<Vec<u8>, Failure>
    ensures whole { IfOk result (λ bytes. AreBytesOf ((F.holds files.old).at path.now) bytes.items) }
    ensures short { IfOk result (λ bytes. vec_len bytes ≤ limit) }
    ensures failure { IfErr result (λ e. IsFileFailure path.now e) }
    ensures kept { F.holds files.new ≡ F.holds files.old }
{
    match read_up_to(alloc, files, path, u64::from(limit) + 1) {
        Ok(bytes) if bytes.len() <= limit as usize => Ok(bytes),
        Ok(_) => {
            explain_length(alloc, path, limit, remarks);
            Err(file_failure(alloc, path))
        }
        Err(fault) => Err(file_fault(alloc, path, fault, remarks)),
    }
}

/// The first `count` bytes of the file at `path`, or all of them if there are fewer.
fn read_up_to<F: Files>(
    alloc: Global,
    files: &mut F,
    path: &str,
    count: u64,
) -> Result<Vec<u8>, FileFault>
    ensures bytes { IfOk result (λ bytes. AreFirstBytesOf ((F.holds files.old).at path.now) count bytes.items) }
    ensures kept { F.holds files.new ≡ F.holds files.old }
{
    let file = files.reader(path)?;
    let Ok(mut bytes) = Vec::with_capacity(alloc, room_for(files.length_hint(), count)) else {
        return Err(FileFault::NoMemory);
    };
    match file.take(count).read_to_end(&mut bytes) {
        Ok(_) => Ok(bytes),
        Err(error) => Err(FileFault::from(error)),
    }
}

/// How much room to make at first for at most `count` bytes, of which `length` are expected: one
/// byte more, so that the end is found without growing.
fn room_for(length: u64, count: u64) -> usize {
    match length {
        0 => 0,
        _ => (length.min(count) as usize).saturating_add(1),
    }
}

/// The failure for the `fault` of the file at `path`.
pub fn file_fault(alloc: Global, path: &str, fault: FileFault, remarks: &mut Remarks) -> Failure
    ensures { IsFileFailure path.now result }
{
    match fault {
        FileFault::NoMemory => Failure::NoMemory,
        FileFault::Failed(cause) => {
            remarks.add(path.as_bytes(), cause.words());
            file_failure(alloc, path)
        }
    }
}

/// Explains that the file at `path` has more than `limit` bytes.
fn explain_length(alloc: Global, path: &str, limit: u32, remarks: &mut Remarks) {
    if let Ok(words) = format!(in alloc; " has more than {limit} bytes") {
        remarks.add(path.as_bytes(), words.as_bytes());
    }
}
