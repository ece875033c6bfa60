//! The first bytes of a file: all of them, if they are no more than a source may have.

ghost use Rattle.std.specs.{Prelude.{◌≡◌, ◌++◌, IfOk, OnOk}, Bool.{OnFalse}, Io.KnownBytes.{IsAtEnd}};
ghost use Rattle.ti_files.specs.Contents.{longest_file};
ghost use Rattle.ti_files.specs.Fronts.{IsFront, ReadsMore};

use crate::{FileCause, FileFault, LONGEST_FILE};
use std::alloc::Global;
use std::io::{ErrorKind, Read};

/// How many bytes are read at once.
const ROOM: usize = 4096;

fn append(front: &mut Vec<u8>, bytes: &[u8]) -> Result<(), FileFault>
    ensures { OnOk result (front.new.items ≡ front.old.items ++ bytes.now) }
{
    match front.extend_from_slice(bytes) {
        Ok(()) => Ok(()),
        Err(_) => Err(FileFault::NoMemory),
    }
}

/// Reads once, and puts what comes behind `front`. Returns `false` at the end of the file.
fn read_more<R: Read>(file: &mut R, front: &mut Vec<u8>) -> Result<bool, FileFault>
    ensures more { OnOk result
        (ReadsMore (R.remaining file.old) (R.remaining file.new) front.old.items front.new.items) }
    ensures end { IfOk result (λ more. OnFalse more (IsAtEnd (R.remaining file.new))) }
{
    let mut room = [0_u8; ROOM];
    match file.read(&mut room) {
        Ok(0) => Ok(false),
        Ok(count) => {
            append(front, &room[..count])?;
            Ok(true)
        }
        Err(error) => {
            if error.kind() == ErrorKind::Interrupted {
                Ok(true)
            } else {
                Err(FileFault::from(error))
            }
        }
    }
}

/// Reads from `file` to its end, or until there are more bytes than a source may have.
///
/// # Errors
/// The file can't be read; out of memory.
pub fn read_front<R: Read>(alloc: Global, file: &mut R) -> Result<Vec<u8>, FileFault>
    ensures { IfOk result (λ front.
        IsFront (R.remaining file.old) (R.remaining file.new) longest_file front.items) }
{
    let mut front = Vec::new(alloc);
    for _ in 0..u64::MAX {
        if front.len() > LONGEST_FILE as usize || !read_more(file, &mut front)? {
            return Ok(front);
        }
    }
    Err(FileFault::Failed(FileCause::Other))
}
