//! The speaker of a survey of every size.

ghost use Rattle.ti_everywhere.specs.Lines as spec;
ghost use Rattle.ti_surveys.specs.Answers.{SaysNothing};

use crate::lines::{refused_line, said_of};
use std::alloc::{AllocError, Global};
use ti_sizes::every_size;
use ti_surveys::{FileEntry, Lacking, Said, Speaker};

/// Says of each entry whether it is right at every size.
#[derive(Clone, Copy)]
pub(crate) struct EverySizes;

impl Speaker for EverySizes {
    ghost says = { λ _ path stands name entry told. spec.Says entry told };

    ghost refuses = { λ _ path stands name refusal told. spec.Refuses told };

    ghost leaves = { λ _. SaysNothing };

    fn hints(&self) -> bool {
        false
    }

    fn say(&self, alloc: Global, found: &FileEntry<'_, '_>) -> Result<Said, AllocError> {
        let answer = every_size(alloc, found.entry)?;
        said_of(alloc, found.name, &answer)
    }

    fn refuse(&self, alloc: Global, lacking: &Lacking<'_, '_>) -> Result<Said, AllocError> {
        refused_line(alloc, name_or(lacking.name, lacking.path), lacking.refusal)
    }

    fn leave(&self, alloc: Global, _path: &str) -> Result<Said, AllocError> {
        Ok(Said::new(alloc))
    }
}

/// The `name`, or else the `path`.
fn name_or<'a>(name: Option<&'a [u8]>, path: &'a str) -> &'a [u8] {
    match name {
        Some(name) => name,
        None => path.as_bytes(),
    }
}
