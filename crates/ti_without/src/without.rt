//! The answer: checked strings, and the capabilities that were left out for them.

use crate::left_out::LeftOut;
use ti_cert::Checked;

/// The checked strings of an entry without some of its capabilities.
#[derive(Drop)]
pub struct Without {
    /// The strings of the certificate of that smaller entry.
    pub checked: Checked,
    /// The capabilities that the smaller entry lacks, in the order in which they were left out.
    pub left_out: Vec<LeftOut>,
}
