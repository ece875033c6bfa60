//! The target of a painter.

/// The screen `shown`, which the terminal must show, and the certificate `checked`, which has the strings for that.
#[derive(Drop)]
pub struct Target<'a, C, N> {
    pub checked: &'a C,
    pub shown: &'a N,
}
