//! The painter's input: two screens and the certificate.

/// The screen `old`, which the terminal shows, the screen `new`, which it must show next, and the certificate
/// `checked`, which has the strings for that.
#[derive(Drop)]
pub struct Screens<'a, C, O, N> {
    pub checked: &'a C,
    pub old: &'a O,
    pub new: &'a N,
}
