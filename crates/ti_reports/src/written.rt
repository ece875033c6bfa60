//! Bytes in two forms.

/// Bytes in two forms.
#[derive(Debug, Drop)]
pub struct Written {
    /// The bytes as text.
    pub text: String,
    /// The bytes in hexadecimal.
    pub hex: String,
}
