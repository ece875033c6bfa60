//! Results of functions that write lines.

use std::alloc::AllocError;

/// The lines that a function makes, or that memory ran out.
pub type Lines = Result<Vec<u8>, AllocError>;

/// Nothing, from a function that adds to lines of its caller; or that memory ran out.
pub type Added = Result<(), AllocError>;
