//! The results of functions that make texts.

use std::alloc::AllocError;

/// The result of a function that makes a text: its bytes, or that memory ran out.
pub type Made = Result<Vec<u8>, AllocError>;

/// The result of a function that appends: nothing, or that memory ran out.
pub type Pushed = Result<(), AllocError>;
