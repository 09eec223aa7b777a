ghost use Rattle.std.specs.Prelude.{◌≡◌};
ghost use Rattle.flit_image.specs.declared.faults.ImageError.TheVariants.{NoMemory as No_memory};

use std::alloc::{AllocError, AllocFailed};

/// Why a text isn't an image. Lines are numbered from 1, and the first bad line is the one that is named.
#[derive(Clone, Copy, Debug, PartialEq, Eq)]
pub enum ImageError {
    /// One of the first three lines is bad or missing, or a number there is past its limit.
    BadHeader,
    /// The line is neither a word line nor `end`, or is missing, or follows `end`.
    BadLine { line: u32 },
    /// The line's word isn't above the one of the line before.
    OutOfOrder { line: u32 },
    /// The line's word isn't one of the image's words.
    WordOutOfRange { line: u32 },
    /// The line's word is untagged, of version 0 and has its fresh value, and so should have no line.
    Default { line: u32 },
    /// There was no memory.
    NoMemory,
}

impl From<AllocError> for ImageError {
    ghost from_gives = { λ _ e. e ≡ No_memory };

    fn from(_error: AllocError) -> Self {
        ImageError::NoMemory
    }
}

impl<T: Drop> From<AllocFailed<T>> for ImageError {
    ghost from_gives = { λ _ e. e ≡ No_memory };

    fn from(_failed: AllocFailed<T>) -> Self {
        ImageError::NoMemory
    }
}
