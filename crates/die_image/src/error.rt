//! Why bytes are no image. Want of memory is free; the others come in the order of the formats.
ghost use Rattle.std.specs.Prelude.{◌≡◌};
ghost use Rattle.die_image.specs.declared.error.ImageError.TheVariants.{OutOfMemory};

use std::alloc::AllocError;
use thiserror::Error;

/// Why bytes are no image, or that memory ran out.
#[derive(Clone, Copy, Debug, Error, PartialEq, Eq)]
pub enum ImageError {
    /// No memory was left.
    #[error("no memory was left")]
    OutOfMemory,
    /// The first eight bytes are others.
    #[error("the first eight bytes are not those of an image")]
    Magic,
    /// The version is another.
    #[error("the version is another")]
    Version,
    /// The scheme, the number of slots or a number of the head is outside its limits.
    #[error("the head is outside the limits")]
    Shape,
    /// There are too few bytes.
    #[error("the image is too short")]
    Short,
    /// There are too many bytes.
    #[error("the image is too long")]
    Long,
    /// A cell that no rule charges is charged.
    #[error("a pad cell is charged")]
    PadCells,
}

impl From<AllocError> for ImageError {
    ghost from_gives = { λ _ why. why ≡ OutOfMemory };

    fn from(_error: AllocError) -> ImageError {
        ImageError::OutOfMemory
    }
}
