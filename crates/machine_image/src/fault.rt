//! What can be wrong with an image file.

ghost use Rattle.std.specs.Prelude.{◌≡◌};
ghost use Rattle.machine_image.specs.declared.fault.ImageFault.TheVariants.{NoMemory};

use std::alloc::{AllocError, AllocFailed};
use thiserror::Error;

/// The first fault of an image file, in order of its bytes. Places are offsets in bytes from the file's start.
#[derive(Clone, Copy, Debug, Error)]
pub enum ImageFault {
    /// Memory ran out.
    #[error("out of memory")]
    NoMemory,
    /// A field is not there whole.
    #[error("short")]
    Short {
        /// Where the field begins.
        at: u32,
    },
    /// The file does not begin as an image does.
    #[error("bad magic")]
    Magic,
    /// The version is neither 1 nor 2.
    #[error("version")]
    Version {
        /// The version that is there.
        found: u32,
    },
    /// A field's value breaks its rule.
    #[error("bad field")]
    Field {
        /// Where the field begins.
        at: u32,
    },
    /// Bytes follow the flash bytes.
    #[error("trailing")]
    Trailing {
        /// Where they begin.
        at: u32,
    },
}

impl From<AllocError> for ImageFault {
    ghost from_gives = { λ _ e. e ≡ NoMemory };

    fn from(_e: AllocError) -> ImageFault {
        ImageFault::NoMemory
    }
}

impl<T: Drop> From<AllocFailed<T>> for ImageFault {
    ghost from_gives = { λ _ e. e ≡ NoMemory };

    fn from(_e: AllocFailed<T>) -> ImageFault {
        ImageFault::NoMemory
    }
}
