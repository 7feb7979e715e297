//! Why reading stopped.

ghost use Rattle.std.specs.Prelude.{◌≡◌};
ghost use Rattle.group_text.specs.declared.read_error.ReadError.TheVariants.{NoMemory};
ghost use Rattle.group_text.specs.inner.Rows.{in_row, row_read_error};

use mc_text::TokenError;
use rv_words::NoMemory as OutOfMemory;
use std::alloc::{AllocError, AllocFailed};

/// Why no row could be held.
#[derive(Clone, Copy, Debug, PartialEq, Eq)]
pub enum RowError {
    /// The outside failed.
    Fault,
    NoMemory,
}

/// Why a text, or what is next in it, can't be read.
#[derive(Clone, Copy, Debug, PartialEq, Eq)]
pub enum TextFault {
    /// The number of the first line that is missing or with which no text goes on.
    Bad(u64),
    NoMemory,
}

/// Why reading stopped.
#[derive(Clone, Copy, Debug, PartialEq, Eq)]
pub enum ReadError {
    /// No text goes on with the next row.
    Bad,
    /// The outside failed.
    Fault,
    NoMemory,
}

impl From<RowError> for ReadError {
    ghost from_gives = { λ lost e. e ≡ row_read_error lost };

    fn from(lost: RowError) -> ReadError {
        match lost {
            RowError::Fault => ReadError::Fault,
            RowError::NoMemory => ReadError::NoMemory,
        }
    }
}

impl From<TokenError> for ReadError {
    ghost from_gives = { λ stop e. e ≡ in_row stop };

    fn from(stop: TokenError) -> ReadError {
        match stop {
            TokenError::Bad => ReadError::Bad,
            TokenError::NoMemory => ReadError::NoMemory,
        }
    }
}

impl From<OutOfMemory> for ReadError {
    ghost from_gives = { λ _ e. e ≡ NoMemory };

    fn from(_e: OutOfMemory) -> ReadError {
        ReadError::NoMemory
    }
}

impl From<AllocError> for ReadError {
    ghost from_gives = { λ _ e. e ≡ NoMemory };

    fn from(_e: AllocError) -> ReadError {
        ReadError::NoMemory
    }
}

impl<T: Drop> From<AllocFailed<T>> for ReadError {
    ghost from_gives = { λ _ e. e ≡ NoMemory };

    fn from(_e: AllocFailed<T>) -> ReadError {
        ReadError::NoMemory
    }
}
