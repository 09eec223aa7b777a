ghost use Rattle.std.specs.Prelude.{◌≡◌};
ghost use Rattle.flit_statuses.specs.Statuses.{code_of};
ghost use Rattle.flit_statuses.specs.Errors.{status_of_memory, status_of_input, status_of_trace, status_of_text, status_of_damage};

use flit_image::ImageError;
use flit_outside::InputError;
use flit_recover::Damage;
use flit_trace::{Bound, TraceError};
use flit_words::NoMemory;

/// Why an image can't be recovered.
#[derive(Clone, Copy, Debug, PartialEq, Eq)]
pub enum ImageFault {
    /// The bytes are no image text; this is the first fault.
    Text(ImageError),
    /// The image isn't lawful; this is the first damage.
    Damage(Damage),
}

/// How a command ended.
#[derive(Clone, Copy, Debug, PartialEq, Eq)]
pub enum Status {
    Done,
    /// The words of the command line are none that are accepted.
    Usage,
    /// The input is no trace; this is the first bad line.
    BadTrace { line: u32 },
    /// A counted number of the trace is past its limit, at this line.
    Limit { line: u32, limit: Bound },
    /// The input is no image text, or its image isn't lawful.
    BadImage(ImageFault),
    /// A read failed.
    ReadFault,
    /// A write failed.
    WriteFault,
    /// There was no memory.
    NoMemory,
}

impl Status {
    /// The exit status: 0 for Done, else from 2 on.
    pub fn code(&self) -> u8
        ensures { result ≡ code_of self.now }
    {
        match self {
            Status::Done => 0,
            Status::Usage => 2,
            Status::BadTrace { line: _ } => 3,
            Status::Limit { line: _, limit: _ } => 4,
            Status::BadImage(_) => 5,
            Status::ReadFault => 6,
            Status::WriteFault => 7,
            Status::NoMemory => 8,
        }
    }
}

impl From<NoMemory> for Status {
    ghost from_gives = { λ _ status. status ≡ status_of_memory };

    fn from(_error: NoMemory) -> Self {
        Status::NoMemory
    }
}

impl From<InputError> for Status {
    ghost from_gives = { λ error status. status ≡ status_of_input error };

    fn from(error: InputError) -> Self {
        match error {
            InputError::Fault => Status::ReadFault,
            InputError::TooLong => Status::Limit {
                line: 0,
                limit: Bound::Bytes,
            },
            InputError::NoMemory => Status::NoMemory,
        }
    }
}

impl From<TraceError> for Status {
    ghost from_gives = { λ error status. status ≡ status_of_trace error };

    fn from(error: TraceError) -> Self {
        match error {
            TraceError::BadLine { line } => Status::BadTrace { line },
            TraceError::NoEnd { line } => Status::BadTrace { line },
            TraceError::Limit { line, limit } => Status::Limit { line, limit },
            TraceError::NoMemory => Status::NoMemory,
        }
    }
}

impl From<ImageError> for Status {
    ghost from_gives = { λ error status. status ≡ status_of_text error };

    fn from(error: ImageError) -> Self {
        match error {
            ImageError::NoMemory => Status::NoMemory,
            _ => Status::BadImage(ImageFault::Text(error)),
        }
    }
}

impl From<Damage> for Status {
    ghost from_gives = { λ damage status. status ≡ status_of_damage damage };

    fn from(damage: Damage) -> Self {
        match damage {
            Damage::NoMemory => Status::NoMemory,
            _ => Status::BadImage(ImageFault::Damage(damage)),
        }
    }
}
