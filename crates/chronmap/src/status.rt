//! How a call of the program ends.

ghost use Rattle.std.specs.Prelude.{◌≡◌};
ghost use Rattle.chronmap.specs.Statuses.{code_of};

use crate::stop::Stop;

/// How a call of the program ended.
#[derive(Clone, Copy, Debug, PartialEq, Eq)]
pub enum Status {
    /// The command was done, its input read to the end, its output written whole.
    Ok,
    /// No memory was left.
    NoMemory,
    /// The words are none that the program takes.
    Usage,
    /// The input is no script.
    Script,
    /// The source failed.
    ReadFault,
    /// The sink failed.
    WriteFault,
    /// The vault failed.
    VaultFault,
    /// A file is missing, no image, or one of a map that isn't lawful.
    Image,
    /// The numbers that the words ask for are no geometry.
    Geometry,
}

impl Status {
    /// The number that the program ends with.
    pub fn code(self) -> u8
        ensures { result ≡ code_of self }
    {
        match self {
            Status::Ok => 0,
            Status::NoMemory => 1,
            Status::Usage => 2,
            Status::Script => 3,
            Status::ReadFault => 4,
            Status::WriteFault => 5,
            Status::VaultFault => 6,
            Status::Image => 7,
            Status::Geometry => 8,
        }
    }
}

/// The status of a refusal.
impl From<Stop> for Status {
    ghost use Rattle.chronmap.specs.Statuses.{status_of};

    ghost from_gives = { λ stop status. status ≡ status_of stop };

    fn from(stop: Stop) -> Status {
        match stop {
            Stop::NoMemory => Status::NoMemory,
            Stop::Usage => Status::Usage,
            Stop::Geometry(_) => Status::Geometry,
            Stop::TooLong | Stop::Refused { .. } => Status::Script,
            Stop::ReadFault => Status::ReadFault,
            Stop::VaultFault => Status::VaultFault,
            Stop::Missing | Stop::NotImage(_) | Stop::Broken(_) => Status::Image,
        }
    }
}
