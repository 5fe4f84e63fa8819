//! Why a call of the program ends with a refusal.

ghost use Rattle.std.specs.Prelude.{◌≡◌};
ghost use Rattle.chronmap.specs.Stops.{stop_of_image, stop_of_read, stop_of_script, stop_of_write};
ghost use Rattle.chronmap.specs.declared.stop.Stop.TheVariants as stop;

use crate::source::ReadStop;
use cm_check::Broken;
use cm_command::CommandStop;
use cm_geo::GeoRefused;
use cm_image::{ImageRefused, ImageStop, ImageWriteStop};
use cm_plain::NoMemory;
use cm_script::{LineCause, ScriptStop};
use std::alloc::AllocError;

/// Why a command is not done.
#[derive(Clone, Copy, Debug, PartialEq, Eq)]
pub enum Stop {
    /// No memory was left.
    NoMemory,
    /// The words are none that the program takes.
    Usage,
    /// The numbers that the words ask for are no geometry, for this reason.
    Geometry(GeoRefused),
    /// There is no file of the name that is to be read.
    Missing,
    /// The file is no image, for this reason.
    NotImage(ImageRefused),
    /// The words of the image break this law first.
    Broken(Broken),
    /// The input has too many bytes or records.
    TooLong,
    /// The first refused record of the input, counted from 1, and its cause.
    Refused { line: u32, cause: LineCause },
    /// The source failed.
    ReadFault,
    /// The vault failed.
    VaultFault,
}

impl From<NoMemory> for Stop {
    ghost from_gives = { λ _ e. e ≡ stop.NoMemory };

    fn from(_no_memory: NoMemory) -> Stop {
        Stop::NoMemory
    }
}

impl From<AllocError> for Stop {
    ghost from_gives = { λ _ e. e ≡ stop.NoMemory };

    fn from(_error: AllocError) -> Stop {
        Stop::NoMemory
    }
}

impl From<CommandStop> for Stop {
    ghost use Rattle.chronmap.specs.Stops.{stop_of_command};

    ghost from_gives = { λ stop e. e ≡ stop_of_command stop };

    fn from(stop: CommandStop) -> Stop {
        match stop {
            CommandStop::Usage => Stop::Usage,
            CommandStop::NoMemory => Stop::NoMemory,
        }
    }
}

impl From<ImageStop> for Stop {
    ghost from_gives = { λ stop e. e ≡ stop_of_image stop };

    fn from(stop: ImageStop) -> Stop {
        match stop {
            ImageStop::Missing => Stop::Missing,
            ImageStop::Refused(why) => Stop::NotImage(why),
            ImageStop::Fault => Stop::VaultFault,
            ImageStop::NoMemory => Stop::NoMemory,
        }
    }
}

impl From<ImageWriteStop> for Stop {
    ghost from_gives = { λ stop e. e ≡ stop_of_write stop };

    fn from(stop: ImageWriteStop) -> Stop {
        match stop {
            ImageWriteStop::Fault => Stop::VaultFault,
            ImageWriteStop::NoMemory => Stop::NoMemory,
        }
    }
}

impl From<ReadStop> for Stop {
    ghost from_gives = { λ stop e. e ≡ stop_of_read stop };

    fn from(stop: ReadStop) -> Stop {
        match stop {
            ReadStop::Fault => Stop::ReadFault,
            ReadStop::NoMemory => Stop::NoMemory,
        }
    }
}

impl From<ScriptStop> for Stop {
    ghost from_gives = { λ stop e. e ≡ stop_of_script stop };

    fn from(stop: ScriptStop) -> Stop {
        match stop {
            ScriptStop::TooLong => Stop::TooLong,
            ScriptStop::Refused { line, cause } => Stop::Refused { line, cause },
            ScriptStop::NoMemory => Stop::NoMemory,
        }
    }
}
