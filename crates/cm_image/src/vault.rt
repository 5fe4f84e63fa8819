//! Where images are kept.

ghost use Rattle.std.specs.Prelude.{◌≡◌, ℕ, List, Option, Some, length, option_map, IfOk, OnOk};
ghost use Rattle.std.specs.Io.{ReadsAtMost};
ghost use Rattle.cm_image.specs.Faults.{HasCause};
ghost use Rattle.cm_image.specs.Files.{Files, ReadsPrefix, SameBut, SameFiles, bytes_from};

use cm_plain::Failed;

/// Where named files are kept. `Failed` comes only where the count of faults rose.
pub trait Vault {
    /// Whether the files are told.
    ghost tells: { Self → Type 0 };

    /// The bytes of each name's file, where they are told.
    ghost files: { Self → Files };

    /// How many calls failed; it stops at the last number of 64 bits.
    ghost faults: { Self → ℕ };

    /// The length of a file in bytes, or None where there is no file of that name.
    fn size(&mut self, name: &str) -> Result<Option<u64>, Failed>
        ensures tells { tells self.old → tells self.new }
        ensures size { IfOk result (λ size. tells self.old → size ≡ option_map length (files self.old name.now)) }
        ensures files { tells self.old → SameFiles (files self.old) (files self.new) }
        ensures cause { HasCause (faults self.old) (faults self.new) result };

    /// Moves bytes of a file, from the place `from` on, to the front of `buf`, and answers how many. For a buffer
    /// with room, 0 comes only at or past the end of the file.
    fn read_at(&mut self, name: &str, from: u64, buf: &mut [u8]) -> Result<usize, Failed>
        ensures tells { tells self.old → tells self.new }
        ensures bound { ReadsAtMost result buf.new }
        ensures bytes { IfOk result
            (λ count. tells self.old → ReadsPrefix (bytes_from (files self.old name.now) from) count buf.new) }
        ensures files { tells self.old → SameFiles (files self.old) (files self.new) }
        ensures cause { HasCause (faults self.old) (faults self.new) result };

    /// Makes the file hold these bytes. After `Failed` nothing is said of that file. The others stay.
    fn write_whole(&mut self, name: &str, bytes: &[u8]) -> Result<(), Failed>
        ensures tells { tells self.old → tells self.new }
        ensures written { OnOk result (tells self.old → files self.new name.now ≡ Some bytes.now) }
        ensures others { tells self.old → SameBut name.now (files self.old) (files self.new) }
        ensures cause { HasCause (faults self.old) (faults self.new) result };
}
