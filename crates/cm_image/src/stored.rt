//! Images in the files of a vault.

ghost use Rattle.std.specs.Prelude.{◌≡◌, ◌≤◌, ◌<◌, ◌+◌, ◌*◌, ◌^◌, Some, length, take, IfErr, IfOk, MatchResult, OnOk, vec_len};
ghost use Rattle.cm_geo.specs.Addresses.{words_in_map};
ghost use Rattle.cm_words.specs.Maps.{MapWords};
ghost use Rattle.cm_image.specs.Faults.{HasCause};
ghost use Rattle.cm_image.specs.Files.{SameBut, SameFiles, bytes_from};
ghost use Rattle.cm_image.specs.Images.{IsMap, image_bytes, image_length, word_bytes};
ghost use Rattle.cm_image.specs.declared.stored.ImageStop.TheVariants as stop;
ghost use Rattle.cm_image.specs.declared.stored.ImageWriteStop.TheVariants as write_stop;
ghost use Rattle.cm_image.specs.Stops.{BeginsImage, HoldsImage, IsFaultOrNoMemory, StopsGeo, StopsPiece, StopsRead, StopsWrite};

use crate::header::{HEADER, geo_of};
use crate::image::{bytes_of, check_length};
use crate::words::extend_words;
use crate::{ImageRefused, Vault};
use cm_geo::Geo;
use cm_plain::{Failed, NoMemory};
use cm_words::Words;
use std::alloc::{AllocError, Global};

/// Why no map was read.
#[derive(Clone, Copy, Debug, PartialEq, Eq)]
pub enum ImageStop {
    /// There is no file of that name.
    Missing,
    /// The file is no image.
    Refused(ImageRefused),
    /// A call of the vault failed.
    Fault,
    /// No memory was left.
    NoMemory,
}

impl From<ImageRefused> for ImageStop {
    ghost from_gives = { λ why e. e ≡ stop.Refused why };

    fn from(why: ImageRefused) -> ImageStop {
        ImageStop::Refused(why)
    }
}

impl From<Failed> for ImageStop {
    ghost from_gives = { λ _ e. e ≡ stop.Fault };

    fn from(_failed: Failed) -> ImageStop {
        ImageStop::Fault
    }
}

impl From<AllocError> for ImageStop {
    ghost from_gives = { λ _ e. e ≡ stop.NoMemory };

    fn from(_error: AllocError) -> ImageStop {
        ImageStop::NoMemory
    }
}

/// Why no image was written.
#[derive(Clone, Copy, Debug, PartialEq, Eq)]
pub enum ImageWriteStop {
    /// The vault failed. Nothing is said of the file.
    Fault,
    /// No memory was left, and nothing was written.
    NoMemory,
}

impl From<Failed> for ImageWriteStop {
    ghost from_gives = { λ _ e. e ≡ write_stop.Fault };

    fn from(_failed: Failed) -> ImageWriteStop {
        ImageWriteStop::Fault
    }
}

impl From<NoMemory> for ImageWriteStop {
    ghost from_gives = { λ _ e. e ≡ write_stop.NoMemory };

    fn from(_no_memory: NoMemory) -> ImageWriteStop {
        ImageWriteStop::NoMemory
    }
}

// The most bytes that are asked for at once.
const PIECE: usize = 65_536;

/// The map of an image that a vault holds. Takes memory, for the words alone. A file that ends before the size that
/// the vault told is short.
pub fn read_image<V: Vault>(alloc: Global, vault: &mut V, name: &str) -> Result<Words, ImageStop>
    ensures tells { V.tells vault.old → V.tells vault.new }
    ensures files { V.tells vault.old → SameFiles (V.files vault.old) (V.files vault.new) }
    ensures rises { V.faults vault.old ≤ V.faults vault.new }
    ensures image { IfOk result
        (λ map. V.tells vault.old → HoldsImage (V.files vault.old name.now) map) }
    ensures cause { IfErr result
        (StopsRead (V.tells vault.old) (V.files vault.old name.now) (V.faults vault.old) (V.faults vault.new)) }

    // The image of a map gives that map, and no other.
    ensures each { (map : MapWords) → IsMap map → V.tells vault.old
        → V.files vault.old name.now ≡ Some (image_bytes map)
        → MatchResult result (λ found. found ≡ map) IsFaultOrNoMemory }
{
    let Some(size) = vault.size(name)? else {
        return Err(ImageStop::Missing);
    };
    let geo = read_geo(vault, name, size)?;
    let words = read_words(alloc, vault, name, &geo)?;
    let map = Words::of(&geo, words);
    map.are_whole();
    Ok(map)
}

// The geometry of an image of this size.
fn read_geo<V: Vault>(vault: &mut V, name: &str, size: u64) -> Result<Geo, ImageStop>
    ensures tells { V.tells vault.old → V.tells vault.new }
    ensures files { V.tells vault.old → SameFiles (V.files vault.old) (V.files vault.new) }
    ensures rises { V.faults vault.old ≤ V.faults vault.new }
    ensures geo { IfOk result (λ geo. (size ≡ image_length geo)
        × (V.tells vault.old → BeginsImage (V.files vault.old name.now) geo)) }
    ensures cause { IfErr result
        (StopsGeo (V.tells vault.old) (V.files vault.old name.now) size (V.faults vault.old) (V.faults vault.new)) }
{
    if size < HEADER as u64 {
        return Err(ImageStop::Refused(ImageRefused::Short));
    }
    let mut header = [0u8; HEADER];
    read_piece(vault, name, 0, &mut header)?;
    let geo = geo_of(&header)?;
    check_length(&geo, size)?;
    Ok(geo)
}

// The words of a geometry's map, from behind the header.
fn read_words<V: Vault>(
    alloc: Global,
    vault: &mut V,
    name: &str,
    geo: &Geo,
) -> Result<Vec<u64>, ImageStop>
    ensures tells { V.tells vault.old → V.tells vault.new }
    ensures files { V.tells vault.old → SameFiles (V.files vault.old) (V.files vault.new) }
    ensures rises { V.faults vault.old ≤ V.faults vault.new }
    ensures count { IfOk result (λ words. length words.items ≡ words_in_map geo.now) }
    ensures words { IfOk result (λ words. V.tells vault.old
        → word_bytes words.items ≡ take (8 * words_in_map geo.now) (bytes_from (V.files vault.old name.now) HEADER)) }
    ensures cause { IfErr result
        (StopsPiece (V.tells vault.old) (bytes_from (V.files vault.old name.now) HEADER) (8 * words_in_map geo.now)
        (V.faults vault.old) (V.faults vault.new)) }
{
    let count = geo.total_words() as usize;
    let mut words = Vec::with_capacity(alloc, count)?;
    let mut piece = [0u8; PIECE];
    while words.len() < count {
        let at = words.len();
        let more = (count - at).min(PIECE / 8);
        let part = &mut piece[..8 * more];
        read_piece(vault, name, (HEADER + 8 * at) as u64, part)?;
        extend_words(&mut words, part)?;
    }
    Ok(words)
}

// Fills a buffer with the bytes of a file from a place on.
fn read_piece<V: Vault>(
    vault: &mut V,
    name: &str,
    from: u64,
    piece: &mut [u8],
) -> Result<(), ImageStop>
    requires { from + length piece.old < 2 ^ 63 }
    ensures tells { V.tells vault.old → V.tells vault.new }
    ensures files { V.tells vault.old → SameFiles (V.files vault.old) (V.files vault.new) }
    ensures rises { V.faults vault.old ≤ V.faults vault.new }
    ensures piece { OnOk result (V.tells vault.old
        → piece.new ≡ take (length piece.old) (bytes_from (V.files vault.old name.now) from)) }
    ensures cause { IfErr result
        (StopsPiece (V.tells vault.old) (bytes_from (V.files vault.old name.now) from) (length piece.old)
        (V.faults vault.old) (V.faults vault.new)) }
{
    let mut at = 0;
    while at < piece.len() {
        let count = vault.read_at(name, from + at as u64, &mut piece[at..])?;
        if count == 0 {
            return Err(ImageStop::Refused(ImageRefused::Short));
        }
        at += count;
    }
    Ok(())
}

/// Writes the image of a map into a file of a vault. Takes memory, all of it before it writes.
pub fn write_image<V: Vault>(
    alloc: Global,
    vault: &mut V,
    name: &str,
    words: &Words,
) -> Result<(), ImageWriteStop>
    ensures tells { V.tells vault.old → V.tells vault.new }
    ensures written { OnOk result
        (V.tells vault.old → V.files vault.new name.now ≡ Some (image_bytes words.now)) }
    ensures others { V.tells vault.old → SameBut name.now (V.files vault.old) (V.files vault.new) }
    ensures rises { V.faults vault.old ≤ V.faults vault.new }
    ensures cause { IfErr result (StopsWrite vault.old vault.new (V.faults vault.old) (V.faults vault.new)) }
{
    let bytes = bytes_of(alloc, words)?;
    vault.write_whole(name, bytes.as_slice())?;
    Ok(())
}
