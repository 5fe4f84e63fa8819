//! A map's words as bytes, and bytes as a map's words.

ghost use Rattle.std.specs.Prelude.{◌≡◌, Some, None, IfErr, IfOk, MatchResult, length, take};
ghost use Rattle.cm_words.specs.Maps.{MapWords};
ghost use Rattle.cm_image.specs.Images.{IsMap, header_bytes, image_bytes, image_length};
ghost use Rattle.cm_image.specs.Refusals.{length_refusal, refusal_of};
ghost use Rattle.cm_image.specs.Stops.{StopsImage};
ghost use Rattle.cm_image.specs.declared.image.ImageOfStop.TheVariants as of_stop;

use crate::ImageRefused;
use crate::header::{HEADER, geo_of, header_of};
use crate::words::{extend_bytes, extend_words};
use cm_geo::Geo;
use cm_plain::NoMemory;
use cm_words::Words;
use std::alloc::{AllocError, Global};
use std::cmp::Ordering;

/// Why bytes gave no words.
#[derive(Clone, Copy, Debug, PartialEq, Eq)]
pub enum ImageOfStop {
    /// They are no image.
    Refused(ImageRefused),
    /// No memory was left.
    NoMemory,
}

impl From<ImageRefused> for ImageOfStop {
    ghost from_gives = { λ why e. e ≡ of_stop.Refused why };

    fn from(why: ImageRefused) -> ImageOfStop {
        ImageOfStop::Refused(why)
    }
}

impl From<AllocError> for ImageOfStop {
    ghost from_gives = { λ _ e. e ≡ of_stop.NoMemory };

    fn from(_error: AllocError) -> ImageOfStop {
        ImageOfStop::NoMemory
    }
}

/// The map whose image these bytes are, or why they are none: the first cause that applies. Takes memory, for the
/// words alone.
pub fn image_of(alloc: Global, bytes: &[u8]) -> Result<Words, ImageOfStop>
    ensures image { IfOk result (λ map. (refusal_of bytes.now ≡ None) × (bytes.now ≡ image_bytes map)) }
    ensures cause { IfErr result (StopsImage bytes.now) }

    // The image of a map gives that map, and no other.
    ensures each { (map : MapWords) → IsMap map → bytes.now ≡ image_bytes map
        → MatchResult result (λ found. found ≡ map) (λ stop. stop ≡ of_stop.NoMemory) }
{
    let geo = geo_in(bytes)?;
    let mut words = Vec::with_capacity(alloc, geo.total_words() as usize)?;
    extend_words(&mut words, &bytes[HEADER..])?;
    let map = Words::of(&geo, words);
    map.are_whole();
    Ok(map)
}

// The geometry of an image.
fn geo_in(bytes: &[u8]) -> Result<Geo, ImageRefused>
    ensures { MatchResult result
        (λ geo. (refusal_of bytes.now ≡ None) × (take HEADER bytes.now ≡ header_bytes geo)
        × (length bytes.now ≡ image_length geo))
        (λ why. refusal_of bytes.now ≡ Some why) }
{
    if bytes.len() < HEADER {
        return Err(ImageRefused::Short);
    }
    let geo = geo_of(&bytes[..HEADER])?;
    check_length(&geo, bytes.len() as u64)?;
    Ok(geo)
}

/// Whether an image of this geometry has so many bytes.
pub(crate) fn check_length(geo: &Geo, length: u64) -> Result<(), ImageRefused>
    ensures { MatchResult result
        (λ _. length ≡ image_length geo.now)
        (λ why. length_refusal (image_length geo.now) length ≡ Some why) }
{
    let wanted = HEADER as u64 + 8 * u64::from(geo.total_words());
    match length.cmp(&wanted) {
        Ordering::Less => Err(ImageRefused::Short),
        Ordering::Equal => Ok(()),
        Ordering::Greater => Err(ImageRefused::Long),
    }
}

/// The image of a map. Takes memory: NoMemory where none is left, and no other error.
pub fn bytes_of(alloc: Global, words: &Words) -> Result<Vec<u8>, NoMemory>
    ensures { IfOk result (λ bytes. bytes.items ≡ image_bytes words.now) }
{
    words.are_whole();
    let geo = words.geo();
    let mut bytes = Vec::with_capacity(alloc, HEADER + 8 * geo.total_words() as usize)?;
    bytes.extend_from_slice(&header_of(geo))?;
    for segment in 0..geo.segments() {
        extend_bytes(&mut bytes, words.segment(segment))?;
    }
    Ok(bytes)
}
