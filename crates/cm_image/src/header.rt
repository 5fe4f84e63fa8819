//! The first 64 bytes of an image.

ghost use Rattle.std.specs.Prelude.{◌≡◌, ◌≤◌, ◌+◌, ◌==◌, Some, None, MatchResult, false, length, drop, take};
ghost use Rattle.std.specs.List.{list_all};
ghost use Rattle.std.specs.Str.{bytes_eq};
ghost use Rattle.cm_geo.specs.Geometry.{IsGeoOf, refusal};
ghost use Rattle.cm_image.specs.Images.{header_bytes, letters};
ghost use Rattle.cm_image.specs.Refusals.{header_refusal, number_at};

use crate::ImageRefused;
use byteorder::{ByteOrder, LittleEndian};
use cm_geo::{Geo, GeoRefused};

/// How many bytes the header has.
pub(crate) const HEADER: usize = 64;

const LETTERS: [u8; 8] = *b"CMAPWORD";

const VERSION: u32 = 1;

/// The geometry that a header has, or the first thing that is wrong with it.
pub(crate) fn geo_of(header: &[u8]) -> Result<Geo, ImageRefused>
    requires { length header.now ≡ HEADER }
    ensures { MatchResult result
        (λ geo. (header_refusal header.now ≡ None) × (header.now ≡ header_bytes geo))
        (λ why. header_refusal header.now ≡ Some why) }
{
    if !has_letters(header) {
        return Err(ImageRefused::Magic);
    }
    if number_at(header, 8) != VERSION {
        return Err(ImageRefused::Version);
    }
    let Ok(geo) = geo_of_numbers(header) else {
        return Err(ImageRefused::Geometry);
    };
    if !is_zero(&header[32..]) {
        return Err(ImageRefused::Geometry);
    }
    Ok(geo)
}

fn has_letters(header: &[u8]) -> bool
    requires { length header.now ≡ HEADER }
    ensures { result ≡ bytes_eq (take 8 header.now) letters }
{
    &header[..8] == LETTERS.as_slice()
}

fn is_zero(bytes: &[u8]) -> bool
    ensures { result ≡ list_all (λ byte. byte == 0) bytes.now }
{
    bytes.iter().all(|byte| *byte == 0)
}

// The geometry of a header's numbers.
fn geo_of_numbers(header: &[u8]) -> Result<Geo, GeoRefused>
    requires { length header.now ≡ HEADER }
    ensures { let h = header.now in
        let refused = refusal (number_at 12 h) (number_at 16 h) (number_at 20 h) (number_at 24 h) (number_at 28 h) in
        MatchResult result
        (λ geo. (refused ≡ None) × IsGeoOf geo (number_at 12 h) (number_at 16 h) (number_at 20 h) (number_at 24 h) (number_at 28 h))
        (λ why. refused ≡ Some why) }
{
    let segments = number_at(header, 12);
    let tiers = number_at(header, 16);
    let chunks = number_at(header, 20);
    let chunk_words = number_at(header, 24);
    let extra = number_at(header, 28);
    Geo::new(segments, tiers, chunks, chunk_words, extra)
}

// The number in four bytes of a header.
fn number_at(header: &[u8], place: usize) -> u32
    requires { place + 4 ≤ length header.now }
    ensures { result ≡ number_at place header.now }
{
    LittleEndian::read_u32(&header[place..])
}

/// The header of a geometry's map.
pub(crate) fn header_of(geo: &Geo) -> [u8; HEADER]
    ensures { result ≡ header_bytes geo.now }
{
    let numbers = [
        VERSION,
        geo.segments(),
        geo.tiers(),
        geo.chunks(),
        geo.chunk_words(),
        geo.extra(),
    ];
    let mut header = [0; HEADER];
    header[..8].copy_from_slice(LETTERS.as_slice());
    LittleEndian::write_u32_into(numbers.as_slice(), &mut header[8..32]);
    header
}
