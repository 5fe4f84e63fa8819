//! Values from the published vectors and from examples worked out by hand.

use crate::{Geo, GeoRefused, hash};
use std::test::Fail;

#[test]
fn hashes_of_the_published_vectors(rt: HostRuntime) {
    assert_eq!(rt; hash(b""), 0xcbf2_9ce4_8422_2325);
    assert_eq!(rt; hash(b"a"), 0xaf63_dc4c_8601_ec8c);
    assert_eq!(rt; hash(b"foobar"), 0x8594_4171_f739_67e8);
}

#[test]
fn refuses_the_first_number_outside_its_limit(rt: HostRuntime) {
    let cases = [
        ((1, 1, 64, 4, 0), None),
        ((16, 4, 1024, 8, 48), None),
        ((3, 1, 64, 4, 0), Some(GeoRefused::Segments)),
        ((1, 9, 64, 4, 0), Some(GeoRefused::Tiers)),
        ((1, 1, 96, 4, 0), Some(GeoRefused::Chunks)),
        ((1, 1, 64, 5, 0), Some(GeoRefused::ChunkWords)),
        ((1, 1, 64, 4, 1), Some(GeoRefused::Allowance)),
        ((64, 8, 4096, 16, 0), Some(GeoRefused::TooManyWords)),
        ((3, 9, 96, 5, 9), Some(GeoRefused::Segments)),
    ];
    for ((segments, tiers, chunks, chunk_words, extra), refused) in cases {
        let found = Geo::new(segments, tiers, chunks, chunk_words, extra).err();
        assert_eq!(rt;
            found,
            refused,
            "at {segments},{tiers},{chunks},{chunk_words},{extra}"
        );
    }
}

#[test]
fn splits_a_hash(rt: HostRuntime) -> Result<(), Fail> {
    let geo = Geo::new(1, 1, 64, 4, 0)?;
    assert_eq!(rt; geo.segment_of(hash(b"a")), 0);
    assert_eq!(rt; geo.fingerprint_of(hash(b"a")), 0x8601_ec8c);
    for key in [b"a".as_slice(), b"ba", b"bba"] {
        assert_eq!(rt;
            geo.home_of(geo.fingerprint_of(hash(key))),
            12,
            "of {key:?}"
        );
    }
    Ok(())
}

#[test]
fn finds_the_words_of_a_small_segment(rt: HostRuntime) -> Result<(), Fail> {
    let geo = Geo::new(1, 1, 64, 4, 0)?;
    assert_eq!(rt; geo.segment_words(), 393);
    assert_eq!(rt; geo.total_words(), 393);
    assert_eq!(rt; geo.tier_at(0), 4);
    assert_eq!(rt; geo.bits_at(0, 0), 8);
    assert_eq!(rt; geo.slot_at(0, 12), 21);
    assert_eq!(rt; geo.chunk_at(0, 0), 137);
    Ok(())
}

#[test]
fn needs_and_fits_at_the_edges(rt: HostRuntime) -> Result<(), Fail> {
    let narrow = Geo::new(1, 1, 64, 4, 0)?;
    let wide = Geo::new(1, 1, 64, 16, 0)?;
    assert_eq!(rt; narrow.need(1, 1), 1);
    assert_eq!(rt; narrow.need(1, 4096), 129);
    assert_eq!(rt; wide.need(1, 4096), 33);
    let cases = [
        (0, 1, false),
        (1, 1, true),
        (256, 1, true),
        (257, 1, false),
        (1, 4096, true),
        (1, 4097, false),
    ];
    for (key_len, value_len, fits) in cases {
        assert_eq!(rt;
            wide.fits(key_len, value_len),
            fits,
            "at {key_len},{value_len}"
        );
    }
    assert!(rt; !narrow.fits(1, 4096));
    Ok(())
}
