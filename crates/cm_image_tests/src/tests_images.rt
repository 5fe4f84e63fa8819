//! Images worked out by hand, and vaults that fail or change.

ghost use Rattle.std.specs.Prelude.{◌≡◌, IfOk, None};
ghost use Rattle.std.specs.Io.{ReadsAtMost};
ghost use Rattle.cm_image.specs.Faults.{HasCause};

use crate::broken::{Broken, BrokenDisk};
use cm_geo::Geo;
use cm_image::{
    DirVault, ImageOfStop, ImageRefused, ImageStop, ImageWriteStop, MapVault, Vault, bytes_of,
    image_of, read_image, write_image,
};
use cm_plain::{Failed, NoMemory};
use cm_words::Words;
use std::alloc::{AllocError, Global};
use std::os::unix::fs::{PermissionsExt, symlink};
use std::process::Abort;
use std::rt::Files;
use std::test::Fail;
use std::{fs, io};

// A word that differs from its neighbours in each byte.
fn word_at(at: u32) -> u64 {
    u64::from(at).wrapping_mul(0x9E37_79B9_7F4A_7C15)
}

// The image of a geometry with these words, byte for byte as the format says.
fn image_by_hand(alloc: Global, numbers: &[u32], words: u32) -> Result<Vec<u8>, AllocError> {
    let mut image = b"CMAPWORD".as_slice().to_vec(alloc)?;
    image.extend_from_slice(&[1, 0, 0, 0])?;
    for number in numbers {
        image.extend_from_slice(&number.to_le_bytes())?;
    }
    image.extend_from_slice(&[0; 32])?;
    append_words(&mut image, words)?;
    Ok(image)
}

fn append_words(image: &mut Vec<u8>, words: u32) -> Result<(), AllocError> {
    for at in 0..words {
        image.extend_from_slice(&word_at(at).to_le_bytes())?;
    }
    Ok(())
}

// The image that most rows start from: one segment of one tier of 64 chunks of 4 words, 393 words in all.
fn small_image(alloc: Global) -> Result<Vec<u8>, AllocError> {
    image_by_hand(alloc, &[1, 1, 64, 4, 0], 393)
}

// How image_of refuses bytes, if it does.
fn refusal(alloc: Global, bytes: &[u8]) -> Result<Option<ImageRefused>, NoMemory> {
    match image_of(alloc, bytes) {
        Ok(_) => Ok(None),
        Err(ImageOfStop::Refused(why)) => Ok(Some(why)),
        Err(ImageOfStop::NoMemory) => Err(NoMemory),
    }
}

#[test]
fn the_first_bytes_and_the_length(rt: HostRuntime) -> Result<(), Fail> {
    let map = Words::empty(rt.alloc(), &Geo::new(1, 1, 64, 4, 0)?)?;
    let mut image =
        b"\x43\x4d\x41\x50\x57\x4f\x52\x44\x01\0\0\0\x01\0\0\0\x01\0\0\0\x40\0\0\0\x04\0\0\0\0\0\0\0"
            .as_slice()
            .to_vec(rt.alloc())?;
    image.resize(3208, 0)?;
    let bytes = bytes_of(rt.alloc(), &map)?;
    assert!(rt; bytes.as_slice() == image.as_slice());
    Ok(())
}

#[test]
fn words_of_several_geometries_come_back(rt: HostRuntime) -> Result<(), Fail> {
    let rows = [
        ([1, 1, 64, 4, 0], 393),
        ([2, 1, 64, 4, 0], 786),
        ([4, 2, 128, 8, 4], 10_304),
        ([1, 8, 64, 16, 7], 9_260),
    ];
    for (numbers, words) in rows {
        let image = image_by_hand(rt.alloc(), numbers.as_slice(), words)?;
        let map = image_of(rt.alloc(), image.as_slice())?;
        assert_eq!(rt; map.geo().total_words(), words);
        assert_words(&rt, &map);
        let bytes = bytes_of(rt.alloc(), &map)?;
        assert!(rt; bytes.as_slice() == image.as_slice());
    }
    Ok(())
}

fn assert_words(rt: &impl Abort, map: &Words) {
    for at in 0..map.geo().total_words() {
        assert!(rt; map.get(at) == word_at(at));
    }
}

#[test]
fn another_length_is_refused(rt: HostRuntime) -> Result<(), Fail> {
    let mut image = small_image(rt.alloc())?;
    let whole = image.len();
    assert_eq!(rt; whole, 3208);
    assert_eq!(rt; refusal(rt.alloc(), image.as_slice())?, None);
    for len in 0..whole {
        assert_eq!(rt;
            refusal(rt.alloc(), &image[..len])?,
            Some(ImageRefused::Short),
            "{len}"
        );
    }
    image.push(0)?;
    assert_eq!(rt;
        refusal(rt.alloc(), image.as_slice())?,
        Some(ImageRefused::Long)
    );
    Ok(())
}

#[test]
fn the_first_cause_that_applies_is_told(rt: HostRuntime) -> Result<(), Fail> {
    // Each row sets some bytes of the image, cuts it to a length, and names the refusal.
    let none: &[(usize, u8)] = &[];
    let rows = [
        (none, 3207, ImageRefused::Short),
        (&[(0, b'c')], 3208, ImageRefused::Magic),
        (&[(7, 0)], 3208, ImageRefused::Magic),
        (&[(8, 0)], 3208, ImageRefused::Version),
        (&[(11, 1)], 3208, ImageRefused::Version),
        (&[(12, 3)], 3208, ImageRefused::Geometry),
        (&[(16, 0)], 3208, ImageRefused::Geometry),
        (&[(20, 63)], 3208, ImageRefused::Geometry),
        (&[(24, 5)], 3208, ImageRefused::Geometry),
        (&[(28, 1)], 3208, ImageRefused::Geometry),
        (&[(31, 1)], 3208, ImageRefused::Geometry),
        (&[(32, 1)], 3208, ImageRefused::Geometry),
        (&[(63, 128)], 3208, ImageRefused::Geometry),
        (&[(12, 2)], 3208, ImageRefused::Short),
        (&[(0, 0), (8, 0), (12, 0), (63, 1)], 63, ImageRefused::Short),
        (&[(0, 0), (8, 0), (12, 0), (63, 1)], 64, ImageRefused::Magic),
        (&[(8, 0), (12, 0), (63, 1)], 64, ImageRefused::Version),
        (&[(63, 1)], 64, ImageRefused::Geometry),
        (&[(12, 0)], 64, ImageRefused::Geometry),
    ];
    for (changes, len, why) in rows {
        let mut image = small_image(rt.alloc())?;
        set_bytes(&rt, &mut image, changes);
        assert!(rt; len <= image.len());
        assert_eq!(rt;
            refusal(rt.alloc(), &image[..len])?,
            Some(why),
            "{changes:?} {len}"
        );
    }
    Ok(())
}

fn set_bytes(rt: &impl Abort, image: &mut Vec<u8>, changes: &[(usize, u8)]) {
    for (place, byte) in changes {
        assert!(rt; *place < image.len());
        image[*place] = *byte;
    }
}

// Writes a map and reads it again. Its clause stands on the public clauses alone.
fn written_and_read<V: Vault>(
    alloc: Global,
    vault: &mut V,
    name: &str,
    map: &Words,
) -> Result<Words, ImageStop>
    ensures { V.tells vault.old → IfOk result (λ found. found ≡ map.now) }
{
    map.are_whole();
    match write_image(alloc, vault, name, map) {
        Ok(()) => read_image(alloc, vault, name),
        Err(ImageWriteStop::Fault) => Err(ImageStop::Fault),
        Err(ImageWriteStop::NoMemory) => Err(ImageStop::NoMemory),
    }
}

#[test]
fn a_map_is_kept_in_memory(rt: HostRuntime) -> Result<(), Fail> {
    let image = small_image(rt.alloc())?;
    let map = image_of(rt.alloc(), image.as_slice())?;
    let mut vault = MapVault::new(rt.alloc(), Vec::new(rt.alloc()));
    vault.put("other", b"kept".as_slice())?;
    assert_stop(&rt, &mut vault, "m", Some(ImageStop::Missing));
    written_and_read(rt.alloc(), &mut vault, "m", &map)?;
    assert!(rt; vault.file("m") == Some(image.as_slice()));
    assert!(rt; vault.file("other") == Some(b"kept".as_slice()));
    Ok(())
}

#[test]
fn files_in_memory(rt: HostRuntime) -> Result<(), Fail> {
    let mut vault = MapVault::new(rt.alloc(), Vec::new(rt.alloc()));
    assert!(rt; vault.file("m").is_none());
    vault.put("m", b"CMAP".as_slice())?;
    assert_stop(
        &rt,
        &mut vault,
        "m",
        Some(ImageStop::Refused(ImageRefused::Short)),
    );
    for (name, from, count) in [
        ("m", 0, 4),
        ("m", 2, 2),
        ("m", 4, 0),
        ("m", 5, 0),
        ("absent", 0, 0),
    ] {
        let read = vault
            .read_at(name, from, &mut [0; 8])
            .map_err(|_| "a fault")?;
        assert!(rt; read == count);
    }
    Ok(())
}

// Whether reading an image stops so.
fn assert_stop<V: Vault>(
    rt: &(impl Abort + AllocGlobal),
    vault: &mut V,
    name: &str,
    stop: Option<ImageStop>,
) {
    assert_eq!(rt; read_image(rt.alloc(), vault, name).err(), stop);
}

// Whether writing an image stops for a fault.
fn assert_fault<V: Vault>(rt: &(impl Abort + AllocGlobal), vault: &mut V, name: &str, map: &Words) {
    assert_eq!(rt;
        write_image(rt.alloc(), vault, name, map).err(),
        Some(ImageWriteStop::Fault)
    );
}

#[test]
fn each_call_that_fails_is_a_fault(rt: HostRuntime) -> Result<(), Fail> {
    let image = small_image(rt.alloc())?;
    // Reading looks at the size, the header and the words.
    let fault = Some(ImageStop::Fault);
    for (failing, stop) in [(0, fault), (1, fault), (2, fault), (3, None)] {
        let mut vault = MapVault::new(rt.alloc(), vec![in rt.alloc(); failing]?);
        vault.put("m", image.as_slice())?;
        assert_stop(&rt, &mut vault, "m", stop);
    }
    Ok(())
}

#[test]
fn a_write_that_fails_is_a_fault(rt: HostRuntime) -> Result<(), Fail> {
    let image = small_image(rt.alloc())?;
    let map = image_of(rt.alloc(), image.as_slice())?;
    let mut vault = MapVault::new(rt.alloc(), vec![in rt.alloc(); 0]?);
    vault.put("other", b"kept".as_slice())?;
    assert_fault(&rt, &mut vault, "m", &map);
    assert!(rt; vault.file("other") == Some(b"kept".as_slice()));
    written_and_read(rt.alloc(), &mut vault, "m", &map)?;
    assert!(rt; vault.file("m") == Some(image.as_slice()));
    Ok(())
}

// A vault that tells a size of its own or none, gives a few bytes at a time, fails from a place on, and is never
// written.
#[derive(Drop)]
struct Stub<'a> {
    bytes: &'a [u8],
    size: Option<u64>,
    step: usize,
    broken: u64,
    faults: u64,
}

impl Vault for Stub<'_> {
    ghost tells = { λ _. ⊥ };

    ghost files = { λ _ _. None };

    ghost faults = { λ v. v.faults };

    fn size(&mut self, _name: &str) -> Result<Option<u64>, Failed> {
        match self.size {
            Some(size) => Ok(Some(size)),
            None => {
                self.faults = self.faults.saturating_add(1);
                Err(Failed)
            }
        }
    }

    fn read_at(&mut self, _name: &str, from: u64, buf: &mut [u8]) -> Result<usize, Failed> {
        if from >= self.broken {
            self.faults = self.faults.saturating_add(1);
            return Err(Failed);
        }
        let start = (from as usize).min(self.bytes.len());
        let rest = &self.bytes[start..];
        let count = rest.len().min(buf.len()).min(self.step);
        buf[..count].copy_from_slice(&rest[..count]);
        Ok(count)
    }

    fn write_whole(&mut self, _name: &str, _bytes: &[u8]) -> Result<(), Failed> {
        self.faults = self.faults.saturating_add(1);
        Err(Failed)
    }
}

#[test]
fn a_vault_whose_every_call_fails(rt: HostRuntime) -> Result<(), Fail> {
    let image = small_image(rt.alloc())?;
    let map = image_of(rt.alloc(), image.as_slice())?;
    let mut stub = Stub {
        bytes: image.as_slice(),
        size: None,
        step: 5000,
        broken: 0,
        faults: 0,
    };
    assert_stop(&rt, &mut stub, "m", Some(ImageStop::Fault));
    assert_eq!(rt; stub.faults, 1);
    assert_fault(&rt, &mut stub, "m", &map);
    assert_eq!(rt; stub.faults, 2);
    // The size is told, and the first look at the file fails.
    stub.size = Some(3208);
    assert_stop(&rt, &mut stub, "m", Some(ImageStop::Fault));
    assert_eq!(rt; stub.faults, 3);
    Ok(())
}

#[test]
fn a_file_that_changes_while_it_is_read(rt: HostRuntime) -> Result<(), Fail> {
    let short = Some(ImageStop::Refused(ImageRefused::Short));
    let long = Some(ImageStop::Refused(ImageRefused::Long));
    let fault = Some(ImageStop::Fault);
    // The bytes that are there, the size that was told, the most bytes of a call, the place from which calls fail,
    // and why nothing is read.
    let rows = [
        (3208, 3208, 5000, 5000, None),
        (3208, 3208, 1, 5000, None),
        (3208, 3208, 7, 5000, None),
        (3300, 3208, 64, 5000, None),
        (3207, 3208, 64, 5000, short),
        (63, 3208, 64, 5000, short),
        (64, 3208, 64, 5000, short),
        (0, 3208, 64, 5000, short),
        (3208, 3207, 64, 5000, short),
        (3208, 63, 64, 5000, short),
        (3208, 0, 64, 5000, short),
        (3208, 3209, 64, 5000, long),
        (3208, u64::MAX, 64, 5000, long),
        (3208, 3208, 7, 0, fault),
        (3208, 3208, 7, 64, fault),
        (3208, 3208, 7, 3207, fault),
    ];
    let mut image = small_image(rt.alloc())?;
    image.extend_from_slice(&[7; 100])?;
    for (len, size, step, broken, stop) in rows {
        assert!(rt; len <= image.len());
        let mut stub = Stub {
            bytes: &image[..len],
            size: Some(size),
            step,
            broken,
            faults: 0,
        };
        assert_stop(&rt, &mut stub, "m", stop);
    }
    Ok(())
}

// Makes a folder anew.
fn new_folder<R: Files>(rt: &R, alloc: Global, folder: &str) -> io::Result<()> {
    let _ = rt.remove_dir_all(alloc, folder);
    fs::create_dir(rt, folder)
}

// Whether a file has these bytes.
fn assert_file(
    rt: &(impl Abort + Files + AllocGlobal),
    path: &str,
    bytes: &[u8],
) -> io::Result<()> {
    assert!(rt; fs::read(rt, path)?.as_slice() == bytes);
    Ok(())
}

#[test]
fn a_map_is_kept_in_a_folder(rt: HostRuntime) -> Result<(), Fail> {
    new_folder(&rt, rt.alloc(), "cm_image_kept")?;
    fs::create_dir(&rt, "cm_image_kept/inner")?;
    let image = small_image(rt.alloc())?;
    let map = image_of(rt.alloc(), image.as_slice())?;
    let mut vault = DirVault::new(rt.alloc(), rt.clone()?);
    for name in ["cm_image_kept/m", "cm_image_kept/inner/m"] {
        assert_stop(&rt, &mut vault, name, Some(ImageStop::Missing));
        let found = written_and_read(rt.alloc(), &mut vault, name, &map)?;
        assert_words(&rt, &found);
        assert_file(&rt, name, image.as_slice())?;
    }
    fs::remove_dir_all(&rt, "cm_image_kept")?;
    Ok(())
}

#[test]
fn a_file_is_replaced_with_its_mode(rt: HostRuntime) -> Result<(), Fail> {
    new_folder(&rt, rt.alloc(), "cm_image_replaced")?;
    let name = "cm_image_replaced/m";
    fs::write(&rt, name, [9; 5000].as_slice())?;
    fs::set_permissions(&rt, name, fs::Permissions::from_mode(0o640))?;
    let mut vault = DirVault::new(rt.alloc(), rt.clone()?);
    vault
        .write_whole(name, b"whole".as_slice())
        .map_err(|_| "a fault")?;
    assert_file(&rt, name, b"whole".as_slice())?;
    assert_eq!(rt;
        fs::metadata(&rt, name)?.permissions().mode() & 0o777,
        0o640
    );
    // Nothing is left beside it.
    assert_eq!(rt; fs::read_dir(&rt, "cm_image_replaced")?.count(), 1);
    fs::remove_dir_all(&rt, "cm_image_replaced")?;
    Ok(())
}

#[test]
fn an_open_file_is_read_to_its_end(rt: HostRuntime) -> Result<(), Fail> {
    new_folder(&rt, rt.alloc(), "cm_image_open")?;
    let (name, other) = ("cm_image_open/m", "cm_image_open/n");
    fs::write(&rt, name, b"an old file".as_slice())?;
    fs::write(&rt, other, b"new".as_slice())?;
    let mut vault = DirVault::new(rt.alloc(), rt.clone()?);
    assert!(rt; matches!(vault.size(name), Ok(Some(11))));
    fs::rename(&rt, other, name)?;
    assert!(rt; matches!(vault.read_at(name, 3, &mut [0; 64]), Ok(8)));
    assert!(rt; matches!(vault.size(name), Ok(Some(3))));
    fs::remove_dir_all(&rt, "cm_image_open")?;
    Ok(())
}

#[test]
fn what_is_no_file_is_a_fault(rt: HostRuntime) -> Result<(), Fail> {
    new_folder(&rt, rt.alloc(), "cm_image_faults")?;
    fs::write(&rt, "cm_image_faults/f", b"kept".as_slice())?;
    symlink(&rt, "loop", "cm_image_faults/loop")?;
    let image = small_image(rt.alloc())?;
    let map = image_of(rt.alloc(), image.as_slice())?;
    let mut vault = DirVault::new(rt.alloc(), rt.clone()?);
    // A folder, a device, a name below a file, a link to itself, and a name that no system takes.
    for name in [
        "cm_image_faults",
        "/dev/full",
        "cm_image_faults/f/m",
        "cm_image_faults/loop",
        "a\0b",
    ] {
        assert_stop(&rt, &mut vault, name, Some(ImageStop::Fault));
        assert_fault(&rt, &mut vault, name, &map);
    }
    assert_file(&rt, "cm_image_faults/f", b"kept".as_slice())?;
    fs::remove_dir_all(&rt, "cm_image_faults")?;
    Ok(())
}

#[test]
fn what_may_not_be_written_is_a_fault(rt: HostRuntime) -> Result<(), Fail> {
    new_folder(&rt, rt.alloc(), "cm_image_closed")?;
    fs::write(&rt, "cm_image_closed/f", b"kept".as_slice())?;
    fs::set_permissions(&rt, "cm_image_closed/f", fs::Permissions::from_mode(0o444))?;
    let mut vault = DirVault::new(rt.alloc(), rt.clone()?);
    for name in ["cm_image_closed/f", "cm_image_closed/absent/m", ""] {
        assert!(rt; vault.write_whole(name, b"new".as_slice()).is_err());
    }
    assert_file(&rt, "cm_image_closed/f", b"kept".as_slice())?;
    fs::remove_dir_all(&rt, "cm_image_closed")?;
    Ok(())
}

// A vault over a folder, in which one kind of call fails.
fn broken_vault(rt: &HostRuntime, broken: Broken) -> io::Result<DirVault<BrokenDisk<HostRuntime>>> {
    let disk = BrokenDisk {
        rt: rt.clone()?,
        broken,
    };
    Ok(DirVault::new(rt.alloc(), disk))
}

#[test]
fn a_file_that_may_not_be_opened_is_a_fault_and_not_missing(rt: HostRuntime) -> Result<(), Fail> {
    new_folder(&rt, rt.alloc(), "cm_image_forbidden")?;
    let name = "cm_image_forbidden/m";
    let image = small_image(rt.alloc())?;
    let map = image_of(rt.alloc(), image.as_slice())?;
    fs::write(&rt, name, image.as_slice())?;
    let mut vault = broken_vault(&rt, Broken::Open)?;
    assert_stop(&rt, &mut vault, name, Some(ImageStop::Fault));
    assert!(rt; vault.read_at(name, 0, &mut [0; 64]).is_err());
    assert_fault(&rt, &mut vault, name, &map);
    assert_stop(
        &rt,
        &mut vault,
        "cm_image_forbidden/absent",
        Some(ImageStop::Missing),
    );
    assert_file(&rt, name, image.as_slice())?;
    fs::remove_dir_all(&rt, "cm_image_forbidden")?;
    Ok(())
}

#[test]
fn a_folder_that_cant_be_brought_to_the_disk_is_a_fault_and_the_new_file_stands(
    rt: HostRuntime,
) -> Result<(), Fail> {
    new_folder(&rt, rt.alloc(), "cm_image_unsynced")?;
    let name = "cm_image_unsynced/m";
    fs::write(&rt, name, b"old".as_slice())?;
    let mut vault = broken_vault(&rt, Broken::FolderSync)?;
    assert!(rt; vault.write_whole(name, b"new".as_slice()).is_err());
    assert_file(&rt, name, b"new".as_slice())?;
    assert_eq!(rt; fs::read_dir(&rt, "cm_image_unsynced")?.count(), 1);
    fs::remove_dir_all(&rt, "cm_image_unsynced")?;
    Ok(())
}

#[test]
fn after_a_step_that_fails_the_old_file_stands(rt: HostRuntime) -> Result<(), Fail> {
    new_folder(&rt, rt.alloc(), "cm_image_broken")?;
    let name = "cm_image_broken/m";
    fs::write(&rt, name, b"kept".as_slice())?;
    // A mode that can't be set, a full disk, a disk that can't be written to, and a name that can't be moved.
    for broken in [
        Broken::Permissions,
        Broken::Write,
        Broken::Sync,
        Broken::Rename,
    ] {
        let mut vault = broken_vault(&rt, broken)?;
        assert!(rt; vault.write_whole(name, b"new".as_slice()).is_err());
    }
    assert_file(&rt, name, b"kept".as_slice())?;
    // Nothing is left beside it.
    assert_eq!(rt; fs::read_dir(&rt, "cm_image_broken")?.count(), 1);
    fs::remove_dir_all(&rt, "cm_image_broken")?;
    Ok(())
}
