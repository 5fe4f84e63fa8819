//! Files of the operating system.

ghost use Rattle.std.specs.Prelude.{◌≡◌, None, Ok, IfOk};
ghost use Rattle.std.specs.Io.{ReadsAtMost};
ghost use Rattle.cm_image.specs.Faults.{HasCause};

use crate::Vault;
use cm_plain::Failed;
use std::alloc::Global;
use std::fs::{self, File, OpenFile, OpenOptions, Permissions};
use std::io::{self, ErrorKind, Read, Seek, SeekFrom, Write};
use std::path::Path;
use std::rt::Files;

/// Files of the operating system. A name is a path. It tells no content.
///
/// `size` opens the file, and `read_at` reads that file for as long as its name stays the same. So one that another
/// program replaces meanwhile is read as it was, whole. Only regular files are read or replaced: a folder, a device
/// or a pipe is a fault. Want of memory is a fault too.
#[derive(Drop)]
pub struct DirVault<R: Files + Drop> {
    alloc: Global,
    rt: R,
    open: Option<OpenImage<R::File>>,
    faults: u64,
}

// A file that was opened for reading, with its name.
#[derive(Drop)]
struct OpenImage<F> {
    name: String,
    file: F,
}

impl<R: Files + Drop> DirVault<R> {
    /// A vault over these files. Takes no memory.
    pub fn new(alloc: Global, rt: R) -> DirVault<R>
        ensures faults { ⟦<DirVault<R> as Vault>⟧.faults result ≡ 0 }
    {
        DirVault {
            alloc,
            rt,
            open: None,
            faults: 0,
        }
    }

    // Counts a failure.
    fn count<T>(&mut self, answer: io::Result<T>) -> Result<T, Failed>
        ensures value { IfOk result (λ value. answer ≡ Ok value) }
        ensures cause { HasCause self.old.faults self.new.faults result }
    {
        match answer {
            Ok(answer) => Ok(answer),
            Err(_) => {
                self.faults = self.faults.saturating_add(1);
                Err(Failed)
            }
        }
    }

    // Opens a file, in place of the one that was open.
    fn open(&mut self, name: &str) -> io::Result<u64>
        ensures { self.new.faults ≡ self.old.faults }
    {
        self.open = None;
        // The look comes first, since to open a pipe could wait for ever.
        if !fs::metadata(&self.rt, name)?.is_file() {
            return Err(ErrorKind::InvalidInput.into());
        }
        let file = File::open(&self.rt, name)?;
        let size = file.metadata()?.len();
        let name = String::from_str(self.alloc, name)?;
        self.open = Some(OpenImage { name, file });
        Ok(size)
    }

    fn size_of(&mut self, name: &str) -> io::Result<Option<u64>>
        ensures { self.new.faults ≡ self.old.faults }
    {
        match self.open(name) {
            Ok(size) => Ok(Some(size)),
            Err(error) if error.kind() == ErrorKind::NotFound => Ok(None),
            Err(error) => Err(error),
        }
    }

    fn read(&mut self, name: &str, from: u64, buf: &mut [u8]) -> io::Result<usize>
        ensures faults { self.new.faults ≡ self.old.faults }
        ensures bound { ReadsAtMost result buf.new }
    {
        if !self.has_open(name) {
            self.open(name)?;
        }
        match &mut self.open {
            Some(image) => {
                image.file.seek(SeekFrom::Start(from))?;
                image.file.read(buf)
            }
            None => Err(ErrorKind::NotFound.into()),
        }
    }

    fn has_open(&self, name: &str) -> bool {
        match &self.open {
            Some(image) => image.name.as_str() == name,
            None => false,
        }
    }
}

impl<R: Files + Drop> Vault for DirVault<R> {
    ghost tells = { λ _. ⊥ };

    ghost files = { λ _ _. None };

    ghost faults = { λ v. v.faults };

    fn size(&mut self, name: &str) -> Result<Option<u64>, Failed> {
        let size = self.size_of(name);
        self.count(size)
    }

    fn read_at(&mut self, name: &str, from: u64, buf: &mut [u8]) -> Result<usize, Failed> {
        let count = self.read(name, from, buf);
        self.count(count)
    }

    /// A new file is written beside the old one, brought to the disk, and moved over it: a reader and a power cut find
    /// the old file or the new one, whole. After a failure the old file stands, unless only its folder could not be
    /// brought to the disk.
    fn write_whole(&mut self, name: &str, bytes: &[u8]) -> Result<(), Failed> {
        self.open = None;
        let written = replace(self.alloc, &self.rt, name, bytes);
        self.count(written)
    }
}

// Replaces a file, or makes it where there is none. The folder is opened first, so that a folder that can't be
// opened leaves the old file.
fn replace<R: Files>(alloc: Global, rt: &R, name: &str, bytes: &[u8]) -> io::Result<()> {
    let permissions = replaceable(rt, name)?;
    let folder = folder_of(rt, name)?;
    let (beside, file) = new_beside(alloc, rt, name)?;
    let moved = fill(file, bytes, permissions).and_then(|()| fs::rename(rt, beside.as_str(), name));
    if moved.is_err() {
        let _ = fs::remove_file(rt, beside.as_str());
    }
    moved?;
    folder.sync_all()
}

// The permissions of the file that is to be replaced, if there is one. What is no regular file isn't replaced, nor is
// a file that nobody may write.
fn replaceable<R: Files>(rt: &R, name: &str) -> io::Result<Option<Permissions>> {
    match fs::metadata(rt, name) {
        Ok(found) if !found.is_file() => Err(ErrorKind::InvalidInput.into()),
        Ok(found) if found.permissions().readonly() => Err(ErrorKind::PermissionDenied.into()),
        Ok(found) => Ok(Some(found.permissions())),
        Err(error) if error.kind() == ErrorKind::NotFound => Ok(None),
        Err(error) => Err(error),
    }
}

// How many names are tried for a new file: those of programs that write the same file, or that were broken off.
const TRIES: u32 = 100;

// A new file in the same folder, under a name that was free, which no other program takes.
fn new_beside<R: Files>(alloc: Global, rt: &R, name: &str) -> io::Result<(String, R::File)> {
    for number in 0..TRIES {
        let beside = format!(in alloc; "{name}.{number}.new")?;
        match File::create_new(rt, beside.as_str()) {
            Ok(file) => return Ok((beside, file)),
            Err(error) if error.kind() == ErrorKind::AlreadyExists => {}
            Err(error) => return Err(error),
        }
    }
    Err(ErrorKind::AlreadyExists.into())
}

// Writes a new file and brings it to the disk.
fn fill<F: Write + OpenFile + Drop>(
    mut file: F,
    bytes: &[u8],
    permissions: Option<Permissions>,
) -> io::Result<()> {
    if let Some(permissions) = permissions {
        file.set_permissions(permissions)?;
    }
    file.write_all(bytes)?;
    file.sync_all()
}

// The folder in which a file lies.
fn folder_of<R: Files>(rt: &R, name: &str) -> io::Result<R::File> {
    match Path::new(name).parent() {
        Some(folder) if !folder.as_str().is_empty() => File::open(rt, folder.as_str()),
        _ => File::open(rt, "."),
    }
}
