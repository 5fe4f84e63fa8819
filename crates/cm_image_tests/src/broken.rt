//! A disk on which one kind of call fails.

use std::alloc::Allocator;
use std::fs::{Metadata, OpenFile, OpenOptions, Permissions};
use std::io::{self, ErrorKind, Read, Seek, SeekFrom, Write};
use std::rt::Files;

/// The calls that fail.
#[derive(Clone, Copy, Debug, PartialEq, Eq)]
pub enum Broken {
    /// Opening a file, for want of permission.
    Open,
    Permissions,
    Write,
    Sync,
    Rename,
    /// Bringing a folder to the disk.
    FolderSync,
}

/// Files, of whose calls one kind fails.
#[derive(Drop)]
pub struct BrokenDisk<R: Drop> {
    pub rt: R,
    pub broken: Broken,
}

/// A file of such a disk.
#[derive(Drop)]
pub struct BrokenFile<F: Drop> {
    file: F,
    broken: Broken,
}

fn fails(broken: Broken, call: Broken) -> io::Result<()> {
    if broken != call {
        return Ok(());
    }
    let kind = match call {
        Broken::Open => ErrorKind::PermissionDenied,
        _ => ErrorKind::StorageFull,
    };
    Err(kind.into())
}

impl<F: Read + Drop> Read for BrokenFile<F> {
    fn read(&mut self, buf: &mut [u8]) -> io::Result<usize> {
        self.file.read(buf)
    }
}

impl<F: Write + Drop> Write for BrokenFile<F> {
    fn write(&mut self, buf: &[u8]) -> io::Result<usize> {
        fails(self.broken, Broken::Write)?;
        self.file.write(buf)
    }

    fn flush(&mut self) -> io::Result<()> {
        self.file.flush()
    }
}

impl<F: Seek + Drop> Seek for BrokenFile<F> {
    fn seek(&mut self, to: SeekFrom) -> io::Result<u64> {
        self.file.seek(to)
    }
}

impl<F: OpenFile + Drop> OpenFile for BrokenFile<F> {
    fn metadata(&self) -> io::Result<Metadata> {
        self.file.metadata()
    }

    fn set_len(&self, size: u64) -> io::Result<()> {
        self.file.set_len(size)
    }

    fn sync_all(&self) -> io::Result<()> {
        if self.file.metadata()?.is_dir() {
            fails(self.broken, Broken::FolderSync)?;
        }
        fails(self.broken, Broken::Sync)?;
        self.file.sync_all()
    }

    fn sync_data(&self) -> io::Result<()> {
        self.file.sync_data()
    }

    fn set_permissions(&self, permissions: Permissions) -> io::Result<()> {
        fails(self.broken, Broken::Permissions)?;
        self.file.set_permissions(permissions)
    }
}

impl<R: Files + Drop> Files for BrokenDisk<R> {
    type File = BrokenFile<R::File>;

    type Dir = R::Dir;

    fn open_file(&self, how: &OpenOptions, path: &str) -> io::Result<BrokenFile<R::File>> {
        fails(self.broken, Broken::Open)?;
        let file = self.rt.open_file(how, path)?;
        Ok(BrokenFile {
            file,
            broken: self.broken,
        })
    }

    fn open_dir(&self, path: &str) -> io::Result<R::Dir> {
        self.rt.open_dir(path)
    }

    fn metadata(&self, path: &str) -> io::Result<Metadata> {
        self.rt.metadata(path)
    }

    fn symlink_metadata(&self, path: &str) -> io::Result<Metadata> {
        self.rt.symlink_metadata(path)
    }

    fn copy(&self, from: &str, to: &str) -> io::Result<u64> {
        self.rt.copy(from, to)
    }

    fn rename(&self, from: &str, to: &str) -> io::Result<()> {
        fails(self.broken, Broken::Rename)?;
        self.rt.rename(from, to)
    }

    fn remove_file(&self, path: &str) -> io::Result<()> {
        self.rt.remove_file(path)
    }

    fn create_dir(&self, path: &str) -> io::Result<()> {
        self.rt.create_dir(path)
    }

    fn remove_dir(&self, path: &str) -> io::Result<()> {
        self.rt.remove_dir(path)
    }

    fn remove_dir_all<B: Allocator>(&self, alloc: B, path: &str) -> io::Result<()> {
        self.rt.remove_dir_all(alloc, path)
    }
}
