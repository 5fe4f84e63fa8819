//! Files in memory, with calls that are to fail.

ghost use Rattle.std.specs.Prelude.{◌≡◌, ◌≤◌, ◌↔◌, [], ◌∷◌, None, Some, IsErr, IfOk, OnErr, OnOk, length, option_map};
ghost use Rattle.std.specs.Io.{ReadsAtMost};
ghost use Rattle.cm_image.specs.Faults.{HasCause, Rose};
ghost use Rattle.cm_image.specs.Files.{ReadsPrefix, SameBut, SameFiles, bytes_from};
ghost use Rattle.cm_image.specs.InMemory.{CountsCall, IsToFail, SameCalls, failing_in, faults_in, files_in, next_call};

use crate::Vault;
use cm_plain::{Failed, NoMemory};
use std::alloc::Global;
use std::collections::HashMap;

/// Files in memory. Want of memory is a fault where a file is written whole, and is counted.
#[derive(Drop)]
pub struct MapVault {
    alloc: Global,
    files: HashMap<String, Vec<u8>>,
    failing: Vec<u32>,
    calls: u32,
    faults: u64,
}

#[tactic(auto, unfolding(crate::specs::InMemory::files_in))]
impl MapVault {
    /// A vault without files. The calls of `Vault` with these numbers, counted from 0, fail. Takes no memory.
    pub fn new(alloc: Global, failing: Vec<u32>) -> MapVault
        ensures files { SameFiles (λ name. None) (files_in result) }
        ensures failing { failing_in result ≡ failing.items }
        ensures calls { next_call result ≡ 0 }
        ensures faults { faults_in result ≡ 0 }
    {
        MapVault {
            alloc,
            files: HashMap::new(alloc),
            failing,
            calls: 0,
            faults: 0,
        }
    }

    /// The bytes of a file, or None exactly where there is no file of that name.
    pub fn file(&self, name: &str) -> Option<&[u8]>
        ensures { option_map (λ bytes. bytes.now) result ≡ files_in self.now name.now }
    {
        match self.files.get(name) {
            Some(bytes) => Some(bytes.as_slice()),
            None => None,
        }
    }

    /// Sets a file. Takes memory by the vault's own allocator; after NoMemory no file has changed. This is no call
    /// of `Vault`, and isn't counted among them.
    pub fn put(&mut self, name: &str, bytes: &[u8]) -> Result<(), NoMemory>
        ensures set { OnOk result (files_in self.new name.now ≡ Some bytes.now) }
        ensures others { SameBut name.now (files_in self.old) (files_in self.new) }
        ensures unchanged { OnErr result (SameFiles (files_in self.old) (files_in self.new)) }
        ensures calls { SameCalls self.old self.new }
        ensures faults { faults_in self.new ≡ faults_in self.old }
    {
        let name = String::from_str(self.alloc, name)?;
        let bytes = bytes.to_vec(self.alloc)?;
        self.files.insert(name, bytes)?;
        Ok(())
    }

    // Counts a call, and its fault where it is to fail.
    fn begin_call(&mut self) -> Result<(), Failed>
        ensures files { SameFiles (files_in self.old) (files_in self.new) }
        ensures calls { CountsCall self.old self.new }
        ensures fails { IsErr result ↔ IsToFail self.old }
        ensures cause { HasCause (faults_in self.old) (faults_in self.new) result }
    {
        let call = self.calls;
        self.calls = self.calls.saturating_add(1);
        if self.failing.contains(&call) {
            self.faults = self.faults.saturating_add(1);
            return Err(Failed);
        }
        Ok(())
    }
}

#[tactic(auto, unfolding(crate::specs::InMemory::files_in))]
impl Vault for MapVault {
    ghost tells = { λ _. Unit {0} };

    ghost files = { files_in };

    ghost faults = { faults_in };

    fn size(&mut self, name: &str) -> Result<Option<u64>, Failed>
        ensures size { IfOk result (λ size. size ≡ option_map length (files_in self.old name.now)) }
        ensures files { SameFiles (files_in self.old) (files_in self.new) }
        ensures calls { CountsCall self.old self.new }
        ensures fails { IsErr result ↔ IsToFail self.old }
        ensures cause { HasCause (faults_in self.old) (faults_in self.new) result }
    {
        self.begin_call()?;
        match self.file(name) {
            Some(bytes) => Ok(Some(bytes.len() as u64)),
            None => Ok(None),
        }
    }

    fn read_at(&mut self, name: &str, from: u64, buf: &mut [u8]) -> Result<usize, Failed>
        ensures bound { ReadsAtMost result buf.new }
        ensures bytes { IfOk result
            (λ count. ReadsPrefix (bytes_from (files_in self.old name.now) from) count buf.new) }
        ensures files { SameFiles (files_in self.old) (files_in self.new) }
        ensures calls { CountsCall self.old self.new }
        ensures fails { IsErr result ↔ IsToFail self.old }
        ensures cause { HasCause (faults_in self.old) (faults_in self.new) result }
    {
        self.begin_call()?;
        match self.file(name) {
            Some(bytes) => Ok(copy_from(bytes, from, buf)),
            None => Ok(0),
        }
    }

    fn write_whole(&mut self, name: &str, bytes: &[u8]) -> Result<(), Failed>
        ensures written { OnOk result (files_in self.new name.now ≡ Some bytes.now) }
        ensures others { SameBut name.now (files_in self.old) (files_in self.new) }
        ensures calls { CountsCall self.old self.new }
        ensures fails { IsToFail self.old → IsErr result }
        ensures cause { HasCause (faults_in self.old) (faults_in self.new) result }
    {
        self.begin_call()?;
        match self.put(name, bytes) {
            Ok(()) => Ok(()),
            Err(NoMemory) => {
                self.faults = self.faults.saturating_add(1);
                Err(Failed)
            }
        }
    }
}

// Moves bytes from a place on to the front of a buffer, as many as there are and as it has room for.
fn copy_from(bytes: &[u8], from: u64, buf: &mut [u8]) -> usize
    ensures bound { result ≤ length buf.old }
    ensures bytes { ReadsPrefix (bytes_from (Some bytes.now) from) result buf.new }
{
    let start = (from as usize).min(bytes.len());
    let rest = &bytes[start..];
    let count = rest.len().min(buf.len());
    buf[..count].copy_from_slice(&rest[..count]);
    count
}
