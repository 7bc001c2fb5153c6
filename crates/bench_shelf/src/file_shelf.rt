//! The files of the system.
ghost use Rattle.std.specs.Prelude.{◌≡◌, ℕ, ◌≤◌, None, false, vec_len, IfOk, OnOk, IsErrOf};
ghost use Rattle.bench_shelf.specs.Counts.{counted};

use crate::shelf::{Shelf, ShelfFault};
use std::alloc::Global;
use std::fs::File;
use std::io::{ErrorKind, Read};
use std::rt::Files;
use std::{fs, io};

/// The files of the system. It discloses no file, so a missing file and one that is too long count as faults
/// too. Want of memory is no fault.
#[derive(Drop)]
pub struct FileShelf<'a> {
    rt: &'a HostRuntime,
    read_faults: u64,
    write_faults: u64,
}

impl<'a> FileShelf<'a> {
    /// The files that the program may reach, without faults so far.
    pub fn new(rt: &'a HostRuntime) -> FileShelf<'a>
        ensures no_read_faults { result.read_faults ≡ 0 }
        ensures no_write_faults { result.write_faults ≡ 0 }
    {
        FileShelf {
            rt,
            read_faults: 0,
            write_faults: 0,
        }
    }
}

/// The bytes of a file, or the first `limit + 1` of them where it has more than `limit`.
fn beginning<R: Files>(rt: &R, alloc: Global, name: &str, limit: u32) -> io::Result<Vec<u8>> {
    let mut bytes = Vec::new(alloc);
    let file = File::open(rt, name)?;
    file.take(u64::from(limit) + 1).read_to_end(&mut bytes)?;
    Ok(bytes)
}

impl Shelf for FileShelf<'_> {
    ghost held = { λ s. record {
      discloses = false;
      file = λ _. None;
      read_faults = s.read_faults;
      write_faults = s.write_faults;
    } };

    fn read(&mut self, alloc: Global, name: &str, limit: u32) -> Result<Vec<u8>, ShelfFault>
        ensures writes { self.new.write_faults ≡ self.old.write_faults }
        ensures later { self.old.read_faults ≤ self.new.read_faults }
        ensures short { IfOk result (λ bytes. vec_len bytes ≤ limit) }
        ensures no_fault { OnOk result (self.new.read_faults ≡ self.old.read_faults) }
        ensures raised { IsErrOf result ShelfFault.Failed → self.new.read_faults ≡ counted self.old.read_faults }
        ensures long { (n : ℕ) → IsErrOf result (ShelfFault.Long n) → (n ≡ limit) × (self.new.read_faults ≡ counted self.old.read_faults) }
        ensures memory { IsErrOf result ShelfFault.Memory → self.new.read_faults ≡ self.old.read_faults }
    {
        let fault = match beginning(self.rt, alloc, name, limit) {
            Ok(bytes) => {
                if bytes.len() <= limit as usize {
                    return Ok(bytes);
                }
                ShelfFault::Long { limit }
            }
            Err(error) => {
                if error.kind() == ErrorKind::OutOfMemory {
                    return Err(ShelfFault::Memory);
                }
                ShelfFault::Failed
            }
        };
        self.read_faults = self.read_faults.saturating_add(1);
        Err(fault)
    }

    fn write(&mut self, name: &str, bytes: &[u8]) -> Result<(), ShelfFault>
        ensures reads { self.new.read_faults ≡ self.old.read_faults }
        ensures later { self.old.write_faults ≤ self.new.write_faults }
        ensures no_fault { OnOk result (self.new.write_faults ≡ self.old.write_faults) }
        ensures raised { IsErrOf result ShelfFault.Failed → self.new.write_faults ≡ counted self.old.write_faults }
        ensures never_long { (n : ℕ) → IsErrOf result (ShelfFault.Long n) → ⊥ }
        ensures memory { IsErrOf result ShelfFault.Memory → self.new.write_faults ≡ self.old.write_faults }
    {
        match fs::write(self.rt, name, bytes) {
            Ok(()) => Ok(()),
            Err(error) => {
                if error.kind() == ErrorKind::OutOfMemory {
                    return Err(ShelfFault::Memory);
                }
                self.write_faults = self.write_faults.saturating_add(1);
                Err(ShelfFault::Failed)
            }
        }
    }
}
