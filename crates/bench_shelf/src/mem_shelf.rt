//! A shelf in memory.
ghost use Rattle.std.specs.Prelude.{◌≡◌, ℕ, ◌<◌, ◌≤◌, ◌↔◌, ◌⊎◌, List, Option, Some, None, true, Contains, length, take, slice_get, vec_len, string_bytes, IsSome, IsNone, IfSome, IfOk, OnOk, OnErr, IsErrOf};
ghost use Rattle.std.specs.Option.{option_map};
ghost use Rattle.bench_shelf.specs.Counts.{counted};
ghost use Rattle.bench_shelf.specs.Files.{file_in};

use crate::shelf::{Shelf, ShelfFault};
use std::alloc::Global;

/// A shelf that keeps its files in memory, and whose reads and writes of given numbers fail.
#[derive(Drop)]
pub struct MemShelf {
    alloc: Global,
    files: Vec<(String, Vec<u8>)>,
    failing_reads: Vec<u64>,
    failing_writes: Vec<u64>,
    reads: u64,
    writes: u64,
    read_faults: u64,
    write_faults: u64,
}

impl MemShelf {
    /// A shelf with these files, by name and bytes. Where two have one name, the first counts. The reads of the numbers in
    /// `failing_reads` and the writes of those in `failing_writes`, each counted from 1, fail.
    pub fn new(
        alloc: Global,
        files: Vec<(String, Vec<u8>)>,
        failing_reads: Vec<u64>,
        failing_writes: Vec<u64>,
    ) -> MemShelf
        ensures files { result.files ≡ files }
        ensures numbers_of_reads { result.failing_reads ≡ failing_reads }
        ensures numbers_of_writes { result.failing_writes ≡ failing_writes }
        ensures no_reads { result.reads ≡ 0 }
        ensures no_writes { result.writes ≡ 0 }
        ensures no_read_faults { result.read_faults ≡ 0 }
        ensures no_write_faults { result.write_faults ≡ 0 }
    {
        MemShelf {
            alloc,
            files,
            failing_reads,
            failing_writes,
            reads: 0,
            writes: 0,
            read_faults: 0,
            write_faults: 0,
        }
    }

    /// Lends the bytes of the first file of a name. None exactly where no file has the name.
    pub fn file(&self, name: &str) -> Option<&[u8]>
        ensures { option_map (λ bytes. bytes.now) result ≡ file_in self.now.files.items name.now }
    {
        let index = position(&self.files, name)?;
        Some(self.files[index].1.as_slice())
    }
}

/// The place of the first file of a name.
fn position(files: &[(String, Vec<u8>)], name: &str) -> Option<usize>
    ensures found { IfSome result (λ i. (i < length files.now) × (file_in (take i files.now) name.now ≡ None)
        × (option_map (λ file. string_bytes file.0) (slice_get files.now i) ≡ Some name.now)) }
    ensures missing { IsNone result → file_in files.now name.now ≡ None }
{
    for index in 0..files.len() {
        if files[index].0.as_str() == name {
            return Some(index);
        }
    }
    None
}

/// Makes the first file of a name these bytes, or puts it behind the others where no file has the name.
fn put(
    alloc: Global,
    files: &mut Vec<(String, Vec<u8>)>,
    name: &str,
    bytes: Vec<u8>,
) -> Result<(), ShelfFault>
    ensures written { OnOk result (file_in files.new.items name.now ≡ Some bytes.items) }
    ensures others { (q : List ℕ) → (q ≡ name.now → ⊥) → file_in files.new.items q ≡ file_in files.old.items q }
    ensures same { OnErr result (files.new.items ≡ files.old.items) }
    ensures memory { OnErr result (result ≡ Err ShelfFault.Memory) }
{
    if let Some(index) = position(files, name) {
        files[index].1 = bytes;
        return Ok(());
    }
    let Ok(owned) = String::from_str(alloc, name) else {
        return Err(ShelfFault::Memory);
    };
    if files.push((owned, bytes)).is_err() {
        return Err(ShelfFault::Memory);
    }
    Ok(())
}

/// A copy of these bytes, if there are at most `limit`.
fn copied(alloc: Global, bytes: &[u8], limit: u32) -> Result<Vec<u8>, ShelfFault>
    ensures value { IfOk result (λ copy. (copy.items ≡ bytes.now) × (vec_len copy ≤ limit)) }
    ensures never_failed { IsErrOf result ShelfFault.Failed → ⊥ }
    ensures long { (n : ℕ) → IsErrOf result (ShelfFault.Long n) → (n ≡ limit) × (limit < length bytes.now) }
{
    if bytes.len() > limit as usize {
        return Err(ShelfFault::Long { limit });
    }
    match Vec::from_slice(alloc, bytes) {
        Ok(copy) => Ok(copy),
        Err(_) => Err(ShelfFault::Memory),
    }
}

impl Shelf for MemShelf {
    ghost held = { λ s. record {
      discloses = true;
      file = λ q. file_in s.files.items q;
      read_faults = s.read_faults;
      write_faults = s.write_faults;
    } };

    fn read(&mut self, alloc: Global, name: &str, limit: u32) -> Result<Vec<u8>, ShelfFault>
        // the call is counted, and no more than that changes but the count of faults
        ensures unchanged { self.new.files ≡ self.old.files }
        ensures numbers { (self.new.failing_reads ≡ self.old.failing_reads) × (self.new.failing_writes ≡ self.old.failing_writes) }
        ensures calls { (self.new.reads ≡ counted self.old.reads) × (self.new.writes ≡ self.old.writes) }
        ensures writes { self.new.write_faults ≡ self.old.write_faults }

        // the first file of the name, if the read of this number doesn't fail and the file isn't too long
        ensures value { IfOk result (λ bytes. (file_in self.old.files.items name.now ≡ Some bytes.items) × (vec_len bytes ≤ limit)) }
        ensures no_fault { (IsErrOf result ShelfFault.Failed → ⊥) → self.new.read_faults ≡ self.old.read_faults }
        ensures missing { file_in self.old.files.items name.now ≡ None → (result ≡ Err ShelfFault.Failed) × (self.new.read_faults ≡ self.old.read_faults) }
        ensures numbered { IsSome (file_in self.old.files.items name.now) → IsErrOf result ShelfFault.Failed ↔ Contains self.old.failing_reads.items self.new.reads }
        ensures raised { IsErrOf result ShelfFault.Failed → (file_in self.old.files.items name.now ≡ None) ⊎ (self.new.read_faults ≡ counted self.old.read_faults) }
        ensures later { self.old.read_faults ≤ self.new.read_faults }
        ensures long { (n : ℕ) → IsErrOf result (ShelfFault.Long n) → (n ≡ limit) × ((bytes : List ℕ) × (file_in self.old.files.items name.now ≡ Some bytes) × (limit < length bytes)) }
    {
        self.reads = self.reads.saturating_add(1);
        let Some(bytes) = self.file(name) else {
            return Err(ShelfFault::Failed);
        };
        if self.failing_reads.contains(&self.reads) {
            self.read_faults = self.read_faults.saturating_add(1);
            return Err(ShelfFault::Failed);
        }
        copied(alloc, bytes, limit)
    }

    fn write(&mut self, name: &str, bytes: &[u8]) -> Result<(), ShelfFault>
        // the call is counted, and a write that is refused changes no more than that but the count of faults
        ensures numbers { (self.new.failing_reads ≡ self.old.failing_reads) × (self.new.failing_writes ≡ self.old.failing_writes) }
        ensures calls { (self.new.writes ≡ counted self.old.writes) × (self.new.reads ≡ self.old.reads) }
        ensures reads { self.new.read_faults ≡ self.old.read_faults }
        ensures later { self.old.write_faults ≤ self.new.write_faults }
        ensures no_fault { (IsErrOf result ShelfFault.Failed → ⊥) → self.new.write_faults ≡ self.old.write_faults }
        ensures written { OnOk result (file_in self.new.files.items name.now ≡ Some bytes.now) }
        ensures others { (q : List ℕ) → (q ≡ name.now → ⊥) → file_in self.new.files.items q ≡ file_in self.old.files.items q }
        ensures refused { OnErr result (self.new.files.items ≡ self.old.files.items) }
        ensures numbered { IsErrOf result ShelfFault.Failed ↔ Contains self.old.failing_writes.items self.new.writes }
        ensures raised { IsErrOf result ShelfFault.Failed → self.new.write_faults ≡ counted self.old.write_faults }
        ensures never_long { (n : ℕ) → IsErrOf result (ShelfFault.Long n) → ⊥ }
    {
        self.writes = self.writes.saturating_add(1);
        if self.failing_writes.contains(&self.writes) {
            self.write_faults = self.write_faults.saturating_add(1);
            return Err(ShelfFault::Failed);
        }
        let Ok(copy) = Vec::from_slice(self.alloc, bytes) else {
            return Err(ShelfFault::Memory);
        };
        put(self.alloc, &mut self.files, name, copy)
    }
}
