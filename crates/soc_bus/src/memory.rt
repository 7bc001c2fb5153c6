//! The two memories.
ghost use Rattle.std.specs.Prelude.{◌≡◌, ℕ, ◌+◌, ◌-◌, ◌*◌, ◌%◌, ◌^◌, ◌<◌, ◌≤◌, length, drop, ◌++◌, slice_range, IfOk, IfErr, IsErr, OnOk, OnErr, IfSome, ◌⊎◌};
ghost use Rattle.std.specs.List.{slice_get};
ghost use Rattle.soc_bus.specs.Access.{width_bytes};
ghost use Rattle.soc_bus.specs.Memory.{MemoryState, IsSize, byte_at, held_by, load_of, low_bytes, place_of, store_of, zeros};
ghost use Rattle.soc_bus.specs.Parts.{part_of, stored_part};
ghost use Rattle.soc_bus.specs.Words.{bytes_of};
ghost use Rattle.std.specs.Vec.{vec_len};

use crate::access::{BusFault, Width};
use crate::word_parts::{read, write};
use chip_base::NoMemory;
use std::alloc::Global;
use std::marker::Model;

/// Where the data memory begins.
pub(crate) const DMEM: u32 = 0x8000_0000;

/// The instruction memory from address 0 on and the data memory from address 80000000 (hexadecimal) on, seen as their bytes.
/// Words stand with their low byte first.
#[derive(Drop)]
pub struct Memory {
    imem: Vec<u32>,
    dmem: Vec<u32>,
}

impl Model for Memory {
    ghost use Rattle.std.specs.Prelude.{◌*◌};
    ghost use Rattle.std.specs.Vec.{vec_len};
    ghost use Rattle.soc_bus.specs.Memory.{MemoryState, IsSize};
    ghost use Rattle.soc_bus.specs.Words.{bytes_of};

    ghost Value = { MemoryState };

    ghost view = { λ m. record { imem = bytes_of m.imem.items; dmem = bytes_of m.dmem.items } };

    ghost invariant = { λ m. IsSize (4 * vec_len m.imem) × IsSize (4 * vec_len m.dmem) };
}

impl Memory {
    /// Memories of these sizes in bytes, all zero. The sizes are multiples of 4,096 from 4,096 to 1,048,576.
    #[tactic(auto, using(crate::proofs::Bytes::length_zeros))]
    pub fn new(alloc: Global, imem: u32, dmem: u32) -> Result<Memory, NoMemory>
        requires imem { IsSize imem }
        requires dmem { IsSize dmem }
        ensures imem { IfOk result (λ m. m.imem ≡ zeros imem) }
        ensures dmem { IfOk result (λ m. m.dmem ≡ zeros dmem) }
        ensures sizes { IfOk result (λ m. (length m.imem ≡ imem) × (length m.dmem ≡ dmem)) }
    {
        let imem = cleared(alloc, (imem / 4) as usize)?;
        let dmem = cleared(alloc, (dmem / 4) as usize)?;
        Ok(Memory { imem, dmem })
    }

    /// The value of the bytes from an address on, with zeros above. Misaligned exactly where the address isn't a multiple of
    /// the width, otherwise Unmapped exactly where not all bytes lie in one of the memories.
    #[tactic(auto, using(crate::proofs::Places::ends_below))]
    pub fn load(&self, addr: u32, width: Width) -> Result<u32, BusFault>
        ensures value { result ≡ load_of self.now addr width }
        ensures below { IfOk result (λ w. w < 2 ^ (8 * width_bytes width)) }
        ensures bytes { IfOk result (λ w. IfSome (place_of self.now addr (width_bytes width))
            (λ p. low_bytes width w ≡ slice_range (held_by self.now p.0) p.1 (p.1 + width_bytes width))) }
        ensures read { IfOk result (λ w. (i : ℕ) → i < width_bytes width
            → byte_at self.now (addr + i) ≡ slice_get (low_bytes width w) i) }
        ensures absent { result ≡ Err BusFault.Unmapped → byte_at self.now (addr + width_bytes width - 1) ≡ None }
    {
        if addr % width.bytes() != 0 {
            return Err(BusFault::Misaligned);
        }
        if addr < DMEM {
            loaded(&self.imem, addr, width)
        } else {
            loaded(&self.dmem, addr - DMEM, width)
        }
    }

    /// Stores the low bytes of a value from an address on. Misaligned exactly where the address isn't a multiple of the width,
    /// otherwise Unmapped exactly where not all bytes lie in one of the memories. After a refusal nothing has changed.
    pub fn store(&mut self, addr: u32, width: Width, value: u32) -> Result<(), BusFault>
        ensures stored { OnOk result (store_of self.old addr width value ≡ Ok self.new) }
        ensures refused { IfErr result (λ fault. store_of self.old addr width value ≡ Err fault) }
        ensures unchanged { OnErr result (self.new ≡ self.old) }
        ensures kept { (a : ℕ) → (a < addr) ⊎ (addr + width_bytes width ≤ a) → byte_at self.new a ≡ byte_at self.old a }
        ensures written { OnOk result ((a : ℕ) → addr ≤ a → a < addr + width_bytes width
            → byte_at self.new a ≡ slice_get (low_bytes width value) (a - addr)) }
        ensures imem { length self.new.imem ≡ length self.old.imem }
        ensures dmem { length self.new.dmem ≡ length self.old.dmem }
    {
        if addr % width.bytes() != 0 {
            return Err(BusFault::Misaligned);
        }
        if addr < DMEM {
            stored(&mut self.imem, addr, width, value)
        } else {
            stored(&mut self.dmem, addr - DMEM, width, value)
        }
    }

    /// Puts bytes into IMEM from its beginning on.
    #[tactic(auto, using(crate::proofs::Bytes::length_bytes_of))]
    pub fn fill(&mut self, bytes: &[u8])
        requires { length bytes.now ≤ length self.old.imem }
        ensures imem { self.new.imem ≡ bytes.now ++ drop (length bytes.now) self.old.imem }
        ensures dmem { self.new.dmem ≡ self.old.dmem }
        ensures size { length self.new.imem ≡ length self.old.imem }
    {
        overwrite(&mut self.imem, bytes);
    }

    /// The number of bytes of IMEM.
    #[tactic(auto, using(crate::proofs::Bytes::length_bytes_of))]
    pub fn imem_size(&self) -> u32
        ensures value { result ≡ length self.now.imem }
        ensures valid { IsSize result }
    {
        4 * self.imem.len() as u32
    }

    /// The number of bytes of DMEM.
    #[tactic(auto, using(crate::proofs::Bytes::length_bytes_of))]
    pub fn dmem_size(&self) -> u32
        ensures value { result ≡ length self.now.dmem }
        ensures valid { IsSize result }
    {
        4 * self.dmem.len() as u32
    }
}

/// The value of the bytes from a place of a memory on.
#[tactic(auto, using(crate::proofs::Bytes::has_bytes, crate::proofs::Bytes::length_bytes_of, crate::proofs::Places::get_read, std::proofs::lemmas::Option::slice_get_past))]
fn loaded(words: &[u32], at: u32, width: Width) -> Result<u32, BusFault>
    requires aligned { at % width_bytes width ≡ 0 }
    requires size { length words.now ≤ 262144 }
    ensures value { result ≡ part_of (bytes_of words.now) at width }
    ensures below { IfOk result (λ w. w < 2 ^ (8 * width_bytes width)) }
    ensures bytes { IfOk result (λ w. low_bytes width w ≡ slice_range (bytes_of words.now) at (at + width_bytes width)) }
    ensures read { IfOk result (λ w. (i : ℕ) → i < width_bytes width
        → slice_get (bytes_of words.now) (at + i) ≡ slice_get (low_bytes width w) i) }
    ensures absent { IsErr result → slice_get (bytes_of words.now) (at + width_bytes width - 1) ≡ None }
{
    if at as usize + width.bytes() as usize <= 4 * words.len() {
        Ok(read(words, at, width))
    } else {
        Err(BusFault::Unmapped)
    }
}

/// Stores the low bytes of a value from a place of a memory on.
#[tactic(auto, using(crate::proofs::Bytes::length_bytes_of, crate::proofs::Places::get_kept, crate::proofs::Places::get_written))]
fn stored(words: &mut [u32], at: u32, width: Width, value: u32) -> Result<(), BusFault>
    requires aligned { at % width_bytes width ≡ 0 }
    requires size { length words.old ≤ 262144 }
    ensures stored { OnOk result (stored_part (bytes_of words.old) at width value ≡ Ok (bytes_of words.new)) }
    ensures refused { IfErr result (λ fault. stored_part (bytes_of words.old) at width value ≡ Err fault) }
    ensures unchanged { OnErr result (words.new ≡ words.old) }
    ensures kept { (i : ℕ) → (i < at) ⊎ (at + width_bytes width ≤ i)
        → slice_get (bytes_of words.new) i ≡ slice_get (bytes_of words.old) i }
    ensures written { OnOk result ((i : ℕ) → at ≤ i → i < at + width_bytes width
        → slice_get (bytes_of words.new) i ≡ slice_get (low_bytes width value) (i - at)) }
{
    if at as usize + width.bytes() as usize <= 4 * words.len() {
        write(words, at, width, value);
        Ok(())
    } else {
        Err(BusFault::Unmapped)
    }
}

/// Puts bytes into a memory from its beginning on.
fn overwrite(words: &mut [u32], bytes: &[u8])
    requires room { length bytes.now ≤ 4 * length words.old }
    requires size { length words.old ≤ 262144 }
    ensures { bytes_of words.new ≡ bytes.now ++ drop (length bytes.now) (bytes_of words.old) }
{
    let mut at = 0;
    for byte in bytes {
        write(words, at, Width::Byte, u32::from(*byte));
        at += 1;
    }
}

/// So many zero words.
fn cleared(alloc: Global, count: usize) -> Result<Vec<u32>, NoMemory>
    ensures items { IfOk result (λ v. bytes_of v.items ≡ zeros (4 * count)) }
    ensures len { IfOk result (λ v. vec_len v ≡ count) }
{
    let mut words = Vec::new(alloc);
    let Ok(()) = words.resize(count, 0) else {
        return Err(NoMemory);
    };
    Ok(words)
}
