//! The bytes of a flash.
ghost use Rattle.std.specs.Prelude.{◌≡◌, ℕ, ◌+◌, ◌*◌, ◌/◌, ◌%◌, ◌<◌, ◌≤◌, ◌==◌, ◌^◌, IfOk, length, List, bit_and, slice_index_or, if◌then◌else◌, ◌⊎◌, ◌-◌};
ghost use Rattle.spi_flash.specs.Flash.{byte_of, cells_of};
ghost use Rattle.spi_flash.specs.Flash.{erased, programmed};
ghost use Rattle.spi_flash.specs.Ranges.{cleared_in, filled_in};
ghost use Rattle.std.specs.Vec.{vec_len, vec_capacity};

use chip_base::NoMemory;
use std::alloc::Global;
use std::marker::Model;

/// The number of bytes.
pub const SIZE: u32 = 8_388_608;

/// The number of bytes of a page.
const PAGE: usize = 256;

/// 8,388,608 bytes, each ff until it is programmed. Those up to the last one that was ever programmed are kept, in memory that is
/// reserved when the array is made.
#[derive(Drop)]
pub struct Array {
    kept: Vec<u8>,
}

impl Model for Array {
    ghost use Rattle.std.specs.Prelude.{ℕ, List, ◌≤◌, ◌^◌};
    ghost use Rattle.std.specs.Vec.{vec_len, vec_capacity};
    ghost use Rattle.spi_flash.specs.Flash.{byte_of, cells_of};

    ghost Value = { List ℕ };

    ghost view = { λ a. cells_of (byte_of a.kept.items) };

    ghost invariant = { λ a. (vec_len a.kept ≤ 2 ^ 23) × (2 ^ 23 ≤ vec_capacity a.kept) };
}

impl Array {
    /// An array of ff.
    pub fn new(alloc: Global) -> Result<Array, NoMemory>
        ensures { IfOk result (λ a. a ≡ cells_of (λ i. 255)) }
    {
        match Vec::with_capacity(alloc, SIZE as usize) {
            Ok(kept) => Ok(Array { kept }),
            Err(_) => Err(NoMemory),
        }
    }

    /// The byte at an address.
    #[tactic(auto, using(crate::proofs::Cells::kept_at))]
    pub fn byte(&self, at: u32) -> u8
        ensures { result ≡ byte_of self.now at }
    {
        match self.kept.get(at as usize) {
            Some(byte) => *byte,
            None => 0xff,
        }
    }

    /// An address from which on each byte is ff.
    #[tactic(auto, using(crate::proofs::Cells::kept_at, std::proofs::lemmas::List::get_or_past))]
    pub fn end(&self) -> u32
        ensures bytes { (i : ℕ) → result ≤ i → byte_of self.now i ≡ 255 }
        ensures to { result ≤ 2 ^ 23 }
    {
        self.kept.len() as u32
    }
}

/// Keeps the bytes up to a place at least: those that weren't kept are ff.
fn keep_to(kept: &mut Vec<u8>, end: usize)
    requires room { end ≤ vec_capacity kept.old }
    ensures bytes { (i : ℕ) → byte_of kept.new.items i ≡ byte_of kept.old.items i }
    ensures from { end ≤ vec_len kept.new }
    ensures to { (vec_len kept.new ≡ end) ⊎ (vec_len kept.new ≡ vec_len kept.old) }
    ensures capacity { vec_capacity kept.old ≤ vec_capacity kept.new }
{
    if kept.len() < end {
        kept.resize(end, 0xff).unwrap();
    }
}

/// The page's bytes lose the bits that are 0 in these.
fn clear_bits(kept: &mut Vec<u8>, start: usize, page: &[u8; 256])
    requires { start + 256 ≤ vec_len kept.old }
    ensures bytes { (i : ℕ) → byte_of kept.new.items i ≡ cleared_in start 256 (byte_of page.now) (byte_of kept.old.items) i }
    ensures len { vec_len kept.new ≡ vec_len kept.old }
    ensures capacity { vec_capacity kept.new ≡ vec_capacity kept.old }
{
    for place in 0..PAGE {
        kept[start + place] &= page[place];
    }
}

/// The bytes from one place up to another become ff.
fn fill(kept: &mut Vec<u8>, start: usize, end: usize)
    requires order { start ≤ end }
    requires end { end ≤ vec_len kept.old }
    ensures bytes { (i : ℕ) → byte_of kept.new.items i ≡ filled_in start (end - start) (byte_of kept.old.items) i }
    ensures len { vec_len kept.new ≡ vec_len kept.old }
    ensures capacity { vec_capacity kept.new ≡ vec_capacity kept.old }
{
    for i in start..end {
        kept[i] = 0xff;
    }
}

impl Array {
    /// The page that holds an address loses the bits that are 0 in these bytes.
    pub fn program(&mut self, address: u32, page: &[u8; 256])
        requires { address < 2 ^ 23 }
        ensures { self.new ≡ cells_of (programmed address page.now (byte_of self.old)) }
    {
        let start = address as usize / PAGE * PAGE;
        keep_to(&mut self.kept, start + PAGE);
        clear_bits(&mut self.kept, start, page);
    }

    /// The block of this many bytes, 4,096 or 65,536, that holds an address becomes ff.
    pub fn erase(&mut self, size: u32, address: u32)
        requires size { (size ≡ 4096) ⊎ (size ≡ 65536) }
        ensures { self.new ≡ cells_of (erased size address (byte_of self.old)) }
    {
        let len = self.kept.len();
        let start = len.min((address / size * size) as usize);
        let end = len.min(start + size as usize);
        fill(&mut self.kept, start, end);
    }
}
