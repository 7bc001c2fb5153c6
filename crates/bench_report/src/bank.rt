//! The bytes of the memories, row by row.
ghost use Rattle.std.specs.Prelude.{◌≡◌, ℕ, ◌+◌, ◌*◌, ◌/◌, ◌%◌, ◌<◌, ◌≤◌, ◌++◌, List, length, slice_range};
ghost use Rattle.bench_report.specs.Bank.{base_of, bytes_of};
ghost use Rattle.chip_whole.specs.Stands.{ForEach};

use chip_net::Chip;
use chip_whole::Standing;

/// One of the two memories.
#[derive(Clone, Copy)]
pub enum Bank {
    Imem,
    Dmem,
}

/// The bytes of four words, one word after another.
#[tactic(auto, using(crate::proofs::Rows::four_fours))]
fn joined(first: [u8; 4], second: [u8; 4], third: [u8; 4], fourth: [u8; 4]) -> [u8; 16]
    ensures { result ≡ first ++ second ++ third ++ fourth }
{
    let [a0, a1, a2, a3] = first;
    let [b0, b1, b2, b3] = second;
    let [c0, c1, c2, c3] = third;
    let [d0, d1, d2, d3] = fourth;
    [
        a0, a1, a2, a3, b0, b1, b2, b3, c0, c1, c2, c3, d0, d1, d2, d3,
    ]
}

impl Bank {
    /// The address of the first byte.
    pub fn base(self) -> u32
        ensures { result ≡ base_of self }
    {
        match self {
            Bank::Imem => 0,
            Bank::Dmem => 0x8000_0000,
        }
    }

    /// The number of rows of sixteen bytes.
    pub fn rows(self, chip: &Chip) -> u32
        ensures value { ForEach ⟦<Chip as Standing>⟧.stands chip.now (λ _ s. result ≡ length (bytes_of s.hub self) / 16) }
        ensures few { result ≤ 65536 }
    {
        match self {
            Bank::Imem => chip.imem_size() / 16,
            Bank::Dmem => chip.dmem_size() / 16,
        }
    }

    /// The four bytes from a multiple of four on.
    fn word(self, chip: &Chip, at: u32) -> [u8; 4]
        requires place { at % 4 ≡ 0 }
        requires below { at < 1048576 }
        ensures { ForEach ⟦<Chip as Standing>⟧.stands chip.now (λ _ s. at + 4 ≤ length (bytes_of s.hub self) → result ≡ slice_range (bytes_of s.hub self) at (at + 4)) }
    {
        match chip.word(self.base() + at) {
            Some(word) => word.to_le_bytes(),
            None => [0; 4],
        }
    }

    /// The row of sixteen bytes of this number.
    pub fn row(self, chip: &Chip, number: u32) -> [u8; 16]
        requires below { number < 65536 }
        ensures { ForEach ⟦<Chip as Standing>⟧.stands chip.now (λ _ s. 16 * number + 16 ≤ length (bytes_of s.hub self)
            → result ≡ slice_range (bytes_of s.hub self) (16 * number) (16 * number + 16)) }
    {
        let at = 16 * number;
        let first = self.word(chip, at);
        let second = self.word(chip, at + 4);
        let third = self.word(chip, at + 8);
        joined(first, second, third, self.word(chip, at + 12))
    }
}
