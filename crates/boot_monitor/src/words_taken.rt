//! The words of the bytes that a command takes.
ghost use Rattle.std.specs.Prelude.{◌≡◌, ◌<◌, ◌+◌, ◌^◌, ◌-◌, ◌*◌, ◌%◌, List, [], ◌∷◌, ◌++◌, ℕ};
ghost use Rattle.boot_monitor.specs.Tallies.{Counts, spread_of, number_of, left_of};

use crate::tally::Tally;

/// A byte at its place in a word.
fn spread(byte: u8, place: u32) -> u32
    ensures { result ≡ spread_of byte place }
{
    match place % 4 {
        0 => u32::from(byte),
        1 => u32::from(byte) << 8,
        2 => u32::from(byte) << 16,
        _ => u32::from(byte) << 24,
    }
}

impl Tally {
    /// No byte was taken.
    pub(crate) fn new() -> Tally
        ensures counts { Counts result [] }
        ensures part { result.part ≡ 0 }
        ensures count { result.count ≡ 0 }
    {
        Tally {
            count: 0,
            part: 0,
            last: 0,
            signature: 0,
            size: 0,
            check: 0,
            sum: 0,
        }
    }

    /// One byte more.
    pub(crate) fn with(self, byte: u8) -> Tally
        requires room { self.count < 2 ^ 32 - 1 }
        requires part { self.part < 2 ^ (8 * (self.count % 4)) }
        ensures part { result.part < 2 ^ (8 * (result.count % 4)) }
        ensures count { result.count ≡ self.count + 1 }
        ensures size { 8 < result.count → result.size ≡ self.size }
        ensures counts { (bytes : List ℕ) → Counts self bytes → Counts result (bytes ++ byte ∷ []) }
    {
        let part = self.part + spread(byte, self.count);
        let count = self.count + 1;
        if count % 4 == 0 {
            self.with_word(part)
        } else {
            Tally {
                count,
                part,
                ..self
            }
        }
    }

    /// One byte more, which ends this word.
    fn with_word(self, word: u32) -> Tally
        requires room { self.count < 2 ^ 32 - 1 }
        requires fourth { self.count % 4 ≡ 3 }
        ensures part { result.part ≡ 0 }
        ensures count { result.count ≡ self.count + 1 }
        ensures size { 8 < result.count → result.size ≡ self.size }
        ensures counts { (bytes : List ℕ) (byte : ℕ) → Counts self bytes → word ≡ number_of (left_of bytes ++ byte ∷ []) → Counts result (bytes ++ byte ∷ []) }
    {
        let count = self.count + 1;
        let whole = Tally {
            count,
            part: 0,
            last: word,
            ..self
        };
        match count {
            4 => Tally {
                signature: word,
                ..whole
            },
            8 => Tally {
                size: word,
                ..whole
            },
            12 => Tally {
                check: word,
                sum: word,
                ..whole
            },
            _ => Tally {
                sum: self.sum.wrapping_add(word),
                ..whole
            },
        }
    }
}
