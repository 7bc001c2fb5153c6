//! Lines of text that take no memory.
#![tactic(auto)]

ghost use Rattle.std.specs.Prelude.{◌≡◌, ℕ, ◌+◌, ◌*◌, ◌≤◌, List, [], ◌∷◌, ◌++◌, length, decimal};
ghost use Rattle.hex.specs.Hex.{encode_lower};
ghost use Rattle.soc_words.specs.Text.{hex_word};

use std::marker::Model;

/// A line of text of at most 128 bytes that is being written, seen as the list of its bytes.
#[derive(Drop)]
pub struct Line {
    buffer: [u8; 128],
    len: usize,
}

impl Model for Line {
    ghost use Rattle.std.specs.Prelude.{ℕ, List, take, ◌≤◌};

    ghost Value = { List ℕ };

    ghost view = { λ l. take l.len l.buffer };

    ghost invariant = { λ l. l.len ≤ 128 };
}

impl Line {
    /// An empty line.
    pub fn new() -> Line
        ensures { result ≡ [] }
    {
        Line {
            buffer: [0; 128],
            len: 0,
        }
    }

    /// Lends the text.
    pub fn as_slice(&self) -> &[u8]
        ensures text { result.now ≡ self.now }
        ensures len { length self.now ≤ 128 }
    {
        &self.buffer[..self.len]
    }

    /// Appends a text, for which there must be room.
    pub fn push(&mut self, text: &[u8])
        requires { length self.old + length text.now ≤ 128 }
        ensures { self.new ≡ self.old ++ text.now }
    {
        self.buffer[self.len..self.len + text.len()].copy_from_slice(text);
        self.len += text.len();
    }

    /// Appends a number in decimal digits. There must be room for 20 bytes, which the largest number takes.
    pub fn push_number(&mut self, number: u64)
        requires { length self.old + 20 ≤ 128 }
        ensures text { self.new ≡ self.old ++ decimal number }
        ensures len { length self.new ≤ length self.old + 20 }
    {
        let mut digits = itoa::Buffer::new();
        let text = digits.format(number);
        self.push(text.as_bytes());
    }

    /// Appends a word in eight lower-case hexadecimal digits, for which there must be room.
    pub fn push_word(&mut self, word: u32)
        requires { length self.old + 8 ≤ 128 }
        ensures text { self.new ≡ self.old ++ hex_word word }
        ensures len { length self.new ≡ length self.old + 8 }
    {
        let mut digits = [0; 8];
        hex::encode_to_slice(word.to_be_bytes(), &mut digits).unwrap();
        self.push(&digits);
    }

    /// Appends a byte in two lower-case hexadecimal digits, for which there must be room.
    pub fn push_byte(&mut self, byte: u8)
        requires { length self.old + 2 ≤ 128 }
        ensures text { self.new ≡ self.old ++ encode_lower (byte ∷ []) }
        ensures len { length self.new ≡ length self.old + 2 }
    {
        let mut digits = [0; 2];
        hex::encode_to_slice([byte], &mut digits).unwrap();
        self.push(&digits);
    }

    /// Appends at most 16 bytes, each in two lower-case hexadecimal digits, for which there must be room.
    pub fn push_bytes_hex(&mut self, bytes: &[u8])
        requires few { length bytes.now ≤ 16 }
        requires room { length self.old + 2 * length bytes.now ≤ 128 }
        ensures text { self.new ≡ self.old ++ encode_lower bytes.now }
        ensures len { length self.new ≡ length self.old + 2 * length bytes.now }
    {
        let mut digits = [0; 32];
        let row = &mut digits[..2 * bytes.len()];
        hex::encode_to_slice(bytes, row).unwrap();
        self.push(row);
    }
}
