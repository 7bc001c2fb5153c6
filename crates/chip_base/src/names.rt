//! Short texts in a fixed place.
ghost use Rattle.std.specs.Prelude.{◌≡◌, ◌≤◌, ◌<◌, ◌⊎◌, length, IfSome, IsNone};

use std::marker::Model;

/// A text of 1 to 16 bytes.
#[derive(Drop)]
pub struct Name {
    bytes: [u8; 16],
    count: usize,
}

impl Model for Name {
    ghost use Rattle.std.specs.Prelude.{ℕ, List, take, ◌≤◌};

    ghost Value = { List ℕ };

    ghost view = { λ n. take n.count n.bytes };

    ghost invariant = { λ n. (1 ≤ n.count) × (n.count ≤ 16) };
}

impl Name {
    /// The name with this text. None exactly where the text is empty or has more than 16 bytes.
    pub fn new(text: &str) -> Option<Name>
        ensures some { IfSome result (λ name. (name ≡ text.now) × (1 ≤ length text.now) × (length text.now ≤ 16)) }
        ensures none { IsNone result → (length text.now ≡ 0) ⊎ (16 < length text.now) }
    {
        let source = text.as_bytes();
        let count = source.len();
        if count == 0 || count > 16 {
            return None;
        }
        let mut bytes = [0; 16];
        bytes[..count].copy_from_slice(source);
        Some(Name { bytes, count })
    }

    /// The bytes of the name.
    pub fn as_slice(&self) -> &[u8]
        ensures value { result.now ≡ self.now }
        ensures from { 1 ≤ length self.now }
        ensures to { length self.now ≤ 16 }
    {
        &self.bytes[..self.count]
    }
}
