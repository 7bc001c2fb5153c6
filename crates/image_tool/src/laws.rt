//! What holds of images.
ghost use Rattle.std.specs.Prelude.{◌≡◌, ℕ, ◌^◌, ◌<◌, ◌↔◌, List, ◌++◌, drop, length, true, None, IsTrue};
ghost use Rattle.image_tool.specs.FirstFault.{image_fault};
ghost use Rattle.image_tool.specs.Image.{AreBytes, IsImage, image_of, is_allowed, padded, signature, signature_of, size_of, sums_to_zero};

/// Bytes are an image of one payload at most. They have no fault exactly where they are an image, of a room below 2^32 bytes; so what
/// a payload is wrapped into has none, where there is room for it. A header of 12 bytes with the signature and the payload's length is
/// that of the payload's image exactly where the sum is zero.
pub fn of_images()
    ensures one_payload { (room : ℕ) (bytes p q : List ℕ) → IsImage room bytes p → IsImage room bytes q → p ≡ q }
    ensures faultless { (room : ℕ) (bytes payload : List ℕ) → room < 2 ^ 32 → IsImage room bytes payload → image_fault room bytes ≡ None }
    ensures accepted { (room : ℕ) (bytes : List ℕ) → AreBytes bytes → image_fault room bytes ≡ None → IsImage room bytes (drop 12 bytes) }
    ensures wrapped { (room : ℕ) (payload : List ℕ) → room < 2 ^ 32 → IsTrue (is_allowed room (length (padded payload))) → image_fault room (image_of (padded payload)) ≡ None }
    ensures checksum { (header payload : List ℕ) → length header ≡ 12 → AreBytes header → signature_of header ≡ signature → size_of header ≡ length payload →
        sums_to_zero (header ++ payload) ≡ true ↔ (header ++ payload ≡ image_of payload) }
{}
