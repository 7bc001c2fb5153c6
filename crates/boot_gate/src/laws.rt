//! What holds of the boot monitor, whatever it is sent.
ghost use Rattle.std.specs.Prelude.{◌≡◌, ℕ, List, length};
ghost use Rattle.flash_seen.specs.Seen.{Seen};
ghost use Rattle.soc_bus.specs.Memory.{IsSize};
ghost use Rattle.spi_flash.specs.declared.transfer.Transfer.TheVariants.{Idle};
ghost use Rattle.boot_gate.specs.Gate.{Shown};
ghost use Rattle.boot_gate.specs.Items.{SplitsOnce};
ghost use Rattle.boot_gate.specs.Laws.{HasBlocks, HoldsImages, IsGated};
ghost use Rattle.boot_gate.specs.Replies.{AreGiven};

/// Any bytes are items and a rest in one way. A payload is loaded exactly where the flash holds its image, and a stored one is loaded
/// again; no more blocks are erased than an image needs. After replies, the latest first, to the requests of a monitor with this room
/// (bytes of IMEM) and this word for UART0's CTRL, where IMEM had these bytes before and the flash was seen so, and the replies are such as
/// IMEM and the flash give: where it hands over, the bytes that it took are the gate, and the payload that they hold stands at the
/// beginning of IMEM; where they are the gate, nothing but GO and the hand-over is left; where it waits for a command, they are whole
/// items, and it holds, said and stored what these say; at both places no operation is under way in the flash for sure, or it was sent
/// nothing; and each of its requests is one of its own, and one that the flash may be asked.
pub fn gate()
    ensures items { (room : ℕ) (bytes : List ℕ) → SplitsOnce room bytes }
    ensures images { (room : ℕ) (cells payload : List ℕ) → IsSize room → HoldsImages room cells payload }
    ensures blocks { (size : ℕ) → HasBlocks size }
    ensures gated { (room ctrl : ℕ) (shown : Shown) (first : Seen) (before replies : List ℕ) → IsSize room → length before ≡ room
        → first.transfer ≡ Idle → AreGiven room ctrl first before replies → IsGated room ctrl shown first before replies }
{}
