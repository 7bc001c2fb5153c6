//! What holds of a flash as it is seen from outside.
ghost use Rattle.std.specs.Prelude.{Bool};
ghost use Rattle.spi_flash.specs.Flash.{FlashState, flash_start};
ghost use Rattle.flash_seen.specs.Laws.{AnswersAsSeen, AnswersCommands, DoesCommands, DoesCommandsToFlash, DrainsAsSeen, IsCalm, SeesAll, StaysCalm};
ghost use Rattle.flash_seen.specs.Seen.{Seen};

/// A flash that is seen with the operation under way taken as ended changes by its entries alone, and not by its cycles. A whole
/// command, from a selection to the deselect, does to it what the command's bytes say.
pub fn seen_from_outside()
    ensures start { (fitted : Bool) → IsCalm (flash_start fitted) }
    ensures calm { (f : FlashState) → StaysCalm f }
    ensures sees { (f : FlashState) → SeesAll f }
    ensures entries { (f : FlashState) → DrainsAsSeen f }
    ensures answers { (f : FlashState) → AnswersAsSeen f }
    ensures commands { (s : Seen) → DoesCommands s }
    ensures done { (f : FlashState) → DoesCommandsToFlash f }
    ensures replies { (s : Seen) → AnswersCommands s }
{}
