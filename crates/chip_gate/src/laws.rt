//! The gate of the chip, however long it runs.
ghost use Rattle.std.specs.Prelude.{ℕ, List};
ghost use Rattle.chip_base.specs.Settings.{values_of};
ghost use Rattle.chip_base.specs.declared.boot.Boot.TheVariants.{Monitor};
ghost use Rattle.chip_base.specs.declared.script.Script.{Script};
ghost use Rattle.chip_base.specs.declared.setup.Setup.{Setup};
ghost use Rattle.chip_gate.specs.Gated.{IsGatedAfter, RefusesNone};
ghost use Rattle.chip_hub.specs.State.{HubState};
ghost use Rattle.chip_whole.specs.Chip.{Board, start};

/// In every state that a chip reaches from power-on under boot by monitor, also after resets by the watchdog: where core 0 isn't in the
/// monitor, the bytes that the monitor took are the gate, from the flash on that it found; in the cycle of the hand-over IMEM begins with
/// the payload that they hold; where they are the gate and core 0 is still in the monitor, nothing but GO and the hand-over is left; where a
/// command is awaited, they are whole items, what was sent is said of them, what they store stands in the flash, and what they hold stands
/// in IMEM. There and at the hand-over no operation that the monitor started is under way in the flash. While core 0 is in the monitor
/// nothing else uses the bus, no Fire of the watchdog and no reset comes, each request is one of the monitor's own, a byte is sent to the
/// flash only where nothing of the last exchange is left, and its answer is the flash's; a hub refuses none of those requests. Where the
/// watchdog has fired, one Fire or the Reset for it is on its way. A report shows a hand-over exactly where core 0 isn't in the monitor.
pub fn gate()
    ensures gated { (s : Setup) (board : Board) (image : List ℕ) (script : Script) (k : ℕ) → IsGatedAfter (values_of s) board (start (values_of s) Monitor image script) k }
    ensures answered { (s : HubState) → RefusesNone s }
{}
