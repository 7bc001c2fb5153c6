//! What holds in every cycle of the boot monitor's path to the flash, and of the watchdog's Fires and Resets.
ghost use Rattle.std.specs.Prelude.{ℕ, Bool};
ghost use Rattle.flash_seen.specs.World.{World};
ghost use Rattle.monitor_paths.specs.FlashPath.{FlashPath};
ghost use Rattle.monitor_paths.specs.Laws.{ExchangesBytes, KeepsOpened, OpensBlank, SettlesQuiet, StartsFresh, StaysAlways, StaysShut};
ghost use Rattle.monitor_paths.specs.WatchdogPath.{WatchdogPath};
ghost use Rattle.monitor_paths.specs.Watched.{StartsAsleep, StaysWatched};

/// Whatever the hub does with SPI's front, its entries, credits and answers and the Resets are where they belong, from power-on on. When
/// the front opens, nothing is on its way. While the monitor alone asks it, and asks what it may, it is answered as the flash does; a byte's
/// exchange begins with nothing left of the last one and ends with the flash's answer; and the flash comes to hold what the requests
/// and their replies say. Where the watchdog has fired, one Fire or the Reset for it is on its way. While the monitor runs and sends
/// nothing to the watchdog, no Fire comes.
pub fn paths()
    ensures start { (fitted : Bool) (down up : ℕ) → StartsFresh fitted down up }
    ensures always { (p : FlashPath) → StaysAlways p }
    ensures opens { (p : FlashPath) → OpensBlank p }
    ensures opened { (p : FlashPath) → KeepsOpened p }
    ensures shut { (p : FlashPath) → StaysShut p }
    ensures exchanges { (w : World) (p : FlashPath) → ExchangesBytes w p }
    ensures settled { (w : World) (p : FlashPath) → SettlesQuiet w p }
    ensures asleep { (down up : ℕ) → StartsAsleep down up }
    ensures watched { (p : WatchdogPath) → StaysWatched p }
{}
