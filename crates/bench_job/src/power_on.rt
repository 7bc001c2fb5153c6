//! What a chip begins with.
ghost use Rattle.std.specs.Prelude.{◌≡◌, true};
ghost use Rattle.chip_hub.specs.Start.{fits_in};

use chip_base::{Boot, Script, Setup};

/// What a chip begins with.
#[derive(Drop)]
pub struct PowerOn {
    pub setup: Setup,
    pub boot: Boot,
    pub image: Vec<u8>,
    pub script: Script,
    ghost fits: { fits_in boot image.items setup.imem ≡ true },
}
