//! The prescaler of a unit.
ghost use Rattle.std.specs.Prelude.{◌≡◌, ◌<◌, ◌≤◌};
ghost use Rattle.chip_base.specs.Prescalers.{prescaler_of};

/// The prescaler, in cycles, that bits 3 to 5 of a unit's control word select: 2, 4, 8, 64, 128, 1024, 2048 or 4096.
pub fn prescaler(control: u32) -> u32
    ensures value { result ≡ prescaler_of control }
    ensures from { 0 < result }
    ensures to { result ≤ 4096 }
{
    match control / 8 % 8 {
        0 => 2,
        1 => 4,
        2 => 8,
        3 => 64,
        4 => 128,
        5 => 1024,
        6 => 2048,
        _ => 4096,
    }
}
