//! How a chip is set up.
ghost use Rattle.std.specs.Prelude.{◌≡◌, ◌≤◌, ◌%◌, length, true};
ghost use Rattle.std.specs.List.{list_all};
ghost use Rattle.chip_base.specs.Ranges.{is_delay};

use crate::chip_unit::standard_delays;

/// The settings of a chip: the clock in hertz (1 to 4,294,967,295), the sizes of IMEM and DMEM in bytes (multiples of 4,096 from 4,096
/// to 1,048,576), the prescaler's number (0 to 7) and the baud divisor (0 to 1,023) that the boot monitor gives UART0, whether a flash is
/// fitted, and the delay of each unit's links in cycles (1 to 4,096; uart0, uart1, spi, gpio, pwm, slink, wdt).
#[derive(Clone, Copy, Drop, PartialEq)]
pub struct Setup {
    pub clock: u32,
    pub imem: u32,
    pub dmem: u32,
    pub prescaler: u8,
    pub baud: u16,
    pub flash: bool,
    pub delay: [u32; 7],
    pub ghost clock_from: { 1 ≤ clock },
    pub ghost clock_to: { clock ≤ 4294967295 },
    pub ghost imem_from: { 4096 ≤ imem },
    pub ghost imem_to: { imem ≤ 1048576 },
    pub ghost imem_pages: { imem % 4096 ≡ 0 },
    pub ghost dmem_from: { 4096 ≤ dmem },
    pub ghost dmem_to: { dmem ≤ 1048576 },
    pub ghost dmem_pages: { dmem % 4096 ≡ 0 },
    pub ghost prescaler_to: { prescaler ≤ 7 },
    pub ghost baud_to: { baud ≤ 1023 },
    pub ghost lanes: { length delay ≡ 7 },
    pub ghost delays: { list_all is_delay delay ≡ true },
}

impl Setup {
    ghost use Rattle.chip_base.specs.Settings.{standard, values_of};

    /// The settings of a chip without a chip file.
    pub fn standard() -> Setup
        ensures { values_of result ≡ standard }
    {
        Setup {
            clock: 64_000_000,
            imem: 65_536,
            dmem: 65_536,
            prescaler: 0,
            baud: 277,
            flash: true,
            delay: standard_delays(),
        }
    }
}
