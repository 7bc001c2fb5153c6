//! The bytes of the flash, row by row.
ghost use Rattle.std.specs.Prelude.{◌≡◌, ◌<◌, ◌^◌, ◌==◌, true};
ghost use Rattle.std.specs.List.{list_all};
ghost use Rattle.soc_words.specs.Text.{joined_below};
ghost use Rattle.bench_shelf.specs.Sink.{Writes};
ghost use Rattle.bench_report.specs.Report.{flash_row, flash_row_in, flash_row_text, flash_rows, flash_text, shown_flash};
ghost use Rattle.chip_whole.specs.Stands.{ForEach};
ghost use Rattle.spi_flash.specs.Flash.{byte_of};

use bench_shelf::{Sink, SinkFault};
use chip_net::Chip;
use chip_whole::Standing;
use trace_text::{RowKind, row_line};

/// The byte of a fitted flash at an address.
fn byte(chip: &Chip, at: u32) -> u8
    requires { at < 2 ^ 23 }
    ensures { ForEach ⟦<Chip as Standing>⟧.stands chip.now (λ _ s. s.units.spi.unit.flash.fitted ≡ true → result ≡ byte_of s.units.spi.unit.flash.cells at) }
{
    match chip.flash(at) {
        Some(byte) => byte,
        None => 0xff,
    }
}

/// The row of sixteen bytes of this number.
fn row(chip: &Chip, number: u32) -> [u8; 16]
    requires { number < 524288 }
    ensures { ForEach ⟦<Chip as Standing>⟧.stands chip.now (λ _ s. s.units.spi.unit.flash.fitted ≡ true → result ≡ flash_row s.units.spi.unit.flash.cells number) }
{
    let at = 16 * number;
    [
        byte(chip, at),
        byte(chip, at + 1),
        byte(chip, at + 2),
        byte(chip, at + 3),
        byte(chip, at + 4),
        byte(chip, at + 5),
        byte(chip, at + 6),
        byte(chip, at + 7),
        byte(chip, at + 8),
        byte(chip, at + 9),
        byte(chip, at + 10),
        byte(chip, at + 11),
        byte(chip, at + 12),
        byte(chip, at + 13),
        byte(chip, at + 14),
        byte(chip, at + 15),
    ]
}

fn is_erased(row: &[u8; 16]) -> bool
    ensures { result ≡ list_all (λ b. b == 255) row.now }
{
    row.iter().all(|b| *b == 0xff)
}

/// Writes the line of a row of the flash, and nothing where all its bytes are ff.
#[tactic(auto, using(bench_shelf::proofs::Writing::writes_begin), unfolding(crate::specs::Report::flash_row_text))]
fn put_row<O: Sink>(address: u32, row: &[u8; 16], out: &mut O) -> Result<(), SinkFault>
    ensures { Writes O.written O.faults out.old out.new (flash_row_text address row.now) result }
{
    if is_erased(row) {
        return Ok(());
    }
    row_line(RowKind::Flash, address, row, out)
}

/// Writes the lines of a fitted flash: from its end on all rows are ff.
fn put_rows<O: Sink>(chip: &Chip, out: &mut O) -> Result<(), SinkFault>
    ensures { ForEach ⟦<Chip as Standing>⟧.stands chip.now (λ _ s. s.units.spi.unit.flash.fitted ≡ true
        → Writes O.written O.faults out.old out.new (joined_below (flash_row_in s.units.spi.unit.flash.cells) flash_rows) result) }
{
    let rows = (chip.flash_end() + 15) / 16;
    for number in 0..rows {
        let row = row(chip, number);
        put_row(16 * number, &row, out)?;
    }
    Ok(())
}

/// Writes the lines of the flash, and nothing where none is fitted.
pub fn put_flash<O: Sink>(chip: &Chip, out: &mut O) -> Result<(), SinkFault>
    ensures { ForEach ⟦<Chip as Standing>⟧.stands chip.now (λ _ s. Writes O.written O.faults out.old out.new (flash_text (shown_flash s.units.spi.unit.flash)) result) }
{
    if chip.flash(0).is_some() {
        put_rows(chip, out)
    } else {
        Ok(())
    }
}
