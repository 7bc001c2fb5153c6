//! The run, and the bytes that UART0 sends in it.
ghost use Rattle.std.specs.Prelude.{◌≡◌, ◌+◌, ◌*◌, ◌<◌, ◌≤◌, [], ◌∷◌, IfOk, OnOk};
ghost use Rattle.bench_demo.specs.Demo.{serial_count};
ghost use Rattle.chip_whole.specs.Next.{next_events};
ghost use Rattle.chip_whole.specs.Stands.{ForEach, IsStepped};

use chip_base::{ChipUnit, Event, NoMemory, Steps};
use chip_net::Chip;
use chip_whole::Standing;
use std::sync::ledger::{Blank, Ledger};
use std::thread::Threads;

/// The cycles of a stretch.
const STRETCH: u32 = 4_000;

/// How many bytes UART0 sent by this event.
#[tactic(auto, unfolding(crate::specs::Demo::serial_count))]
fn serial_byte(event: &Event) -> u64
    ensures value { result ≡ serial_count (event.now ∷ []) }
    ensures one { result ≤ 1 }
{
    if event.unit == ChipUnit::Uart0.number() {
        1
    } else {
        0
    }
}

/// How many bytes UART0 sent by these events.
fn serial_count(events: &[Event]) -> u64
    ensures { result ≡ serial_count events.now }
{
    let mut count = 0;
    for event in events {
        count += serial_byte(event);
    }
    count
}

/// Steps a chip at power-on so many stretches, and counts the bytes that UART0 sends.
pub fn run<R: Threads + Sync, C: Ledger>(
    rt: &R,
    chip: &mut Chip,
    stretches: u32,
    blank: Blank,
) -> Result<u64, NoMemory>
    requires name { blank.name ≡ C.name }
    requires parts { blank.parts ≡ C.parts }
    requires one { 0 < blank.parts }
    requires first { ⟦<Chip as Standing>⟧.now chip.old ≡ 0 }
    ensures count { IfOk result (λ count. ForEach ⟦<Chip as Standing>⟧.stands chip.old (λ board s.
        count ≡ serial_count (next_events board s (4000 * stretches)))) }
    ensures state { OnOk result (IsStepped ⟦<Chip as Standing>⟧.stands chip.old (4000 * stretches) chip.new) }
{
    let mut steps = Steps::<C>::new(blank);
    let mut count: u64 = 0;
    for _ in 0..stretches {
        chip.run(rt, STRETCH, &mut steps)?;
        // A cycle has six events at most, so the sum is far below 2^64.
        count = count.saturating_add(serial_count(chip.events()));
    }
    Ok(count)
}
