//! Fetching an instruction.
ghost use Rattle.std.specs.Prelude.{◌≡◌, ◌%◌, ◌^◌, ◌<◌};
ghost use Rattle.core_pair.specs.Fetch.{half_at, fetched_at};

use soc_bus::{Memory, Width};

/// What stands at an address.
#[derive(Clone, Copy)]
pub enum Fetched {
    /// No memory has the half at this address.
    Absent(u32),
    /// A compressed instruction: its parcel.
    Parcel(u16),
    /// An instruction of 32 bits.
    Word(u32),
}

/// The half at an address, if a memory has it.
#[tactic(auto, unfolding(crate::specs::Fetch::half_at))]
fn half(memory: &Memory, address: u32) -> Option<u16>
    ensures { result ≡ half_at memory.now address }
{
    match memory.load(address, Width::Half) {
        Ok(value) => Some(value as u16),
        Err(_) => None,
    }
}

/// The instruction at an address, half by half: the second half is fetched only where the low two bits of the first are 1.
#[tactic(auto, unfolding(crate::specs::Fetch::fetched_at))]
pub fn fetch(memory: &Memory, address: u32) -> Fetched
    ensures { result ≡ fetched_at memory.now address }
{
    let Some(low) = half(memory, address) else {
        return Fetched::Absent(address);
    };
    if rv_decode::length(low) == 2 {
        return Fetched::Parcel(low);
    }
    let second = address.wrapping_add(2);
    match half(memory, second) {
        None => Fetched::Absent(second),
        Some(high) => Fetched::Word(u32::from(high) * 0x1_0000 + u32::from(low)),
    }
}
