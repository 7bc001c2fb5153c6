//! The address map.
ghost use Rattle.std.specs.Prelude.{◌≡◌, ◌<◌, ◌≤◌, ◌-◌, length, IfOk, IfSome, IsTrue};
ghost use Rattle.std.specs.List.{find};
ghost use Rattle.chip_base.specs.UnitTable.{unit_row};
ghost use Rattle.soc_bus.specs.Map.{Agrees, admitted, device_of, is_narrow, part_region, region_of};
ghost use Rattle.soc_bus.specs.Memory.{IsSize, MemoryState};
ghost use Rattle.soc_bus.specs.Parts.{found_at, part_at, unit_at};

use crate::access::{BusFault, Region, Request, Width};
use crate::memory::DMEM;
use chip_base::{ChipUnit, HubPart};

/// What a request reaches, in a chip whose memories have these numbers of bytes. Misaligned exactly where the address isn't a
/// multiple of the width, otherwise Unmapped exactly where the map has nothing there, otherwise Narrow exactly where a store
/// outside the two memories isn't a word.
pub fn admit(r: &Request, imem: u32, dmem: u32) -> Result<Region, BusFault>
    requires imem { IsSize imem }
    requires dmem { IsSize dmem }
    ensures value { result ≡ admitted r.now imem dmem }
    ensures agrees { (m : MemoryState) → length m.imem ≡ imem → length m.dmem ≡ dmem → IfOk result (Agrees m r.now) }
{
    if r.addr % r.width.bytes() != 0 {
        return Err(BusFault::Misaligned);
    }
    match region_at(r.addr, imem, dmem) {
        None => Err(BusFault::Unmapped),
        Some(region) => {
            if narrow(r, region) {
                Err(BusFault::Narrow)
            } else {
                Ok(region)
            }
        }
    }
}

/// Whether a request stores less than a word outside the two memories.
fn narrow(r: &Request, region: Region) -> bool
    ensures { result ≡ is_narrow r.now region }
{
    match region {
        Region::Imem => false,
        Region::Dmem => false,
        _ => r.store.is_some() && r.width != Width::Word,
    }
}

/// What lies at an address.
fn region_at(addr: u32, imem: u32, dmem: u32) -> Option<Region>
    ensures { result ≡ region_of imem dmem addr }
{
    if addr < imem {
        Some(Region::Imem)
    } else if addr >= DMEM && addr - DMEM < dmem {
        Some(Region::Dmem)
    } else {
        device_at(addr)
    }
}

/// The device in whose registers an address lies.
#[tactic(auto, using(crate::proofs::Devices::device_found))]
fn device_at(addr: u32) -> Option<Region>
    ensures { result ≡ device_of addr }
{
    found_at(4 * (addr / 4))
}

/// What a word belongs to, by its address.
fn found_at(address: u32) -> Option<Region>
    ensures { result ≡ found_at address }
{
    match unit_found(address, &ChipUnit::ALL) {
        Some(unit) => Some(Region::Device {
            unit: unit.number(),
            reg: (address - unit.base()) as u8,
        }),
        None => match part_found(address, &HubPart::ALL) {
            Some(part) => Some(part_region(part)),
            None => None,
        },
    }
}

/// Whether a unit has a register at an address.
fn has_unit(address: u32, unit: ChipUnit) -> bool
    ensures value { result ≡ unit_at address unit }
    ensures base { IsTrue result → (unit_row unit).base ≤ address }
    ensures small { IsTrue result → address - (unit_row unit).base < 256 }
{
    address >= unit.base() && unit.has(address - unit.base())
}

/// The first of these units that has a register at an address.
fn unit_found(address: u32, units: &[ChipUnit]) -> Option<ChipUnit>
    ensures value { result ≡ find (unit_at address) units.now }
    ensures base { IfSome result (λ unit. (unit_row unit).base ≤ address) }
    ensures small { IfSome result (λ unit. address - (unit_row unit).base < 256) }
{
    for unit in units {
        if has_unit(address, *unit) {
            return Some(*unit);
        }
    }
    None
}

/// Whether a part of the hub has a register at an address.
fn has_part(address: u32, part: HubPart) -> bool
    ensures { result ≡ part_at address part }
{
    address >= part.base() && part.has(address - part.base())
}

/// The first of these parts of the hub that has a register at an address.
fn part_found(address: u32, parts: &[HubPart]) -> Option<HubPart>
    ensures { result ≡ find (part_at address) parts.now }
{
    for part in parts {
        if has_part(address, *part) {
            return Some(*part);
        }
    }
    None
}

/// Where an access to a part of the hub goes.
fn part_region(part: HubPart) -> Region
    ensures { result ≡ part_region part }
{
    match part {
        HubPart::Dma => Region::Dma,
        HubPart::Clint => Region::Clint,
        HubPart::Sysinfo => Region::Sysinfo,
        HubPart::Mailbox => Region::Mailbox,
    }
}
