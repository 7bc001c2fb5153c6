//! Small parts of the hub's accesses.
ghost use Rattle.std.specs.Prelude.{◌≡◌, ◌+◌, ◌*◌, ◌/◌, ◌<◌, ◌≤◌, ◌^◌, length};
ghost use Rattle.chip_hub.specs.Parts.{offset_in, part_of_word};

use chip_base::HubPart;
use soc_bus::{Request, Width};

/// The bytes of a register's word that a load asks for, with zeros above.
pub(crate) fn part_of_word(request: &Request, word: u32) -> u32
    ensures { result ≡ part_of_word request.now word }
{
    let shifted = word >> (8 * (request.addr % 4));
    match request.width {
        Width::Byte => shifted % 0x100,
        Width::Half => shifted % 0x1_0000,
        Width::Word => shifted,
    }
}

/// The offset of an access's register in a part of the hub.
pub(crate) fn offset_in(part: HubPart, request: &Request) -> u32
    ensures { result ≡ offset_in part request.now }
{
    4 * (request.addr / 4) % part.size()
}
