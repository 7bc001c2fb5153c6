//! The registers x0 to x31 of a hart.
ghost use Rattle.std.specs.Prelude.{◌≡◌, ◌<◌, slice_index};
ghost use Rattle.core_pair.specs.Hart.{with_register};

/// Writes a register; x0 keeps zero.
pub(crate) fn set_register(regs: &mut [u32; 32], number: u8, value: u32)
    requires { number < 32 }
    ensures written { regs.new ≡ with_register regs.old number value }
    ensures zero { slice_index regs.new 0 ≡ slice_index regs.old 0 }
{
    if number != 0 {
        regs[number as usize] = value;
    }
}
