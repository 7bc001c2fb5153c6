//! The hub.

use crate::complex::CoreComplex;
use crate::issues::Issues;
use crate::seat::Seat;
use std::marker::Model;

/// The core complex, core 0's seat in it, and what is kept of the issues and the stores. In contracts it is seen as the state of a hub,
/// what the code keeps of the seat, the latest issues, and the store that was granted in the last cycle.
pub struct Hub {
    pub(crate) complex: CoreComplex,
    pub(crate) seat: Seat,
    pub(crate) issues: Issues,
    /// The address of the store that was granted in the last cycle, and the number of its bytes.
    pub(crate) stored: Option<(u32, u8)>,
}

/// Written out, so that a function that drops a hub has one call in its proof, and not the parts of each core and front.
impl Drop for Hub {
    fn drop(self) {
        let Hub {
            complex: _,
            seat: _,
            issues: _,
            stored: _,
        } = self;
    }
}

impl Model for Hub {
    ghost use Rattle.chip_hub.specs.Kept.{HubKept};

    ghost Value = { HubKept };

    ghost view = { λ h. record { hub = h.complex; seat = h.seat; issues = h.issues; stored = h.stored } };
}
