//! Plain types that the crates of the chip share.
#![tactic(auto)]

pub mod bits;
pub mod boot;
pub mod chip_unit;
pub mod counter;
pub mod cycle;
pub mod event;
pub mod groups;
pub mod hart;
pub mod laws;
pub mod message;
pub mod names;
pub mod prescaler;
pub mod script;
pub mod setup;
mod valid;

pub use boot::{Boot, BootView};
pub use chip_unit::{ChipUnit, HubPart};
pub use counter::Steps;
pub use cycle::{Cycle, NoMemory};
pub use event::{Event, EventKind, UnitOut};
pub use groups::Groups;
pub use hart::{HartView, IssueRecord, PhaseWord};
pub use message::{Down, Up};
pub use names::Name;
pub use script::{Bytes, PinStep, Pins, Script, Steps0, UartStep};
pub use setup::Setup;
