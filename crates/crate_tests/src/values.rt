//! Small values, at the ends of their ranges.

use chip_base::{Bytes, Groups, Name, PinStep, Pins, Steps0, UartStep};
use std::alloc::AllocError;

#[test]
fn reads_texts(rt: HostRuntime) {
    let name = Name::new("sixteen letters.").expect(&rt, "sixteen");
    assert!(rt; name.as_slice() == b"sixteen letters.".as_slice());
    let three = Groups::read("hub,spi,gpio,slink/uart0,uart1,pwm/wdt").expect(&rt, "three groups");
    assert!(rt; three.of == [0, 1, 1, 0, 0, 1, 0, 2]);
    assert!(rt; Groups::read("hub,hub").is_none());
}

/// Pin changes may come in one cycle, and not in an earlier one than the change before.
#[test]
fn takes_lists(rt: HostRuntime) -> Result<(), AllocError> {
    let step = |cycle| PinStep {
        cycle,
        pin: 31,
        level: true,
    };
    let same = Vec::from_array(rt.alloc(), [step(5), step(5)])?;
    assert!(rt; Pins::from_vec(same).is_some());
    let falling = Vec::from_array(rt.alloc(), [step(5), step(4)])?;
    assert!(rt; Pins::from_vec(falling).is_none());
    let mut empty = Vec::new(rt.alloc());
    empty.push(UartStep::Expect(Bytes::from_vec(Vec::new(rt.alloc()))))?;
    assert!(rt; Steps0::from_vec(empty).is_none());
    Ok(())
}
