//! A link over some cycles.

use delay_line::DelayLine;

/// With a delay of two, what is sent in cycle 0 arrives in cycle 2, and what is sent in cycle 1 in cycle 3.
#[test]
fn arrives_a_delay_later(rt: HostRuntime) {
    let Ok(mut link) = DelayLine::new(rt.alloc(), 2) else {
        panic!(&rt; "the link was refused");
    };
    link.step(Some(b'a'));
    link.step(Some(b'b'));
    assert!(&rt; link.arriving() == Some(b'a'));
    link.step(None);
    assert!(&rt; link.arriving() == Some(b'b'));
    link.step(None);
    assert!(&rt; link.arriving() == None);
}
