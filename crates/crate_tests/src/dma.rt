//! A copy of two words, word by word, and the words of CTRL.

use dma_unit::Dma;
use soc_bus::{BusFault, Request, Width};

/// SRC wraps past the end of the addresses, the second store is refused, and CTRL tells each state.
#[test]
fn two_words_past_the_end(rt: HostRuntime) {
    let mut dma = Dma::new();
    dma.store(4, 0xffff_fffc);
    dma.store(8, 0x4000_0000);
    dma.store(12, 0x0001_0002);
    dma.store(0, 3);
    dma.granted(Ok(0x11));
    dma.granted(Ok(0));
    let wanted = Some(Request {
        addr: 0,
        width: Width::Word,
        store: None,
    });
    assert!(rt; dma.want() == wanted);
    assert!(rt; dma.load(0) == 0x0000_0003);
    dma.granted(Ok(0x22));
    dma.granted(Err(BusFault::Unmapped));
    assert!(rt; dma.load(0) == 0x0000_0202);
    assert!(rt; dma.load(16) == 0x4000_0004);
    assert!(rt; dma.load(12) == 1);
}
