//! The hub on short programs.

use chip_base::{Boot, BootView, Cycle, Down, IssueRecord, PhaseWord, Setup, Up};
use chip_hub::{Hub, fits};

/// addi x1, x0, 5; lui x2, 0x80000; sw x1, 0(x2); jal x0, 0
const STORE_FIVE: [u8; 16] = [
    0x93, 0x00, 0x50, 0x00, 0x37, 0x01, 0x00, 0x80, 0x23, 0x20, 0x11, 0x00, 0x6f, 0x00, 0x00, 0x00,
];

/// lui x1, 0xfffc0; addi x2, x0, 1; sw x2, 4(x1); jal x0, 0
const LIGHT: [u8; 16] = [
    0xb7, 0x00, 0xfc, 0xff, 0x13, 0x01, 0x10, 0x00, 0x23, 0xa2, 0x20, 0x00, 0x6f, 0x00, 0x00, 0x00,
];

/// lui x1, 0xfffe0; addi x2, x0, 0x40; sw x2, 0x100(x1); lui x3, 0xfff40; addi x4, x0, 1; sw x4, 4(x3); wfi; jal x0, 0;
/// from 0x40 on csrrwi x0, mtvec, 0x1c; lui x5, 0x40000; sw x5, 0(x5)
const TWO_HARTS: [u8; 76] = [
    0xb7, 0x00, 0xfe, 0xff, 0x13, 0x01, 0x00, 0x04, 0x23, 0xa0, 0x20, 0x10, 0xb7, 0x01, 0xf4, 0xff,
    0x13, 0x02, 0x10, 0x00, 0x23, 0xa2, 0x41, 0x00, 0x73, 0x00, 0x50, 0x10, 0x6f, 0x00, 0x00, 0x00,
    0x00, 0x00, 0x00, 0x00, 0x00, 0x00, 0x00, 0x00, 0x00, 0x00, 0x00, 0x00, 0x00, 0x00, 0x00, 0x00,
    0x00, 0x00, 0x00, 0x00, 0x00, 0x00, 0x00, 0x00, 0x00, 0x00, 0x00, 0x00, 0x00, 0x00, 0x00, 0x00,
    0x73, 0x50, 0x5e, 0x30, 0xb7, 0x02, 0x00, 0x40, 0x23, 0xa0, 0x52, 0x00,
];

/// lui x1, 0xfffe0; lw x2, 0(x1); lw x3, 4(x1); lw x4, 8(x1); lw x5, 12(x1); lhu x6, 2(x1); jal x0, 0
const SETTINGS: [u8; 28] = [
    0xb7, 0x00, 0xfe, 0xff, 0x03, 0xa1, 0x00, 0x00, 0x83, 0xa1, 0x40, 0x00, 0x03, 0xa2, 0x80, 0x00,
    0x83, 0xa2, 0xc0, 0x00, 0x03, 0xd3, 0x20, 0x00, 0x6f, 0x00, 0x00, 0x00,
];

/// lui x1, 0xfff50; lbu x2, 5(x1); lbu x3, 4(x1); jal x0, 0
const NARROW: [u8; 16] = [
    0xb7, 0x00, 0xf5, 0xff, 0x03, 0xc1, 0x50, 0x00, 0x83, 0xc1, 0x40, 0x00, 0x6f, 0x00, 0x00, 0x00,
];

/// lui x1, 0xfffc0; addi x2, x0, 1; sw x2, 8(x1); jal x0, 0
const PIN_INTERRUPT: [u8; 16] = [
    0xb7, 0x00, 0xfc, 0xff, 0x13, 0x01, 0x10, 0x00, 0x23, 0xa4, 0x20, 0x00, 0x6f, 0x00, 0x00, 0x00,
];

/// lui x1, 0xffec0; lui x2, 0x400; sw x2, 0(x1); lw x3, 4(x1); jal x0, 0
const REPLY_INTERRUPT: [u8; 20] = [
    0xb7, 0x00, 0xec, 0xff, 0x37, 0x01, 0x40, 0x00, 0x23, 0xa0, 0x20, 0x00, 0x83, 0xa1, 0x40, 0x00,
    0x6f, 0x00, 0x00, 0x00,
];

/// lui x1, 0xfffe0; lw x2, 12(x1); jal x0, -4
const LOAD_OPEN: [u8; 12] = [
    0xb7, 0x00, 0xfe, 0xff, 0x03, 0xa1, 0xc0, 0x00, 0x6f, 0xf0, 0xdf, 0xff,
];

/// csrrwi x0, mtvec, 8; ecall; and at 8 a word that is no instruction
const TRAPS: [u8; 12] = [
    0x73, 0x50, 0x54, 0x30, 0x73, 0x00, 0x00, 0x00, 0xff, 0xff, 0xff, 0xff,
];

/// lui x1, 0xffed0; lui x2, 0x80000; sw x2, 4(x1); addi x3, x2, 16; sw x3, 8(x1); addi x4, x0, 1; sw x4, 12(x1); sw x4, 0(x1);
/// jal x0, 0
const COPY_WORD: [u8; 36] = [
    0xb7, 0x00, 0xed, 0xff, 0x37, 0x01, 0x00, 0x80, 0x23, 0xa2, 0x20, 0x00, 0x93, 0x01, 0x01, 0x01,
    0x23, 0xa4, 0x30, 0x00, 0x13, 0x02, 0x10, 0x00, 0x23, 0xa6, 0x40, 0x00, 0x23, 0xa0, 0x40, 0x00,
    0x6f, 0x00, 0x00, 0x00,
];

/// A word that goes up from a unit.
const fn word_up(word: u32) -> Up {
    Up {
        has: true,
        word,
        ..Up::SILENT
    }
}

#[test]
fn stores_at_the_grant(rt: HostRuntime) {
    let hub = Hub::new(rt.alloc(), &Setup::standard(), Boot::Raw, &STORE_FIVE);
    let Ok(mut hub) = hub else {
        panic!(&rt; "the hub was refused");
    };
    for now in 0..4 {
        hub.cycle(now, &[None; 7]);
    }
    assert!(&rt; hub.word(0x8000_0000) == Some(0));
    hub.cycle(4, &[None; 7]);
    assert!(&rt; hub.word(0x8000_0000) == Some(5));
    assert!(&rt; hub.hart(0).retired == 3);
    assert!(&rt; hub.hart(0).pc == 12);
    assert!(&rt; hub.word(0x8001_0000).is_none());
    assert!(&rt; hub.csr(1, 0xf14) == Some(1));
    assert!(&rt; hub.csr(0, 0x7c0).is_none());
}

#[test]
fn sends_a_message_at_the_grant(rt: HostRuntime) {
    let hub = Hub::new(rt.alloc(), &Setup::standard(), Boot::Raw, &LIGHT);
    let Ok(mut hub) = hub else {
        panic!(&rt; "the hub was refused");
    };
    for now in 0..4 {
        hub.cycle(now, &[None; 7]);
    }
    let downs = hub.cycle(4, &[None; 7]);
    assert!(&rt; downs[3] == Some(Down::Set { reg: 4, word: 1 }));
    assert!(&rt; downs[0].is_none() && downs[4].is_none());
}

/// Hart 0 starts hart 1, whose first store is to an address where nothing lies.
#[test]
fn starts_hart_1(rt: HostRuntime) {
    let hub = Hub::new(rt.alloc(), &Setup::standard(), Boot::Raw, &TWO_HARTS);
    let Ok(mut hub) = hub else {
        panic!(&rt; "the hub was refused");
    };
    for now in 0..14 {
        hub.cycle(now, &[None; 7]);
        assert!(&rt; hub.hart(1).phase == PhaseWord::Parked);
    }
    hub.cycle(14, &[None; 7]);
    assert!(&rt; hub.hart(1).phase == PhaseWord::Ready);
    assert!(&rt; hub.hart(1).pc == 0x40);
    for now in 15..20 {
        hub.cycle(now, &[None; 7]);
    }
    assert!(&rt; hub.csr(1, 0x342) == Some(0));
    hub.cycle(20, &[None; 7]);
    assert!(&rt; hub.csr(1, 0x342) == Some(7));
    assert!(&rt; hub.csr(1, 0x343) == Some(0x4000_0000));
}

#[test]
fn tells_the_settings(rt: HostRuntime) {
    let hub = Hub::new(rt.alloc(), &Setup::standard(), Boot::Raw, &SETTINGS);
    let Ok(mut hub) = hub else {
        panic!(&rt; "the hub was refused");
    };
    for now in 0..24 {
        hub.cycle(now, &[None; 7]);
    }
    let regs = hub.hart(0).regs;
    assert!(&rt; regs[2] == 64_000_000);
    assert!(&rt; regs[3] == 65_536 && regs[4] == 65_536);
    assert!(&rt; regs[5] == 0xfe);
    assert!(&rt; regs[6] == 0x03d0);
}

/// A load of one byte beside the received one takes it.
#[test]
fn takes_the_entry_by_a_byte(rt: HostRuntime) {
    let hub = Hub::new(rt.alloc(), &Setup::standard(), Boot::Raw, &NARROW);
    let Ok(mut hub) = hub else {
        panic!(&rt; "the hub was refused");
    };
    let mut ups = [None; 7];
    ups[0] = Some(word_up(0x41));
    hub.cycle(0, &ups);
    for now in 1..9 {
        hub.cycle(now, &[None; 7]);
    }
    assert!(&rt; hub.hart(0).retired == 3);
    assert!(&rt; hub.hart(0).regs[2] == 0);
    assert!(&rt; hub.hart(0).regs[3] == 0);
}

/// A pin that rises and may interrupt raises fast line 4 for both harts.
#[test]
fn raises_the_line_of_the_pins(rt: HostRuntime) {
    let hub = Hub::new(rt.alloc(), &Setup::standard(), Boot::Raw, &PIN_INTERRUPT);
    let Ok(mut hub) = hub else {
        panic!(&rt; "the hub was refused");
    };
    for now in 0..5 {
        hub.cycle(now, &[None; 7]);
    }
    assert!(&rt; hub.csr(0, 0x344) == Some(0));
    let mut ups = [None; 7];
    ups[3] = Some(word_up(1));
    hub.cycle(5, &ups);
    assert!(&rt; hub.csr(0, 0x344) == Some(0x0010_0000));
    assert!(&rt; hub.csr(1, 0x344) == Some(0x0010_0000));
}

/// A reply raises fast line 6 for both harts, from the store that enables the interrupt to the load that takes the reply.
#[test]
fn raises_the_line_of_the_stream_link(rt: HostRuntime) {
    let hub = Hub::new(rt.alloc(), &Setup::standard(), Boot::Raw, &REPLY_INTERRUPT);
    let Ok(mut hub) = hub else {
        panic!(&rt; "the hub was refused");
    };
    let mut ups = [None; 7];
    ups[5] = Some(word_up(0x8000_0041));
    hub.cycle(0, &ups);
    for now in 1..4 {
        hub.cycle(now, &[None; 7]);
    }
    assert!(&rt; hub.csr(0, 0x344) == Some(0));
    let downs = hub.cycle(4, &[None; 7]);
    let set = Down::Set {
        reg: 0,
        word: 0x0040_0000,
    };
    assert!(&rt; downs[5] == Some(set));
    for now in 5..9 {
        assert!(&rt; hub.csr(0, 0x344) == Some(0x0040_0000));
        assert!(&rt; hub.csr(1, 0x344) == Some(0x0040_0000));
        hub.cycle(now, &[None; 7]);
    }
    hub.cycle(9, &[None; 7]);
    assert!(&rt; hub.hart(0).regs[3] == 0x8000_0041);
    assert!(&rt; hub.csr(0, 0x344) == Some(0));
    assert!(&rt; hub.csr(1, 0x344) == Some(0));
}

/// Each Fire closes all fronts. Of two answers that uart0's front waits for, one comes with the second Fire, so after one more from each
/// unit it alone is open.
#[test]
fn hears_answers_with_a_fire(rt: HostRuntime) {
    let hub = Hub::new(rt.alloc(), &Setup::standard(), Boot::Raw, &LOAD_OPEN);
    let Ok(mut hub) = hub else {
        panic!(&rt; "the hub was refused");
    };
    let mut fire = [None; 7];
    fire[6] = Some(Up::FIRE);
    let mut answer_and_fire = fire;
    answer_and_fire[0] = Some(Up::DONE);
    for now in 0..301 {
        let ups = match now {
            0 => fire,
            100 => answer_and_fire,
            200 => [Some(Up::DONE); 7],
            _ => [None; 7],
        };
        let downs = hub.cycle(now, &ups);
        let sent = match now {
            0 | 100 => Some(Down::Reset),
            _ => None,
        };
        assert!(&rt; downs[0] == sent && downs[6] == sent);
    }
    assert!(&rt; hub.hart(0).regs[2] == 0x2);
}

/// The image of the payload addi x1, x0, 5; jal x0, 0.
const IMAGE: [u8; 20] = [
    0xfe, 0xca, 0x88, 0x47, 0x08, 0x00, 0x00, 0x00, 0xfe, 0xfe, 0xaf, 0xff, 0x93, 0x00, 0x50, 0x00,
    0x6f, 0x00, 0x00, 0x00,
];

#[test]
fn begins_with_the_payload(rt: HostRuntime) {
    let setup = Setup::standard();
    assert!(&rt; !fits(Boot::Direct, &STORE_FIVE, setup.imem));
    assert!(&rt; fits(Boot::Direct, &IMAGE, setup.imem));
    let hub = Hub::new(rt.alloc(), &setup, Boot::Direct, &IMAGE);
    let Ok(mut hub) = hub else {
        panic!(&rt; "the hub was refused");
    };
    assert!(&rt; hub.boot() == BootView::Direct);
    assert!(&rt; hub.word(0) == Some(0x0050_0093));
    assert!(&rt; hub.word(8) == Some(0));
    for now in 0..10 {
        hub.cycle(now, &[None; 7]);
    }
    assert!(&rt; hub.hart(0).regs[1] == 5);
}

/// The monitor finds all fronts open in cycle 0, sets UART0 up in cycle 8, finds that it has room in cycle 16, and sends N in cycle 24.
#[test]
fn greets_in_time(rt: HostRuntime) {
    let hub = Hub::new(rt.alloc(), &Setup::standard(), Boot::Monitor, &STORE_FIVE);
    let Ok(mut hub) = hub else {
        panic!(&rt; "the hub was refused");
    };
    assert!(&rt; hub.word(0) == Some(0));
    for now in 0..25 {
        let downs = hub.cycle(now, &[None; 7]);
        let sent = match now {
            8 => Some(Down::Set {
                reg: 0,
                word: 17_729,
            }),
            24 => Some(Down::Set { reg: 4, word: 0x4e }),
            _ => None,
        };
        assert!(&rt; downs[0] == sent);
    }
    assert!(&rt; hub.boot() == BootView::Monitor);
    assert!(&rt; hub.hart(0).phase == PhaseWord::Monitor);
    assert!(&rt; hub.hart(0).retired == 0 && hub.hart(0).pc == 0);
    assert!(&rt; hub.csr(0, 0xb00) == Some(0));
}

/// What UART0 says in a cycle while a session is typed at the monitor: `u`, the image and `e`, a byte every 32 cycles from cycle 200 on, each
/// with a credit, and then credits alone.
fn typed(now: Cycle) -> Option<Up> {
    if now < 200 || now % 32 != 8 {
        return None;
    }
    let place = now.saturating_sub(200) / 32;
    let byte = match place {
        0 => Some(b'u'),
        21 => Some(b'e'),
        _ => IMAGE.get((place as usize).wrapping_sub(1)).copied(),
    };
    Some(Up {
        credit: true,
        has: byte.is_some(),
        word: byte.map_or(0, u32::from),
        ..Up::SILENT
    })
}

/// A Fire in the very cycle of the monitor's hand-over: the monitor begins anew, and IMEM keeps what was uploaded.
#[test]
fn resets_at_the_hand_over(rt: HostRuntime) {
    let hub = Hub::new(rt.alloc(), &Setup::standard(), Boot::Monitor, &[]);
    let Ok(mut hub) = hub else {
        panic!(&rt; "the hub was refused");
    };
    let mut ups = [None; 7];
    let mut left = 0;
    for now in 0..2000 {
        if hub.boot() == BootView::Monitor {
            ups[0] = typed(now);
            hub.cycle(now, &ups);
            left = now;
        }
    }
    assert!(&rt; hub.boot() == BootView::Handed { cycle: left });
    assert!(&rt; hub.word(0) == Some(0x0050_0093));

    let hub = Hub::new(rt.alloc(), &Setup::standard(), Boot::Monitor, &[]);
    let Ok(mut hub) = hub else {
        panic!(&rt; "the hub was refused");
    };
    for now in 0..left {
        ups[0] = typed(now);
        hub.cycle(now, &ups);
    }
    assert!(&rt; hub.boot() == BootView::Monitor);
    ups[6] = Some(Up::FIRE);
    let downs = hub.cycle(left, &ups);
    assert!(&rt; downs[0] == Some(Down::Reset));
    assert!(&rt; hub.boot() == BootView::Monitor);
    assert!(&rt; hub.hart(0).phase == PhaseWord::Monitor);
    assert!(&rt; hub.word(0) == Some(0x0050_0093));
}

/// Both harts issue in cycle 18, and hart 0's issue stands first. The store of hart 1 that is refused in cycle 20 is told, and issued.
#[test]
fn tells_the_issues_of_both_harts(rt: HostRuntime) {
    let hub = Hub::new(rt.alloc(), &Setup::standard(), Boot::Raw, &TWO_HARTS);
    let Ok(mut hub) = hub else {
        panic!(&rt; "the hub was refused");
    };
    assert!(&rt; hub.issue(0).is_none() && hub.stored().is_none());
    for now in 0..19 {
        hub.cycle(now, &[None; 7]);
        let stored = match now {
            4 => Some((0xfffe_0100, 4)),
            13 => Some((0xfff4_0004, 4)),
            _ => None,
        };
        assert!(&rt; hub.stored() == stored);
    }
    let of_hart_1 = IssueRecord {
        cycle: 18,
        hart: 1,
        pc: 0x44,
        word: 0x4000_02b7,
    };
    let of_hart_0 = IssueRecord {
        cycle: 18,
        hart: 0,
        pc: 0x18,
        word: 0x1050_0073,
    };
    let first = IssueRecord {
        cycle: 0,
        hart: 0,
        pc: 0,
        word: 0xfffe_00b7,
    };
    assert!(&rt; hub.issue(0) == Some(of_hart_1));
    assert!(&rt; hub.issue(1) == Some(of_hart_0));
    assert!(&rt; hub.issue(8) == Some(first));
    assert!(&rt; hub.issue(9).is_none());
    hub.cycle(19, &[None; 7]);
    assert!(&rt; hub.stored().is_none());
    hub.cycle(20, &[None; 7]);
    assert!(&rt; hub.stored() == Some((0x4000_0000, 4)));
    let refused = IssueRecord {
        cycle: 20,
        hart: 1,
        pc: 0x48,
        word: 0x0052_a023,
    };
    assert!(&rt; hub.issue(0) == Some(refused));
}

/// An ecall, which traps, and a word that is no instruction are issued.
#[test]
fn tells_issues_that_trap(rt: HostRuntime) {
    let hub = Hub::new(rt.alloc(), &Setup::standard(), Boot::Raw, &TRAPS);
    let Ok(mut hub) = hub else {
        panic!(&rt; "the hub was refused");
    };
    for now in 0..10 {
        hub.cycle(now, &[None; 7]);
    }
    let illegal = IssueRecord {
        cycle: 9,
        hart: 0,
        pc: 8,
        word: 0xffff_ffff,
    };
    let call = IssueRecord {
        cycle: 3,
        hart: 0,
        pc: 4,
        word: 0x73,
    };
    assert!(&rt; hub.issue(0) == Some(illegal));
    assert!(&rt; hub.issue(1) == Some(call));
    assert!(&rt; hub.csr(0, 0x342) == Some(2));
    assert!(&rt; hub.csr(0, 0xb02) == Some(1));
}

/// The monitor issues nothing, and its stores are told: those to CTRL and to DATA of UART0.
#[test]
fn tells_no_issue_of_the_monitor(rt: HostRuntime) {
    let hub = Hub::new(rt.alloc(), &Setup::standard(), Boot::Monitor, &[]);
    let Ok(mut hub) = hub else {
        panic!(&rt; "the hub was refused");
    };
    for now in 0..25 {
        hub.cycle(now, &[None; 7]);
        let stored = match now {
            8 => Some((0xfff5_0000, 4)),
            24 => Some((0xfff5_0004, 4)),
            _ => None,
        };
        assert!(&rt; hub.stored() == stored);
        assert!(&rt; hub.issue(0).is_none());
    }
}

/// The DMA reads its word in cycle 24 and stores it in cycle 25, while hart 0 is busy.
#[test]
fn tells_a_store_of_the_dma(rt: HostRuntime) {
    let hub = Hub::new(rt.alloc(), &Setup::standard(), Boot::Raw, &COPY_WORD);
    let Ok(mut hub) = hub else {
        panic!(&rt; "the hub was refused");
    };
    for now in 0..27 {
        hub.cycle(now, &[None; 7]);
        let stored = match now {
            4 => Some((0xffed_0004, 4)),
            11 => Some((0xffed_0008, 4)),
            18 => Some((0xffed_000c, 4)),
            23 => Some((0xffed_0000, 4)),
            25 => Some((0x8000_0010, 4)),
            _ => None,
        };
        assert!(&rt; hub.stored() == stored);
    }
}

/// Of 1,503 issues the latest 1,000 are kept. In a cycle with a Fire nothing is issued, and no store is told.
#[test]
fn keeps_1000_issues(rt: HostRuntime) {
    let hub = Hub::new(rt.alloc(), &Setup::standard(), Boot::Raw, &LIGHT);
    let Ok(mut hub) = hub else {
        panic!(&rt; "the hub was refused");
    };
    for now in 0..9 {
        hub.cycle(now, &[None; 7]);
    }
    assert!(&rt; hub.issue(2).is_some() && hub.issue(3).is_none());
    for now in 9..9009 {
        hub.cycle(now, &[None; 7]);
    }
    let last = IssueRecord {
        cycle: 9003,
        hart: 0,
        pc: 12,
        word: 0x6f,
    };
    let oldest = IssueRecord {
        cycle: 3009,
        ..last
    };
    assert!(&rt; hub.issue(0) == Some(last));
    assert!(&rt; hub.issue(999) == Some(oldest));
    assert!(&rt; hub.issue(1000).is_none() && hub.issue(1001).is_none());
    let mut ups = [None; 7];
    ups[6] = Some(Up::FIRE);
    hub.cycle(9009, &ups);
    assert!(&rt; hub.issue(0) == Some(last) && hub.stored().is_none());
}
