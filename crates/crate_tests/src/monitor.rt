//! Sessions with a monitor over a UART and a flash that are always ready.

use boot_monitor::{Monitor, MonitorIn, MonitorOut};
use std::alloc::{AllocError, Global};

/// What the flash answers where an image with the words 00000513 and 0000006f is loaded from it: the status, the header and the
/// payload, each after its command.
const READ: [u8; 30] = [
    0xff, 0x00, 0xff, 0xff, 0xff, 0xff, 0xfe, 0xca, 0x88, 0x47, 0x08, 0x00, 0x00, 0x00, 0x7e, 0xfa,
    0xff, 0xff, 0xff, 0xff, 0xff, 0xff, 0x13, 0x05, 0x00, 0x00, 0x6f, 0x00, 0x00, 0x00,
];

/// What a monitor did.
#[derive(Drop)]
struct Session {
    /// The bytes that were sent.
    sent: Vec<u8>,
    /// The bytes that were sent to the flash.
    flashed: Vec<u8>,
    /// Every other store: its address, and the word.
    stored: Vec<(u32, u32)>,
    /// It handed over.
    over: bool,
}

/// The word that answers a load, where these bytes are the next to be received and to be answered by the flash.
fn answer(addr: u32, next: Option<u8>, flash: Option<u8>) -> u32 {
    match (addr, next) {
        (0, _) => 0x0513,
        (4, _) => 0x006f,
        (0xfff5_0000, Some(_)) => 0x0001_0000,
        (0xfff5_0004, Some(byte)) => u32::from(byte),
        (0xfff8_0000, _) => 0x0001_0000,
        (0xfff8_0004, _) => u32::from(flash.unwrap_or(0x02)),
        (0xfffe_0000, _) => 0x05f5_e100,
        (0xfffe_0004, _) => 0x0001_0000,
        (0xfffe_0008, _) => 0x0000_8000,
        (0xfffe_000c, _) => 0x0000_00fe,
        _ => 0,
    }
}

/// What a monitor does while these bytes are typed, and the flash answers these, and then 02.
fn act_on(alloc: Global, typed: &[u8], read: &[u8]) -> Result<Session, AllocError> {
    let mut monitor = Monitor::new(4096, 0x41);
    let mut sent = Vec::new(alloc);
    let mut flashed = Vec::new(alloc);
    let mut stored = Vec::new(alloc);
    let mut place: usize = 0;
    let mut answered: usize = 0;
    let mut asked = monitor.act(MonitorIn::Start);
    'replies: for _ in 0..400u32 {
        let MonitorOut::Bus(request) = asked else {
            break 'replies;
        };
        let mut word = 0;
        match request.store {
            Some(value) if request.addr == 0xfff5_0004 => sent.push((value % 256) as u8)?,
            Some(value) if request.addr == 0xfff8_0004 => flashed.push((value % 256) as u8)?,
            Some(value) => stored.push((request.addr, value))?,
            None => {
                word = answer(
                    request.addr,
                    typed.get(place).copied(),
                    read.get(answered).copied(),
                );
                place = next_place(place, request.addr == 0xfff5_0004);
                answered = next_place(answered, request.addr == 0xfff8_0004);
            }
        }
        asked = monitor.act(MonitorIn::Word(word));
    }
    let over = asked == MonitorOut::HandOver;
    Ok(Session {
        sent,
        flashed,
        stored,
        over,
    })
}

/// The place of the next byte, where one was taken.
fn next_place(place: usize, taken: bool) -> usize {
    if taken { place.wrapping_add(1) } else { place }
}

/// `u`, an image with this last byte, and this command. The image has the signature, the length 8, and the checksum word of 00000513
/// and 0000006f.
fn uploaded(last: u8, command: u8) -> [u8; 22] {
    [
        b'u', 0xfe, 0xca, 0x88, 0x47, 0x08, 0x00, 0x00, 0x00, 0x7e, 0xfa, 0xff, 0xff, 0x13, 0x05,
        0x00, 0x00, 0x6f, 0x00, 0x00, last, command,
    ]
}

#[test]
fn executes_an_upload(rt: HostRuntime) -> Result<(), AllocError> {
    let typed = uploaded(0x00, b'e');
    let session = act_on(rt.alloc(), &typed, &[])?;
    assert!(rt; session.sent.as_slice() == b"N1\r\n> UP\r\nOK\r\n> GO\r\n".as_slice());
    let stored: &[(u32, u32)] = &[(0xfff5_0000, 0x41), (0, 0x0513), (4, 0x006f)];
    assert!(rt; session.stored.as_slice() == stored);
    assert!(rt; session.over);
    Ok(())
}

#[test]
fn refuses_a_damaged_upload(rt: HostRuntime) -> Result<(), AllocError> {
    let typed = uploaded(0x01, b'e');
    let session = act_on(rt.alloc(), &typed, &[])?;
    assert!(rt;
        session.sent.as_slice() == b"N1\r\n> UP\r\nERR checksum\r\n> ERR none\r\n> ".as_slice()
    );
    assert!(rt; !session.over);
    Ok(())
}

#[test]
fn tells_the_settings(rt: HostRuntime) -> Result<(), AllocError> {
    let session = act_on(rt.alloc(), b"i", &[])?;
    assert!(rt;
        session.sent.as_slice()
            == b"N1\r\n> IMEM 00010000 DMEM 00008000 CLK 05f5e100\r\n> ".as_slice()
    );
    Ok(())
}

#[test]
fn stores_an_upload(rt: HostRuntime) -> Result<(), AllocError> {
    let typed = uploaded(0x00, b's');
    let session = act_on(rt.alloc(), &typed, &[])?;
    assert!(rt; session.sent.as_slice() == b"N1\r\n> UP\r\nOK\r\n> OK\r\n> ".as_slice());
    let flashed: &[u8] = &[
        0x05, 0x00, 0x06, 0x05, 0x00, 0x06, 0x20, 0x40, 0x00, 0x00, 0x05, 0x00, 0x06, 0x02, 0x40,
        0x01, 0x00, 0x13, 0x05, 0x00, 0x00, 0x6f, 0x00, 0x00, 0x00, 0x05, 0x00, 0x06, 0x02, 0x40,
        0x00, 0x00, 0xfe, 0xca, 0x88, 0x47, 0x08, 0x00, 0x00, 0x00, 0x7e, 0xfa, 0xff, 0xff, 0x05,
        0x00,
    ];
    assert!(rt; session.flashed.as_slice() == flashed);
    Ok(())
}

#[test]
fn executes_what_it_loads(rt: HostRuntime) -> Result<(), AllocError> {
    let session = act_on(rt.alloc(), b"le", &READ)?;
    assert!(rt; session.sent.as_slice() == b"N1\r\n> OK\r\n> GO\r\n".as_slice());
    let stored: &[(u32, u32)] = &[
        (0xfff5_0000, 0x41),
        (0xfff8_0000, 1),
        (0xfff8_0008, 1),
        (0xfff8_0008, 0),
        (0xfff8_0008, 1),
        (0xfff8_0008, 0),
        (0xfff8_0008, 1),
        (0, 0x0513),
        (4, 0x006f),
        (0xfff8_0008, 0),
    ];
    assert!(rt; session.stored.as_slice() == stored);
    assert!(rt; session.over);
    Ok(())
}
