//! Short programs, with the cycles that the delays and the units give.
ghost use Rattle.std.specs.Prelude.{◌≡◌, ◌≤◌, ◌<◌, ◌+◌, ◌^◌, length, IfOk, OnOk};

use bench_parts::{Counter, Part, Scramble};
use chip_base::{
    Boot, BootView, Event, EventKind, Groups, HartView, IssueRecord, NoMemory, PhaseWord, Pins,
    Script, Setup, Steps, Steps0,
};
use chip_net::Chip;
use chip_whole::Standing;
use std::marker::Brand;
use std::process::Abort;
use std::sync::ledger::{Blank, Ledger};
use std::test::Fail;
use std::thread::Threads;

/// lui x1, 0xfff50; addi x2, x0, 1; sw x2, 0(x1); addi x2, x0, 0x41; sw x2, 4(x1); jal x0, 0
const PROGRAM: [u8; 24] = [
    0xb7, 0x00, 0xf5, 0xff, 0x13, 0x01, 0x10, 0x00, 0x23, 0xa0, 0x20, 0x00, 0x13, 0x01, 0x10, 0x04,
    0x23, 0xa2, 0x20, 0x00, 0x6f, 0x00, 0x00, 0x00,
];

/// lui x1, 0xfffb0; addi x2, x0, 0x101; sw x2, 0(x1); jal x0, 0
const WATCHED: [u8; 16] = [
    0xb7, 0x00, 0xfb, 0xff, 0x13, 0x01, 0x10, 0x10, 0x23, 0xa0, 0x20, 0x00, 0x6f, 0x00, 0x00, 0x00,
];

/// lui x1, 0xffec0; addi x2, x0, 1; sw x2, 0(x1); addi x2, x0, 0x41; sw x2, 4(x1); lw x3, 4(x1); beq x3, x0, -4; jal x0, 0
const LINKED: [u8; 32] = [
    0xb7, 0x00, 0xec, 0xff, 0x13, 0x01, 0x10, 0x00, 0x23, 0xa0, 0x20, 0x00, 0x13, 0x01, 0x10, 0x04,
    0x23, 0xa2, 0x20, 0x00, 0x83, 0xa1, 0x40, 0x00, 0xe3, 0x8e, 0x01, 0xfe, 0x6f, 0x00, 0x00, 0x00,
];

/// lui x1, 0xffec0; lui x3, 0xfffb0; addi x2, x0, 1; mul x5, x2, x2; lw x6, 8(x3); slli x6, x6, 2; add x7, x1, x6; sw x2, 0(x1);
/// sw x2, 4(x7); sw x0, 0(x1); sw x2, 4(x1); sw x2, 4(x1); addi x4, x0, 0x101; sw x4, 0(x3); lw x8, 4(x1); jal x0, 0
const LINKED_AND_WATCHED: [u8; 64] = [
    0xb7, 0x00, 0xec, 0xff, 0xb7, 0x01, 0xfb, 0xff, 0x13, 0x01, 0x10, 0x00, 0xb3, 0x02, 0x21, 0x02,
    0x03, 0xa3, 0x81, 0x00, 0x13, 0x13, 0x23, 0x00, 0xb3, 0x83, 0x60, 0x00, 0x23, 0xa0, 0x20, 0x00,
    0x23, 0xa2, 0x23, 0x00, 0x23, 0xa0, 0x00, 0x00, 0x23, 0xa2, 0x20, 0x00, 0x23, 0xa2, 0x20, 0x00,
    0x13, 0x02, 0x10, 0x10, 0x23, 0xa0, 0x41, 0x00, 0x03, 0xa4, 0x40, 0x00, 0x6f, 0x00, 0x00, 0x00,
];

/// The chip of the standard settings, with the program from address 0 on, and a part on its stream link, if there is one.
fn chip(rt: &HostRuntime, program: &[u8], part: Option<Box<dyn Part + Send>>) -> Result<Chip, Fail>
    requires { length program.now ≤ 64 }
    ensures { IfOk result (λ chip. ⟦<Chip as Standing>⟧.now chip ≡ 0) }
{
    let alloc = rt.alloc();
    let image = Vec::from_slice(alloc, program)?;
    let script = Script {
        pins: Pins::from_vec(Vec::new(alloc)).unwrap(),
        uart0: Steps0::from_vec(Vec::new(alloc)).unwrap(),
        uart1: Steps0::from_vec(Vec::new(alloc)).unwrap(),
    };
    let groups = Groups { of: [0; 8] };
    let setup = Setup::standard();
    Ok(Chip::new(alloc, &setup, Boot::Raw, image, script, part, &groups)?)
}

/// Runs the chip, with a counter of rounds over a blank ledger.
fn run_counted<R: Threads + Sync, C: Ledger>(
    rt: &R,
    chip: &mut Chip,
    cycles: u32,
    blank: Blank,
) -> Result<(), NoMemory>
    requires name { blank.name ≡ C.name }
    requires parts { blank.parts ≡ C.parts }
    requires one { 0 < blank.parts }
    requires cycles { cycles ≤ 4096 }
    requires time { ⟦<Chip as Standing>⟧.now chip.old + cycles + 4096 < 2 ^ 64 }
    ensures { OnOk result (⟦<Chip as Standing>⟧.now chip.new ≡ ⟦<Chip as Standing>⟧.now chip.old + cycles) }
{
    let mut steps = Steps::<C>::new(blank);
    chip.run(rt, cycles, &mut steps)
}

fn run<R: Threads + Sync>(rt: &R, chip: &mut Chip, cycles: u32) -> Result<(), NoMemory>
    requires cycles { cycles ≤ 4096 }
    requires time { ⟦<Chip as Standing>⟧.now chip.old + cycles + 4096 < 2 ^ 64 }
    ensures { OnOk result (⟦<Chip as Standing>⟧.now chip.new ≡ ⟦<Chip as Standing>⟧.now chip.old + cycles) }
{
    run_counted::<R, Brand>(rt, chip, cycles, Blank::new(1))
}

/// Whether the last run told these events, and no others.
fn tells(chip: &Chip, events: &[Event]) -> bool {
    chip.events() == events
}

/// Hart 0, as a report shows it.
fn hart_0(chip: &Chip) -> HartView {
    chip.hart(0)
}

/// The byte is stored in cycle 11, comes to the unit in cycle 43, and has left after the twenty cycles of its frame.
fn sees_byte<R: Abort + Threads + Sync>(rt: &R, chip: &mut Chip) -> Result<(), Fail>
    requires { ⟦<Chip as Standing>⟧.now chip.old ≡ 0 }
{
    let wanted = Event {
        cycle: 62,
        unit: 1,
        kind: EventKind::Tx,
        value: 0x41,
    };
    run(rt, chip, 62)?;
    assert!(rt; tells(chip, &[]));
    run(rt, chip, 1)?;
    assert!(rt; tells(chip, &[wanted]));
    assert!(rt; chip.now() == 63);
    run(rt, chip, 1)?;
    assert!(rt; tells(chip, &[]));
    Ok(())
}

#[test]
fn byte_in_time(rt: HostRuntime) -> Result<(), Fail> {
    let mut chip = chip(&rt, &PROGRAM, None)?;
    sees_byte(&rt, &mut chip)
}

/// Hart 0 runs in its last instruction, and hart 1 is parked.
fn shows_harts<R: Abort>(rt: &R, chip: &Chip) {
    let hart = hart_0(chip);
    assert!(rt; hart.phase == PhaseWord::Run);
    assert!(rt; hart.pc == 0x14);
    assert!(rt; hart.retired == 13);
    assert!(rt; hart.regs[1] == 0xfff5_0000);
    assert!(rt; hart.regs[2] == 0x41);
    assert!(rt; chip.hart(1).phase == PhaseWord::Parked);
}

fn shows_words<R: Abort>(rt: &R, chip: &Chip) {
    assert!(rt; chip.boot() == BootView::Raw);
    assert!(rt; chip.word(0) == Some(0xfff5_00b7));
    assert!(rt; chip.word(2).is_none());
    assert!(rt; chip.imem_size() == 65_536);
    assert!(rt; chip.dmem_size() == 65_536);
    // mhartid
    assert!(rt; chip.csr(1, 0xf14) == Some(1));
}

fn shows_issues<R: Abort>(rt: &R, chip: &Chip) {
    let last = IssueRecord {
        cycle: 58,
        hart: 0,
        pc: 0x14,
        word: 0x6f,
    };
    assert!(rt; chip.issues(0) == Some(last));
    assert!(rt; chip.issues(12).is_some() && chip.issues(13).is_none());
    assert!(rt; chip.stored().is_none());
}

fn sees_views<R: Abort + Threads + Sync>(rt: &R, chip: &mut Chip) -> Result<(), Fail>
    requires { ⟦<Chip as Standing>⟧.now chip.old ≡ 0 }
{
    run(rt, chip, 63)?;
    assert!(rt; chip.events().len() == 1);
    shows_harts(rt, chip);
    shows_words(rt, chip);
    shows_issues(rt, chip);
    Ok(())
}

#[test]
fn views(rt: HostRuntime) -> Result<(), Fail> {
    let mut chip = chip(&rt, &PROGRAM, None)?;
    sees_views(&rt, &mut chip)
}

/// The watchdog is set in cycle 4, for 256 cycles from cycle 68 on. Its Fire arrives in cycle 387, and hart 0 begins anew in cycle 388.
fn sees_fire<R: Abort + Threads + Sync>(rt: &R, chip: &mut Chip) -> Result<(), Fail>
    requires { ⟦<Chip as Standing>⟧.now chip.old ≡ 0 }
{
    let wanted = Event {
        cycle: 323,
        unit: 7,
        kind: EventKind::Fire,
        value: 0,
    };
    run(rt, chip, 387)?;
    assert!(rt; tells(chip, &[wanted]));
    assert!(rt; hart_0(chip).pc == 12);
    run(rt, chip, 1)?;
    assert!(rt; hart_0(chip).pc == 0);
    assert!(rt; hart_0(chip).retired == 0);
    assert!(rt; chip.word(0) == Some(0xfffb_00b7));
    run(rt, chip, 3)?;
    assert!(rt; hart_0(chip).regs[2] == 0x101);
    assert!(rt; tells(chip, &[]));
    Ok(())
}

#[test]
fn fires_in_time(rt: HostRuntime) -> Result<(), Fail> {
    let mut chip = chip(&rt, &WATCHED, None)?;
    sees_fire(&rt, &mut chip)
}

/// The word is stored in cycle 11 and comes to the stream link in cycle 19, which passes it at once. The reply comes to the hub in
/// cycle 27.
fn sees_reply<R: Abort + Threads + Sync>(rt: &R, chip: &mut Chip) -> Result<(), Fail>
    requires { ⟦<Chip as Standing>⟧.now chip.old ≡ 0 }
{
    let wanted = Event {
        cycle: 19,
        unit: 6,
        kind: EventKind::Word,
        value: 0x41,
    };
    run(rt, chip, 27)?;
    assert!(rt; tells(chip, &[wanted]));
    assert!(rt; hart_0(chip).regs[3] == 0);
    run(rt, chip, 10)?;
    assert!(rt; hart_0(chip).regs[3] == 0x5a5a_7ada);
    Ok(())
}

#[test]
fn part_replies(rt: HostRuntime) -> Result<(), Fail> {
    let part = Box::new(rt.alloc(), Scramble::new())?;
    let mut chip = chip(&rt, &LINKED, Some(part))?;
    sees_reply(&rt, &mut chip)
}

/// Without a part no reply comes.
fn sees_none<R: Abort + Threads + Sync>(rt: &R, chip: &mut Chip) -> Result<(), Fail>
    requires { ⟦<Chip as Standing>⟧.now chip.old ≡ 0 }
{
    run(rt, chip, 200)?;
    assert!(rt; chip.events().len() == 1);
    assert!(rt; hart_0(chip).regs[3] == 0);
    Ok(())
}

#[test]
fn none_replies(rt: HostRuntime) -> Result<(), Fail> {
    let mut chip = chip(&rt, &LINKED, None)?;
    sees_none(&rt, &mut chip)
}

/// The link passes a word in cycle 67, is disabled in cycle 72, and two words wait when the watchdog's Fire arrives in cycle 464. They are
/// lost, and the part counts on: the next word that it is called with, in cycle 532, is the second one, and the last of a packet.
fn counts_over_a_fire<R: Abort + Threads + Sync>(rt: &R, chip: &mut Chip) -> Result<(), Fail>
    requires { ⟦<Chip as Standing>⟧.now chip.old ≡ 0 }
{
    let word = Event {
        cycle: 67,
        unit: 6,
        kind: EventKind::Word,
        value: 1,
    };
    let fire = Event {
        cycle: 400,
        unit: 7,
        kind: EventKind::Fire,
        value: 0,
    };
    let last = Event {
        cycle: 532,
        unit: 6,
        kind: EventKind::Last,
        value: 1,
    };
    run(rt, chip, 464)?;
    assert!(rt; tells(chip, &[word, fire]));
    assert!(rt; hart_0(chip).pc == 0x3c);
    assert!(rt; hart_0(chip).regs[8] == 0);
    run(rt, chip, 87)?;
    assert!(rt; tells(chip, &[last]));
    assert!(rt; hart_0(chip).regs[8] == 0);
    run(rt, chip, 1)?;
    assert!(rt; hart_0(chip).regs[8] == 2);
    run(rt, chip, 1000)?;
    assert!(rt; tells(chip, &[]));
    Ok(())
}

#[test]
fn part_counts_over_a_fire(rt: HostRuntime) -> Result<(), Fail> {
    let part = Box::new(rt.alloc(), Counter::new())?;
    let mut chip = chip(&rt, &LINKED_AND_WATCHED, Some(part))?;
    counts_over_a_fire(&rt, &mut chip)
}
