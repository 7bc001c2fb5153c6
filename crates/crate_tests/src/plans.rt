//! Files that are read and made, and what is told of them.
ghost use Rattle.std.specs.Prelude.{None, false};

use bench_plan::file::{fetch, fetch_each};
use bench_plan::stop::{Stop, refused};
use bench_plan::tell::{made, stopped};
use bench_shelf::{MemShelf, MemSink, Shelf, ShelfFault};
use std::alloc::{AllocError, Global};

/// A shelf that discloses no file, and answers each read with another byte.
#[derive(Drop)]
struct Turning {
    next: u8,
}

impl Shelf for Turning {
    ghost held = { λ _. record { discloses = false; file = λ _. None; read_faults = 0; write_faults = 0 } };

    fn read(&mut self, alloc: Global, _name: &str, limit: u32) -> Result<Vec<u8>, ShelfFault> {
        if limit == 0 {
            return Err(ShelfFault::Memory);
        }
        let bytes = [self.next];
        self.next = self.next.wrapping_add(1);
        match Vec::from_slice(alloc, &bytes) {
            Ok(bytes) => Ok(bytes),
            Err(_) => Err(ShelfFault::Memory),
        }
    }

    fn write(&mut self, _name: &str, _bytes: &[u8]) -> Result<(), ShelfFault> {
        Err(ShelfFault::Memory)
    }
}

fn names_of(alloc: Global, text: &str) -> Result<Vec<String>, AllocError> {
    let mut names = Vec::new(alloc);
    for name in text.split(' ') {
        names.push(String::from_str(alloc, name)?)?;
    }
    Ok(names)
}

/// Whether two reads of one name give what the shelf answers to each.
fn reads_twice(alloc: Global, names: &[String], shelf: &mut Turning) -> bool {
    match fetch_each(alloc, names, 1, shelf) {
        Ok(files) => match files.as_slice() {
            [first, second] => first.as_slice() == b"0".as_slice()
                && second.as_slice() == b"1".as_slice(),
            _ => false,
        },
        Err(_) => false,
    }
}

/// Whether a file of this name and limit is refused with this line.
fn refuses(
    alloc: Global,
    name: &str,
    limit: u32,
    shelf: &mut MemShelf,
    out: &mut MemSink,
    line: &str,
) -> bool {
    match fetch(alloc, name, limit, shelf) {
        Ok(_) => false,
        Err(stop) => stopped(&stop, out) == 3 && out.bytes() == line.as_bytes(),
    }
}

fn shelf_of(alloc: Global) -> Result<MemShelf, AllocError> {
    let mut files = Vec::new(alloc);
    let name = String::from_str(alloc, "a")?;
    files.push((name, Vec::from_slice(alloc, b"abc")?))?;
    Ok(MemShelf::new(alloc, files, Vec::new(alloc), vec![in alloc; 1]?))
}

fn is_refused(stop: &Stop, line: &[u8]) -> bool {
    match stop {
        Stop::Refused(refusal) => refusal.status() == 12 && refusal.line() == line,
        Stop::Memory => false,
    }
}

#[test]
fn reads_and_refuses_files(rt: HostRuntime) -> Result<(), AllocError> {
    let names = names_of(rt.alloc(), "a a")?;
    assert!(&rt; reads_twice(rt.alloc(), &names, &mut Turning { next: b'0' }));

    let mut shelf = shelf_of(rt.alloc())?;
    for (name, limit, line) in [("b", 3, "error read b\n"), ("a", 2, "error long a\n")] {
        let mut out = MemSink::new(rt.alloc(), Vec::new(rt.alloc()));
        assert!(&rt;
            refuses(rt.alloc(), name, limit, &mut shelf, &mut out, line),
            "{name}"
        );
    }
    assert!(&rt; is_refused(&refused(rt.alloc(), 12, b"no\n"), b"no\n"));
    Ok(())
}

/// The first write fails, and no line is written; the second one makes the file.
#[test]
fn makes_files(rt: HostRuntime) -> Result<(), AllocError> {
    let mut shelf = shelf_of(rt.alloc())?;
    let mut out = MemSink::new(rt.alloc(), Vec::new(rt.alloc()));
    for (status, file, text) in [
        (7, None, b"".as_slice()),
        (0, Some(b"xy".as_slice()), b"made\n"),
    ] {
        let answer = made("b", b"xy", b"made\n", &mut shelf, &mut out);
        assert!(&rt; answer == status && shelf.file("b") == file && out.bytes() == text);
    }
    Ok(())
}
