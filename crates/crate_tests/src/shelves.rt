//! Shelves and sinks, in memory and of the system.

use bench_shelf::{FileShelf, MemShelf, MemSink, OutSink, Shelf, ShelfFault, Sink, SinkFault};
use std::alloc::{AllocError, Global};
use std::io::{ErrorKind, Write};
use std::process::Abort;
use std::test::Fail;
use std::{fs, io};

/// A file of a shelf in memory.
fn file(alloc: Global, name: &str, bytes: &[u8]) -> Result<(String, Vec<u8>), AllocError> {
    Ok((
        String::from_str(alloc, name)?,
        Vec::from_slice(alloc, bytes)?,
    ))
}

fn files_of(alloc: Global, given: &[(&str, &[u8])]) -> Result<Vec<(String, Vec<u8>)>, AllocError> {
    let mut files = Vec::new(alloc);
    for (name, bytes) in given {
        files.push(file(alloc, *name, *bytes)?)?;
    }
    Ok(files)
}

/// Whether a shelf has a file with these bytes.
fn holds(shelf: &MemShelf, name: &str, bytes: &[u8]) -> bool {
    match shelf.file(name) {
        Some(found) => found == bytes,
        None => false,
    }
}

/// The third write fails.
fn finds_replaces_and_adds(rt: &impl Abort, shelf: &mut MemShelf) {
    assert!(rt; holds(shelf, "twice", b"first"));
    assert!(rt; holds(shelf, "empty", b""));
    assert!(rt; shelf.file("other").is_none());
    assert!(rt; shelf.write("twice", b"new").is_ok());
    assert!(rt; shelf.write("other", b"added").is_ok());
    assert!(rt; shelf.write("empty", b"third") == Err(ShelfFault::Failed));
    assert!(rt; holds(shelf, "twice", b"new"));
    assert!(rt; holds(shelf, "empty", b""));
    assert!(rt; holds(shelf, "other", b"added"));
}

#[test]
fn files_in_memory_are_found_replaced_and_added(rt: HostRuntime) -> Result<(), AllocError> {
    let alloc = rt.alloc();
    let given: [(&str, &[u8]); 3] = [("twice", b"first"), ("empty", b""), ("twice", b"second")];
    let files = files_of(alloc, &given)?;
    let mut shelf = MemShelf::new(alloc, files, Vec::new(alloc), vec![in alloc; 3]?);
    finds_replaces_and_adds(&rt, &mut shelf);
    Ok(())
}

/// Whether a read gives these bytes.
fn gives(alloc: Global, shelf: &mut impl Shelf, name: &str, limit: u32, bytes: &[u8]) -> bool {
    match shelf.read(alloc, name, limit) {
        Ok(found) => found.as_slice() == bytes,
        Err(_) => false,
    }
}

/// Whether a read is refused with this fault.
fn refuses(
    alloc: Global,
    shelf: &mut impl Shelf,
    name: &str,
    limit: u32,
    fault: ShelfFault,
) -> bool {
    match shelf.read(alloc, name, limit) {
        Ok(_) => false,
        Err(found) => found == fault,
    }
}

/// The second read fails.
#[test]
fn reads_in_memory_fail_by_number_length_and_name(rt: HostRuntime) -> Result<(), AllocError> {
    let alloc = rt.alloc();
    let given: [(&str, &[u8]); 1] = [("a", b"abc")];
    let files = files_of(alloc, &given)?;
    let mut shelf = MemShelf::new(alloc, files, vec![in alloc; 2]?, Vec::new(alloc));
    assert!(rt; gives(alloc, &mut shelf, "a", 3, b"abc"));
    assert!(rt; refuses(alloc, &mut shelf, "a", 3, ShelfFault::Failed));
    assert!(rt; refuses(alloc, &mut shelf, "a", 2, ShelfFault::Long { limit: 2 }));
    assert!(rt; refuses(alloc, &mut shelf, "b", 3, ShelfFault::Failed));
    Ok(())
}

/// The second text is lost.
fn appends(rt: &impl Abort, sink: &mut MemSink) {
    assert!(rt; sink.bytes() == b"".as_slice());
    assert!(rt; sink.put(b"ab").is_ok());
    assert!(rt; sink.put(b"lost") == Err(SinkFault::Failed));
    assert!(rt; sink.put(b"cd").is_ok());
    assert!(rt; sink.bytes() == b"abcd".as_slice());
}

#[test]
fn text_in_memory_is_appended(rt: HostRuntime) -> Result<(), AllocError> {
    let alloc = rt.alloc();
    let mut sink = MemSink::new(alloc, vec![in alloc; 2]?);
    appends(&rt, &mut sink);
    Ok(())
}

#[test]
fn files_of_the_system_are_written_and_read(rt: HostRuntime) -> Result<(), Fail> {
    let alloc = rt.alloc();
    let name = "bench_shelf_test_file";
    let mut shelf = FileShelf::new(&rt);
    assert!(rt; shelf.write(name, b"longer than what follows").is_ok());
    assert!(rt; shelf.write(name, b"bytes").is_ok());
    assert!(rt; gives(alloc, &mut shelf, name, 5, b"bytes"));
    assert!(rt; refuses(alloc, &mut shelf, name, 4, ShelfFault::Long { limit: 4 }));
    fs::remove_file(&rt, name)?;
    assert!(rt; refuses(alloc, &mut shelf, name, 5, ShelfFault::Failed));
    assert!(rt; shelf.write("", b"bytes") == Err(ShelfFault::Failed));
    Ok(())
}

/// A writer that takes three bytes at a time, and none once it is full.
#[derive(Drop)]
struct Narrow {
    taken: Vec<u8>,
    room: usize,
    full: Option<ErrorKind>,
    flushes: usize,
    flush_fails: bool,
}

impl Narrow {
    fn new(alloc: Global, room: usize, full: Option<ErrorKind>) -> Narrow {
        Narrow {
            taken: Vec::new(alloc),
            room,
            full,
            flushes: 0,
            flush_fails: false,
        }
    }
}

impl Write for Narrow {
    fn write(&mut self, buf: &[u8]) -> io::Result<usize> {
        let count = buf.len().min(3).min(self.room);
        if count == 0 {
            if let Some(kind) = self.full {
                return Err(io::Error::from(kind));
            }
        }
        self.taken.extend_from_slice(&buf[..count])?;
        self.room -= count;
        Ok(count)
    }

    fn flush(&mut self) -> io::Result<()> {
        self.flushes = self.flushes.saturating_add(1);
        if self.flush_fails {
            return Err(io::Error::from(ErrorKind::Other));
        }
        Ok(())
    }
}

fn puts_two_lines(rt: &impl Abort, narrow: &mut Narrow) {
    let mut sink = OutSink::new(narrow);
    assert!(rt; sink.put(b"a line\n").is_ok());
    assert!(rt; sink.put(b"another\n").is_ok());
}

#[test]
fn a_writer_takes_the_text_in_pieces(rt: HostRuntime) {
    let mut narrow = Narrow::new(rt.alloc(), 20, None);
    puts_two_lines(&rt, &mut narrow);
    assert!(rt; narrow.taken.as_slice() == b"a line\nanother\n".as_slice());
    assert!(rt; narrow.flushes == 2);
    narrow.flush_fails = true;
    assert!(rt; OutSink::new(&mut narrow).put(b"\n") == Err(SinkFault::Failed));
}

/// There is room for five bytes.
fn puts_until_full(rt: &impl Abort, narrow: &mut Narrow) {
    let mut sink = OutSink::new(narrow);
    assert!(rt; sink.put(b"ab").is_ok());
    assert!(rt; sink.put(b"cdefg") == Err(SinkFault::Failed));
    assert!(rt; sink.put(b"h") == Err(SinkFault::Failed));
    assert!(rt; sink.put(b"").is_ok());
}

#[test]
fn a_writer_that_stops_in_mid_stream_is_a_fault(rt: HostRuntime) {
    for full in [None, Some(ErrorKind::BrokenPipe)] {
        let mut narrow = Narrow::new(rt.alloc(), 5, full);
        puts_until_full(&rt, &mut narrow);
        assert!(rt; narrow.taken.as_slice() == b"abcde".as_slice());
        assert!(rt; narrow.flushes == 2);
    }
}

#[test]
fn faults_are_shown(rt: HostRuntime) -> Result<(), Fail> {
    let alloc = rt.alloc();
    assert!(rt;
        format!(in alloc; "{}", ShelfFault::Long { limit: 16 })?.as_str()
            == "the file has more than 16 bytes"
    );
    assert!(rt; format!(in alloc; "{}", SinkFault::Memory)?.as_str() == "out of memory");
    assert!(rt; SinkFault::from(AllocError) == SinkFault::Memory);
    Ok(())
}
