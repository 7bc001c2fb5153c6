//! What a call is given in tests, its words and files in memory, and what it answers.

use crate::top::bench;
use bench_parts::NamedPart;
use bench_shelf::{MemShelf, MemSink};
use std::alloc::{AllocError, Global};
use std::thread::Threads;

/// The words that blanks separate in a text.
pub fn words_of(alloc: Global, text: &str) -> Result<Vec<String>, AllocError> {
    let mut words = Vec::new(alloc);
    for word in text.split(' ') {
        words.push(String::from_str(alloc, word)?)?;
    }
    Ok(words)
}

/// One file more, by its name and bytes.
pub fn add_file(
    alloc: Global,
    files: &mut Vec<(String, Vec<u8>)>,
    name: &str,
    bytes: &[u8],
) -> Result<(), AllocError> {
    let name = String::from_str(alloc, name)?;
    let bytes = Vec::from_slice(alloc, bytes)?;
    files.push((name, bytes))?;
    Ok(())
}

/// Files, by their names and bytes.
pub fn files_of(
    alloc: Global,
    files: &[(&str, &[u8])],
) -> Result<Vec<(String, Vec<u8>)>, AllocError> {
    let mut made = Vec::new(alloc);
    for (name, bytes) in files {
        add_file(alloc, &mut made, name, bytes)?;
    }
    Ok(made)
}

/// A shelf of files, by their names and bytes. The read and the write of these numbers fail, 0 for none.
pub fn shelf_of(
    alloc: Global,
    files: &[(&str, &[u8])],
    failing_read: u64,
    failing_write: u64,
) -> Result<MemShelf, AllocError> {
    let files = files_of(alloc, files)?;
    let reads = vec![in alloc; failing_read]?;
    let writes = vec![in alloc; failing_write]?;
    Ok(MemShelf::new(alloc, files, reads, writes))
}

/// An empty sink. The text of this number fails, 0 for none.
pub fn sink_of(alloc: Global, failing_put: u64) -> Result<MemSink, AllocError> {
    Ok(MemSink::new(alloc, vec![in alloc; failing_put]?))
}

/// The status of a call with these parts.
fn call<R: Threads + Sync>(
    rt: &R,
    alloc: Global,
    words: &Vec<String>,
    shelf: &mut MemShelf,
    out: &mut MemSink,
    parts: Vec<NamedPart>,
) -> u8 {
    bench(rt, alloc, words, shelf, out, parts)
}

/// Whether a call with these parts answers with this status and text.
fn tells<R: Threads + Sync>(
    rt: &R,
    alloc: Global,
    words: &Vec<String>,
    shelf: &mut MemShelf,
    out: &mut MemSink,
    parts: Vec<NamedPart>,
    status: u8,
    text: &str,
) -> bool {
    let answer = call(rt, alloc, words, shelf, out, parts);
    answer == status && out.bytes() == text.as_bytes()
}

/// Whether a call with these parts answers with this status and text. The text of the number `failing_put` fails, 0 for none.
pub fn answers_with<R: Threads + Sync>(
    rt: &R,
    alloc: Global,
    words: &str,
    shelf: &mut MemShelf,
    parts: Vec<NamedPart>,
    failing_put: u64,
    status: u8,
    text: &str,
) -> Result<bool, AllocError> {
    let words = words_of(alloc, words)?;
    let mut out = sink_of(alloc, failing_put)?;
    Ok(tells(rt, alloc, &words, shelf, &mut out, parts, status, text))
}

/// Whether a call without parts answers with this status and text. The text of the number `failing_put` fails, 0 for none.
pub fn answers<R: Threads + Sync>(
    rt: &R,
    alloc: Global,
    words: &str,
    shelf: &mut MemShelf,
    failing_put: u64,
    status: u8,
    text: &str,
) -> Result<bool, AllocError> {
    answers_with(
        rt,
        alloc,
        words,
        shelf,
        Vec::new(alloc),
        failing_put,
        status,
        text,
    )
}

/// Whether a call without words and files answers with this status and text.
pub fn answers_no_words<R: Threads + Sync>(rt: &R, alloc: Global, status: u8, text: &str) -> bool {
    let mut shelf = MemShelf::new(alloc, Vec::new(alloc), Vec::new(alloc), Vec::new(alloc));
    let mut out = MemSink::new(alloc, Vec::new(alloc));
    let words = Vec::new(alloc);
    let parts = Vec::new(alloc);
    tells(rt, alloc, &words, &mut shelf, &mut out, parts, status, text)
}
