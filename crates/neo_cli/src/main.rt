//! `neo`, a bench simulator of one small RISC-V system on chip: runs firmware under scripted input, and reports what left the chip.
#![tactic(auto)]

#[cfg(test)]
mod attached;
#[cfg(test)]
mod boots;
#[cfg(test)]
mod debugging;
#[cfg(test)]
mod demos;
#[cfg(test)]
mod given;
#[cfg(test)]
mod images;
#[cfg(test)]
mod orders;
#[cfg(test)]
mod programs;
#[cfg(test)]
mod sessions;
#[cfg(test)]
mod tests;
mod top;
#[cfg(test)]
mod traces;

use crate::top::bench;
use bench_parts::{Counter, Loop, NamedPart, Part, Scramble};
use bench_shelf::{FileShelf, OutSink, Shelf, Sink};
use chip_base::Name;
use std::alloc::{AllocError, Global};
use std::io::ErrorKind;
use std::process::ExitCode;
use std::thread::Threads;
use std::{env, io};

/// The words after the program's name.
fn arguments(rt: &HostRuntime) -> io::Result<Vec<String>> {
    Ok(env::args(rt)?.skip(1).collect(rt.alloc())?)
}

/// Hands in one part more, where the text is a name.
fn hand_in(
    parts: &mut Vec<NamedPart>,
    name: &str,
    part: Box<dyn Part + Send>,
) -> Result<(), AllocError> {
    if let Some(name) = Name::new(name) {
        parts.push(NamedPart { name, part })?;
    }
    Ok(())
}

/// Does what the words ask for, with the three parts of the bench at hand, and gives the status.
fn bench_with_parts<R: Threads + Sync, S: Shelf, O: Sink>(
    rt: &R,
    alloc: Global,
    words: &Vec<String>,
    shelf: &mut S,
    out: &mut O,
) -> Result<u8, AllocError> {
    let mut parts = Vec::new(alloc);
    hand_in(&mut parts, "loop", Box::new(alloc, Loop::new())?)?;
    hand_in(&mut parts, "counter", Box::new(alloc, Counter::new())?)?;
    hand_in(&mut parts, "scramble", Box::new(alloc, Scramble::new())?)?;
    Ok(bench(rt, alloc, words, shelf, out, parts))
}

fn main(rt: HostRuntime) -> ExitCode {
    let words = match arguments(&rt) {
        Ok(words) => words,
        Err(error) => {
            if error.kind() == ErrorKind::OutOfMemory {
                return ExitCode::from(9);
            }
            // words that aren't UTF-8 give no job, like no words
            Vec::new(rt.alloc())
        }
    };
    let mut shelf = FileShelf::new(&rt);
    let mut out = OutSink::new(io::writer(&rt));
    match bench_with_parts(&rt, rt.alloc(), &words, &mut shelf, &mut out) {
        Ok(status) => ExitCode::from(status),
        Err(AllocError) => ExitCode::from(9),
    }
}
