//! Reading one file of a job.
ghost use Rattle.std.specs.Prelude.{◌≡◌, ◌++◌, ◌∷◌, [], ◌≤◌, codes, map, string_bytes, OnOk, IfOk, length};
ghost use Rattle.soc_words.specs.Text.{line};
ghost use Rattle.bench_plan.specs.Answers.{long_text, unread_text};
ghost use Rattle.bench_plan.specs.Each.{asking_each, each_items};
ghost use Rattle.bench_plan.specs.Readings.{asking};
ghost use Rattle.bench_plan.specs.Steps.{IsRefusal, Reads, mapped};

use crate::stop::{Refusal, Stop};
use bench_shelf::{Shelf, ShelfFault};
use std::alloc::{AllocError, Global};

/// The refusal of a file of this name.
fn missed(alloc: Global, kind: &str, name: &str) -> Stop
    ensures { IsRefusal (record { status = 3; text = line (codes "error " ++ kind.now ++ codes " " ++ name.now) }) result }
{
    let Ok(line) = format!(in alloc; "error {kind} {name}\n") else {
        return Stop::Memory;
    };
    Stop::Refused(Refusal::new(3, line.into_bytes()))
}

/// The refusal of a file that isn't there or that wasn't read.
#[tactic(auto, unfolding(crate::specs::Answers::unread_text))]
fn unread(alloc: Global, name: &str) -> Stop
    ensures { IsRefusal (record { status = 3; text = unread_text name.now }) result }
{
    missed(alloc, "read", name)
}

/// The refusal of a file that is too long.
#[tactic(auto, unfolding(crate::specs::Answers::long_text))]
fn long(alloc: Global, name: &str) -> Stop
    ensures { IsRefusal (record { status = 3; text = long_text name.now }) result }
{
    missed(alloc, "long", name)
}

/// The bytes of a file of at most `limit` bytes.
pub fn fetch<S: Shelf>(
    alloc: Global,
    name: &str,
    limit: u32,
    shelf: &mut S,
) -> Result<Vec<u8>, Stop>
    ensures reads { Reads S.held shelf.old shelf.new (asking name.now limit) (mapped (λ v. v.items) result) }
    ensures short { IfOk result (λ v. length v.items ≤ limit) }
{
    match shelf.read(alloc, name, limit) {
        Ok(bytes) => Ok(bytes),
        Err(ShelfFault::Failed) => Err(unread(alloc, name)),
        Err(ShelfFault::Long { .. }) => Err(long(alloc, name)),
        Err(ShelfFault::Memory) => Err(Stop::Memory),
    }
}

/// Appends the bytes of one more file.
fn add(files: &mut Vec<Vec<u8>>, bytes: Vec<u8>) -> Result<(), AllocError>
    ensures { OnOk result (files.new.items ≡ files.old.items ++ bytes ∷ []) }
{
    match files.push(bytes) {
        Ok(()) => Ok(()),
        Err(full) => Err(AllocError::from(full)),
    }
}

/// The bytes of each file of these names, in their order, each of at most `limit` bytes.
pub fn fetch_each<S: Shelf>(
    alloc: Global,
    names: &[String],
    limit: u32,
    shelf: &mut S,
) -> Result<Vec<Vec<u8>>, Stop>
    ensures { Reads S.held shelf.old shelf.new (asking_each limit (map string_bytes names.now)) (mapped each_items result) }
{
    let mut files = Vec::new(alloc);
    for name in names {
        let bytes = fetch(alloc, name, limit, shelf)?;
        add(&mut files, bytes)?;
    }
    Ok(files)
}
