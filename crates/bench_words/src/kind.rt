//! The kinds of commands.
ghost use Rattle.std.specs.Prelude.{◌≡◌, IfOk, map, option_map, string_bytes};
ghost use Rattle.clap.specs.Words.{app_of, found_of, rows_of};
ghost use Rattle.bench_words.specs.Apps.{rows_taken};
ghost use Rattle.bench_words.specs.Kinds.{app_of_kind, kind_named};

use crate::command::{
    check_command, debug_command, demo_command, image_command, matches_of_words, run_command,
};
use chip_base::NoMemory;
use clap::{ArgMatches, Command};
use std::alloc::{AllocError, Global};

/// What a command is for.
#[derive(Clone, Copy)]
pub(crate) enum JobKind {
    Run,
    Debug,
    Demo,
    Image,
    Check,
}

/// The kind of the command of this name.
pub(crate) fn kind_named(name: &str) -> Option<JobKind>
    ensures { result ≡ kind_named name.now }
{
    match name {
        "run" => Some(JobKind::Run),
        "image" => Some(JobKind::Image),
        "check" => Some(JobKind::Check),
        "debug" => Some(JobKind::Debug),
        "demo" => Some(JobKind::Demo),
        _ => None,
    }
}

/// The command of a kind.
fn command_of_kind<'a>(alloc: Global, kind: JobKind) -> Result<Command<'a>, AllocError>
    ensures { IfOk result (λ c. app_of c ≡ app_of_kind kind) }
{
    match kind {
        JobKind::Run => run_command(alloc),
        JobKind::Debug => debug_command(alloc),
        JobKind::Demo => demo_command(alloc),
        JobKind::Image => image_command(alloc),
        JobKind::Check => check_command(alloc),
    }
}

/// What `clap` finds in the words of the command of a kind, its name among them.
pub(crate) fn matches_of_kind<'a>(
    alloc: Global,
    kind: JobKind,
    words: &'a [String],
) -> Result<Option<ArgMatches<'a>>, NoMemory>
    ensures { IfOk result (λ found. option_map (λ m. rows_of (found_of m)) found ≡ rows_taken (app_of_kind kind) (map string_bytes words.entry.now)) }
{
    match command_of_kind(alloc, kind) {
        Ok(command) => matches_of_words(command, words),
        Err(_) => Err(NoMemory),
    }
}
