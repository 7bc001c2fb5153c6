//! Commands, as `clap` reads their words.
ghost use Rattle.std.specs.Prelude.{◌≡◌, [], IfOk, Some, None, fold, map, option_map, string_bytes, true};
ghost use Rattle.clap.specs.Words.{app_of, found_of, first_of, is_simple_and_free, rows_of};
ghost use Rattle.bench_words.specs.Apps.{bare, check_app, debug_app, demo_app, image_app, rows_taken, run_app, with_option, with_positional};

use chip_base::NoMemory;
use clap::error::ErrorKind;
use clap::{Arg, ArgMatches, Command};
use std::alloc::{AllocError, Global};

/// A command without arguments, help and version flags.
fn bare_command<'a>(alloc: Global, name: &'a str) -> Command<'a>
    ensures { app_of result ≡ bare name.entry.now }
{
    Command::new(alloc, name)
        .disable_help_flag(true)
        .disable_version_flag(true)
}

/// The command with one more positional, which must stand.
fn add_positional<'a>(
    alloc: Global,
    command: Command<'a>,
    id: &'a str,
) -> Result<Command<'a>, AllocError>
    ensures { IfOk result (λ c. app_of c ≡ with_positional (app_of command.entry) id.entry.now) }
{
    command.arg(Arg::new(alloc, id).required(true))
}

/// The command with one more option, which has a value.
fn add_option<'a>(
    alloc: Global,
    command: Command<'a>,
    id: &'a str,
) -> Result<Command<'a>, AllocError>
    ensures { IfOk result (λ c. app_of c ≡ with_option (app_of command.entry) id.entry.now) }
{
    command.arg(Arg::new(alloc, id).long(id))
}

/// The command with these positionals.
fn add_positionals<'a>(
    alloc: Global,
    mut command: Command<'a>,
    ids: &[&'a str],
) -> Result<Command<'a>, AllocError>
    ensures { IfOk result (λ c. app_of c ≡ fold (λ a s. with_positional a s.now) (app_of command.entry) ids.now) }
{
    for id in ids {
        match add_positional(alloc, command, id) {
            Ok(next) => command = next,
            Err(error) => return Err(error),
        }
    }
    Ok(command)
}

/// The command with these options.
fn add_options<'a>(
    alloc: Global,
    mut command: Command<'a>,
    ids: &[&'a str],
) -> Result<Command<'a>, AllocError>
    ensures { IfOk result (λ c. app_of c ≡ fold (λ a s. with_option a s.now) (app_of command.entry) ids.now) }
{
    for id in ids {
        match add_option(alloc, command, id) {
            Ok(next) => command = next,
            Err(error) => return Err(error),
        }
    }
    Ok(command)
}

/// The command with these positionals and options.
fn command_of<'a>(
    alloc: Global,
    name: &'a str,
    positionals: &[&'a str],
    options: &[&'a str],
) -> Result<Command<'a>, AllocError>
    ensures { IfOk result (λ c. app_of c ≡ fold (λ a s. with_option a s.now) (fold (λ a s. with_positional a s.now) (bare name.entry.now) positionals.now) options.now) }
{
    let command = bare_command(alloc, name);
    match add_positionals(alloc, command, positionals) {
        Ok(command) => add_options(alloc, command, options),
        Err(error) => Err(error),
    }
}

static RUN_POSITIONALS: [&str; 2] = ["IMAGE", "CYCLES"];

static RUN_OPTIONS: [&str; 6] = ["boot", "chip", "script", "groups", "part", "trace"];

/// The command `run`.
pub fn run_command<'a>(alloc: Global) -> Result<Command<'a>, AllocError>
    ensures { IfOk result (λ c. app_of c ≡ run_app) }
{
    command_of(
        alloc,
        "run",
        RUN_POSITIONALS.as_slice(),
        RUN_OPTIONS.as_slice(),
    )
}

static DEBUG_POSITIONALS: [&str; 3] = ["IMAGE", "CYCLES", "COMMANDS"];

static DEBUG_OPTIONS: [&str; 5] = ["boot", "chip", "script", "groups", "part"];

/// The command `debug`.
pub fn debug_command<'a>(alloc: Global) -> Result<Command<'a>, AllocError>
    ensures { IfOk result (λ c. app_of c ≡ debug_app) }
{
    command_of(
        alloc,
        "debug",
        DEBUG_POSITIONALS.as_slice(),
        DEBUG_OPTIONS.as_slice(),
    )
}

static DEMO_POSITIONALS: [&str; 1] = ["NUMBER"];

static DEMO_OPTIONS: [&str; 1] = ["groups"];

/// The command `demo`.
pub fn demo_command<'a>(alloc: Global) -> Result<Command<'a>, AllocError>
    ensures { IfOk result (λ c. app_of c ≡ demo_app) }
{
    command_of(
        alloc,
        "demo",
        DEMO_POSITIONALS.as_slice(),
        DEMO_OPTIONS.as_slice(),
    )
}

static IMAGE_POSITIONALS: [&str; 2] = ["PAYLOAD", "OUT"];

static CHECK_POSITIONALS: [&str; 1] = ["IMAGE"];

/// The options of the commands that make and check images.
static IMAGE_OPTIONS: [&str; 1] = ["chip"];

/// The command `image`.
pub fn image_command<'a>(alloc: Global) -> Result<Command<'a>, AllocError>
    ensures { IfOk result (λ c. app_of c ≡ image_app) }
{
    command_of(
        alloc,
        "image",
        IMAGE_POSITIONALS.as_slice(),
        IMAGE_OPTIONS.as_slice(),
    )
}

/// The command `check`.
pub fn check_command<'a>(alloc: Global) -> Result<Command<'a>, AllocError>
    ensures { IfOk result (λ c. app_of c ≡ check_app) }
{
    command_of(
        alloc,
        "check",
        CHECK_POSITIONALS.as_slice(),
        IMAGE_OPTIONS.as_slice(),
    )
}

/// What `clap` finds in the words, the first of which is the command's name. None exactly where they aren't words of the command.
pub fn matches_of_words<'a>(
    command: Command<'a>,
    words: &'a [String],
) -> Result<Option<ArgMatches<'a>>, NoMemory>
    requires { is_simple_and_free (app_of command) ≡ true }
    ensures { IfOk result (λ found. option_map (λ m. rows_of (found_of m)) found ≡ rows_taken (app_of command.entry) (map string_bytes words.entry.now)) }
{
    match command.try_get_matches_from(words) {
        Ok(matches) => Ok(Some(matches)),
        Err(error) => match error.kind() {
            ErrorKind::OutOfMemory => Err(NoMemory),
            _ => Ok(None),
        },
    }
}

/// The value of an argument, where it has one.
pub fn text_of<'a>(found: &ArgMatches<'a>, id: &str) -> Option<&'a str>
    ensures { option_map (λ s. s.now) result ≡ first_of id.now (rows_of (found_of found.now)) }
{
    found.get_str(id)
}
