//! The top call.
ghost use Rattle.std.specs.Prelude.{◌≡◌, ◌≢◌, ◌⊎◌, ℕ, IsTrue, List, None, Some, map, string_bytes};
ghost use Rattle.bench_job.specs.Plans.{plan_of, usage_refusal};
ghost use Rattle.bench_job.specs.Statuses.{IsOut, IsRefusedCommands, IsRefusedImage, IsStatus};
ghost use Rattle.bench_plan.specs.Answers.{refused};
ghost use Rattle.bench_plan.specs.Calls.{Tells, call_of};
ghost use Rattle.bench_plan.specs.Keeps.{IsTold, Keeps};
ghost use Rattle.bench_words.specs.Jobs.{Demo, demos, job_of};
ghost use Rattle.chip_base.specs.Settings.{values_of};
ghost use Rattle.chip_base.specs.declared.boot.Boot.TheVariants.{Monitor};
ghost use Rattle.chip_base.specs.declared.script.Script.{Script};
ghost use Rattle.chip_base.specs.declared.setup.Setup.{Setup};
ghost use Rattle.chip_gate.specs.Gated.{IsGatedAfter};
ghost use Rattle.chip_whole.specs.Chip.{Board, start};
ghost use Rattle.soc_words.specs.Causes.{Rose};

use bench_job::perform;
use bench_parts::NamedPart;
use bench_shelf::{Shelf, Sink};
use std::alloc::Global;
use std::thread::Threads;

/// Does what the words after the program's name ask for, and gives the status.
///
/// - The words `run IMAGE CYCLES` run a chip from power-on for CYCLES cycles (0 to 4,294,967,295) and write a report to the sink. Core 0
///   begins in the mode of `--boot`: `raw` puts the bytes of the file IMAGE into IMEM, `direct` the payload of the image that the file
///   must be, and `monitor`, the mode without `--boot`, begins the boot monitor; the file is then what the script's `image` step sends.
///   With `--chip FILE` the chip has the settings of that file, else the standard ones; with `--script FILE` that script gives what
///   comes from outside, else nothing comes. `--groups GROUPS` says which lanes may run together, and changes no report. No thread is
///   started. `--part NAME` attaches the first of the parts that has this name to the stream link; without it the link has none. With
///   `--trace COUNT` (at most 1,000) the report tells the last COUNT issues of the harts, or all where there are fewer.
/// - The words `debug IMAGE CYCLES COMMANDS`, with the same options but `--trace`, do what the lines of the file COMMANDS say on the same
///   chip, which then runs for at most CYCLES cycles, and write the session's lines to the sink in place of a report. The lines of COMMANDS
///   are those that `read_commands` of command_text takes.
/// - The words `demo NUMBER` upload an image that is made from NUMBER (0 to 4,294,967,295) through the boot monitor, run it, and write
///   what came of it. `--groups GROUPS` is as above. No file is read, and the status is 0, 7 or 9.
/// - The words `image PAYLOAD OUT` make the image of the bytes of the file PAYLOAD, with zero bytes up to a multiple of four, in the
///   file OUT, and write the line `image LENGTH CHECKSUM`: the length of the payload with those zero bytes, in decimal digits, and the
///   checksum word, in eight hexadecimal digits.
/// - The words `check IMAGE` write the same line of an image.
///
/// A part is taken as it behaves from its state at the call on. A NAME that no part has gives no job. The parts that aren't attached are
/// dropped before the run.
///
/// A payload has room where it is at most as long as the IMEM that `--chip FILE` gives, or 1,048,576 bytes without it. The chip file is
/// read and judged first, then the image or the payload, then the script, then the file of commands; the first refusal ends the call.
/// The status is
/// - 0 where the whole text was written,
/// - 2 where the words give no job, after the line `error usage`,
/// - 3 where a file isn't there or reading it failed, after `error read NAME`, or where it is longer than its limit (the chip file
///   and the file of commands 65,536 bytes, the image or the payload 2,097,152, the script 1,048,576), after `error long NAME`,
/// - 4 where the image is refused, after `error image` and what is wrong: `size N` of a file of N bytes under `--boot raw`, more than
///   IMEM has, and of a payload of N bytes, zero or more than there is room for; of an image, under `--boot direct` and in `check`,
///   `short N` where there are only N bytes, `signature W` with the first word, `size N` with the length that it tells, `checksum W`
///   with the sum that isn't zero, or `extra N` where there are N bytes and they should be fewer,
/// - 5 where a line of the script is faulty, after `error script line N KIND` with the first such line, counted from 1, and
///   what is wrong in it: `word`, `number`, `order`, `hex`, `pin` or `text`,
/// - 6 where the chip file is faulty, after `error chip toml`, `error chip key` or `error chip range KEY`,
/// - 7 where the sink failed in the text, or OUT couldn't be written,
/// - 9 where memory was wanted,
/// - 10 where a line of the file of commands is faulty, after `error debug line N` with the first such line, counted from 1.
pub fn bench<R: Threads + Sync, S: Shelf, O: Sink>(
    rt: &R,
    alloc: Global,
    words: &Vec<String>,
    shelf: &mut S,
    out: &mut O,
    parts: Vec<NamedPart>,
) -> u8
    // the answer to what the words ask for, over any shelf and sink
    ensures keeps { let handed = map (λ p. record { name = p.name; behave = behave (p.part.vtable, p.part.value) }) parts.items in
        let job = job_of (map (λ p. p.name) parts.items) (map string_bytes words.now.items) in
        Keeps (plan_of handed job) (call_of S.held O.written O.faults shelf.old shelf.new out.old out.new result) }

    // each status has its cause
    ensures statuses { IsStatus result }
    ensures usage { result ≡ 2 → job_of (map (λ p. p.name) parts.items) (map string_bytes words.now.items) ≡ None }
    ensures no_job { job_of (map (λ p. p.name) parts.items) (map string_bytes words.now.items) ≡ None
        → ((S.held shelf.new).read_faults ≡ (S.held shelf.old).read_faults)
        × Tells (refused usage_refusal) (call_of S.held O.written O.faults shelf.old shelf.new out.old out.new result) }
    ensures refused_image { let job = job_of (map (λ p. p.name) parts.items) (map string_bytes words.now.items) in
        result ≡ 4 → IsRefusedImage job (call_of S.held O.written O.faults shelf.old shelf.new out.old out.new result) }
    ensures refused_commands { let job = job_of (map (λ p. p.name) parts.items) (map string_bytes words.now.items) in
        result ≡ 10 → IsRefusedCommands job (call_of S.held O.written O.faults shelf.old shelf.new out.old out.new result) }
    ensures demo { (demo : Demo) → job_of (map (λ p. p.name) parts.items) (map string_bytes words.now.items) ≡ Some (demos demo)
        → ((S.held shelf.new).read_faults ≡ (S.held shelf.old).read_faults) × ((result ≡ 0) ⊎ ((result ≡ 7) ⊎ (result ≡ 9))) }

    // 7 comes only where the sink failed or the image's file couldn't be written, and where nothing failed the whole answer is told, or
    // want of memory
    ensures write { let job = job_of (map (λ p. p.name) parts.items) (map string_bytes words.now.items) in
        result ≡ 7 → Rose (O.faults out.old) (O.faults out.new) ⊎ ((name : List ℕ) × IsOut job name × Rose (S.held shelf.old).write_faults (S.held shelf.new).write_faults) }
    ensures complete { let handed = map (λ p. record { name = p.name; behave = behave (p.part.vtable, p.part.value) }) parts.items in
        let job = job_of (map (λ p. p.name) parts.items) (map string_bytes words.now.items) in
        IsTrue (S.held shelf.old).discloses → (Rose (S.held shelf.old).read_faults (S.held shelf.new).read_faults → ⊥)
        → ((name : List ℕ) → IsOut job name → Rose (S.held shelf.old).write_faults (S.held shelf.new).write_faults → ⊥)
        → (Rose (O.faults out.old) (O.faults out.new) → ⊥)
        → IsTold (plan_of handed job) (call_of S.held O.written O.faults shelf.old shelf.new out.old out.new result) }

    // only the image's file may have changed, and only after 0, 7 or 9
    ensures writes { ((name : List ℕ) → IsOut (job_of (map (λ p. p.name) parts.items) (map string_bytes words.now.items)) name → ⊥)
        → (S.held shelf.new).write_faults ≡ (S.held shelf.old).write_faults }
    ensures files_stay { (q : List ℕ) → (IsOut (job_of (map (λ p. p.name) parts.items) (map string_bytes words.now.items)) q → ⊥)
        → (S.held shelf.new).file q ≡ (S.held shelf.old).file q }
    ensures refused_stay { result ≢ 0 → result ≢ 7 → result ≢ 9 → (q : List ℕ) → (S.held shelf.new).file q ≡ (S.held shelf.old).file q }

    // under boot by monitor, in each cycle of each run, also after watchdog resets: core 0 leaves the monitor exactly where the command to
    // execute follows an upload, or a load from the flash, whose signature, length and checksum held
    ensures gate { (setup : Setup) (board : Board) (image : List ℕ) (script : Script) (k : ℕ) → IsGatedAfter (values_of setup) board (start (values_of setup) Monitor image script) k }
{
    perform(rt, alloc, words, shelf, out, parts)
}
