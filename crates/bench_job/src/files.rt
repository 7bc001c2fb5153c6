//! The files of a run.
ghost use Rattle.bench_plan.specs.Steps.{Reads, mapped};
ghost use Rattle.bench_words.specs.Jobs.{run_view};
ghost use Rattle.bench_job.specs.Plans.{power_on_reading, power_on_view};

use crate::power_on::PowerOn;
use bench_inputs::{read_image, read_script_file, read_settings};
use bench_plan::Stop;
use bench_shelf::Shelf;
use bench_words::RunJob;
use std::alloc::Global;

/// Reads what a chip begins with from the files of a run, in their order.
#[tactic(auto, using(crate::proofs::Fitting::fitting))]
pub fn read_power_on<S: Shelf>(
    alloc: Global,
    job: &RunJob<'_>,
    shelf: &mut S,
) -> Result<PowerOn, Stop>
    ensures { Reads S.held shelf.old shelf.new (power_on_reading (run_view job.now)) (mapped power_on_view result) }
{
    let setup = read_settings(alloc, job.chip, shelf)?;
    let image = read_image(alloc, job.boot, setup.imem, job.image, shelf)?;
    let script = read_script_file(alloc, job.script, shelf)?;
    Ok(PowerOn {
        setup,
        boot: job.boot,
        image,
        script,
    })
}
