//! The program `program_workloads`: jobs that users wait for, on inputs that are made from a seed.
#![tactic(auto)]

mod awkward;
mod digest;
mod documents;
mod job;
mod languages;
mod load;
mod messages;
mod names;
mod numbers;
mod random;
mod rules;
mod samples;
mod translations;

use anyhow::{Result, bail};
use digest::Digest;
use documents::Documents;
use job::Job;
use plural_commands::arguments::arguments;
use random::Source;

// How the program is used.
const USAGE: &str =
    "usage: program_workloads load|numbers|messages|translations|rules|awkward|all SEED [small]";

// How much of a job is done: all of it, or one round of a hundredth, as a trial.
#[derive(Clone, Copy)]
enum Extent {
    Whole,
    Small,
}

// Runs a job, and prints the digest of all that it gave.
fn run(rt: &HostRuntime, job: Job, seed: u64, extent: Extent, documents: &Documents) -> Result<()> {
    let (rounds, part) = match extent {
        Extent::Whole => (job.rounds(), 0),
        Extent::Small => (1, 100),
    };
    let mut source = Source::new(seed, part);
    let mut digest = Digest::new();
    for _ in 0..rounds {
        job.round(rt.alloc(), &mut source, documents, &mut digest)?;
    }
    let name = job.name();
    let value = digest.value();
    println!(rt; "{name}: {value:016x}")?;
    Ok(())
}

// Runs the jobs of this name.
fn run_named(rt: &HostRuntime, name: &str, seed: u64, extent: Extent) -> Result<()> {
    let documents = Documents::read(rt.alloc(), &mut rt.stdin())?;
    let mut is_known = false;
    for job in Job::ALL {
        if name == "all" || name == job.name() {
            run(rt, job, seed, extent, &documents)?;
            is_known = true;
        }
    }
    if !is_known {
        bail!("{USAGE}");
    }
    Ok(())
}

// Runs the jobs that the words name.
fn run_words(rt: &HostRuntime, words: &[String]) -> Result<()> {
    let [name, seed, rest @ ..] = words else {
        bail!("{USAGE}");
    };
    let Ok(seed) = seed.as_str().parse::<u32>() else {
        bail!("{USAGE}");
    };
    let extent = match rest {
        [] => Extent::Whole,
        [word] if word.as_str() == "small" => Extent::Small,
        _ => bail!("{USAGE}"),
    };
    run_named(rt, name.as_str(), u64::from(seed), extent)
}

fn main(rt: HostRuntime) -> Result<()> {
    let words = match arguments(rt.alloc(), &rt) {
        Ok(words) => words,
        Err(fault) => bail!("{fault}"),
    };
    run_words(&rt, words.as_slice())
}
