//! Makes documents from a seed, reads each through the public calls of the crates, and prints what
//! came of it: how many numbers, refusals and bytes, and a digest of all results.
#![tactic(auto, unfolding(digits::proofs::Literals::lexical_on_literals))]

mod awkward;
mod components;
mod document;
mod page;
mod random;
mod sources;
mod table;
mod tally;
mod work;

use awkward::Awkward;
use components::Components;
use digits::{STANDARD, parse_number};
use document::Document;
use sources::Sources;
use std::alloc::{AllocError, Global};
use std::process::ExitCode;
use std::{env, io};
use table::Table;
use tally::Tally;

/// What the program prints on words that it does not know.
const USAGE: &str = "usage: digit_jobs document|table|sources|components|awkward|all COUNT SEED";

/// A kind of documents, with its reader.
#[derive(Clone, Copy, Debug, PartialEq, Eq)]
enum Job {
    Document,
    Table,
    Sources,
    Components,
    Awkward,
}

/// All jobs, in the order in which `all` runs them.
const JOBS: [Job; 5] = [
    Job::Document,
    Job::Table,
    Job::Sources,
    Job::Components,
    Job::Awkward,
];

impl Job {
    /// The word for a job.
    fn name(self) -> &'static str {
        match self {
            Job::Document => "document",
            Job::Table => "table",
            Job::Sources => "sources",
            Job::Components => "components",
            Job::Awkward => "awkward",
        }
    }

    /// Runs the job on as many documents.
    fn run(self, alloc: Global, count: u64, seed: u64) -> Result<Tally, AllocError> {
        match self {
            Job::Document => work::run::<Document>(alloc, count, seed),
            Job::Table => work::run::<Table>(alloc, count, seed),
            Job::Sources => work::run::<Sources>(alloc, count, seed),
            Job::Components => work::run::<Components>(alloc, count, seed),
            Job::Awkward => work::run::<Awkward>(alloc, count, seed),
        }
    }
}

/// What the words of a run ask for.
#[derive(Drop)]
struct Order<'a> {
    job: &'a str,
    count: u64,
    seed: u64,
}

/// The order that the words after the program's name say.
fn read_order(words: &[String]) -> Option<Order<'_>> {
    let [_, job, count, seed] = words else {
        return None;
    };
    let count = parse_number::<u32>(count.as_bytes(), STANDARD).ok()?;
    let seed = parse_number::<u32>(seed.as_bytes(), STANDARD).ok()?;
    Some(Order {
        job: job.as_str(),
        count: u64::from(count),
        seed: u64::from(seed),
    })
}

/// Runs each job that an order names, and prints a line for each. Answers how many there were.
fn run_jobs(rt: &HostRuntime, order: &Order<'_>) -> io::Result<usize> {
    let mut jobs = 0;
    for job in JOBS {
        if order.job == "all" || order.job == job.name() {
            let tally = job.run(rt.alloc(), order.count, order.seed)?;
            println!(rt; "{} {tally}", job.name())?;
            jobs = 1;
        }
    }
    Ok(jobs)
}

fn main(rt: HostRuntime) -> io::Result<ExitCode> {
    let words: Vec<String> = env::args(&rt)?.collect(rt.alloc())?;
    if let Some(order) = read_order(&words) {
        if run_jobs(&rt, &order)? > 0 {
            return Ok(ExitCode::SUCCESS);
        }
    }
    println!(rt; "{USAGE}")?;
    Ok(ExitCode::from(2))
}
