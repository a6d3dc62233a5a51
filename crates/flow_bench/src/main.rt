//! Solves nets of the DIMACS form for minimum-cost flow problems, from the files that the arguments
//! name, checks each answer, and prints what it costs. The times go to the standard error.
#![tactic(auto)]

use anyhow::{Context, Result, bail};
use flow_net::solve;
use flow_problem::{checked_cost, is_solvable, read};
use std::fs::Files;
use std::io::Eprint;
use std::rt::Clock;
use std::time::Instant;
use std::{env, fs};

fn main(rt: HostRuntime) -> Result<()> {
    let mut paths = env::args(&rt)?;
    let first = paths.nth(1).context("no file is named")?;
    bench(&rt, first)?;
    for path in paths {
        bench(&rt, path)?;
    }
    Ok(())
}

/// Solves the net of a file, and prints what it costs, or that it is blocked.
fn bench<R: Files + Clock + Print + Eprint + AllocGlobal>(rt: &R, path: String) -> Result<()> {
    let alloc = rt.alloc();
    let problem = read(alloc, &fs::read_to_string(rt, path)?)?;
    let start = problem.start(alloc)?;
    if !is_solvable(&problem, start.as_slice()) {
        bail!("the net is not within the limits");
    }
    let begun = Instant::now(rt)?;
    let solved = solve(
        alloc,
        &problem.net,
        problem.source,
        problem.sink,
        problem.amount,
        &start,
    )?;
    let took = begun.elapsed(rt)?.as_millis();
    eprintln!(rt; "{took} ms")?;
    match checked_cost(alloc, &problem, &solved)? {
        Some(cost) => println!(rt; "cost {cost}")?,
        None => println!(rt; "blocked")?,
    }
    Ok(())
}
