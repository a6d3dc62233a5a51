//! A net with the amount to route, read from text.
ghost use Rattle.std.specs.Prelude.{◌≡◌, ◌<◌, pos, ◌≤ℤ◌, ◌<ℤ◌, map, IfOk, OnOk};
ghost use Rattle.std.specs.List.{range_with_len};
ghost use Rattle.flow_problem.specs.Certificate.{start_at};

use anyhow::{Context, Result};
use flow_net::{Link, Net};
use std::alloc::{AllocError, Global};
use std::str::SplitWhitespace;
use stream_case::Items;

/// An amount to route through a net.
#[derive(Drop)]
pub struct Problem {
    pub net: Net,
    pub source: u32,
    pub sink: u32,
    pub amount: i64,
}

impl Problem {
    /// The start numbers of the nets of heat flows: 10^6 at the source and the last node but one,
    /// -10^6 at the sink and the last node, and 0 elsewhere.
    pub fn start(&self, alloc: Global) -> Result<Items<i64>, AllocError>
        ensures { IfOk result (λ start. start
            ≡ map (start_at self.now) (range_with_len 0 self.now.net.nodes)) }
    {
        let mut start = Items::new(alloc);
        for node in 0..self.net.nodes {
            start.push(self.start_at(node))?;
        }
        Ok(start)
    }

    fn start_at(&self, node: u32) -> i64
        requires { node < self.now.net.nodes }
        ensures { result ≡ start_at self.now node }
    {
        let left = self.net.nodes - node;
        if node == self.source || left == 2 {
            1_000_000
        } else if node == self.sink || left == 1 {
            -1_000_000
        } else {
            0
        }
    }
}

/// Reads lines `p min NODES LINKS`, `n NODE SUPPLY` for source and sink, and `a FROM TO LOW ROOM COST`,
/// where nodes count from 1. LOW is taken as 0. Other lines are comments.
pub fn read(alloc: Global, text: &str) -> Result<Problem>
    ensures amount { IfOk result (λ problem. pos 0 ≤ℤ problem.amount) }
{
    let mut problem = Problem {
        net: Net {
            nodes: 0,
            links: Items::new(alloc),
        },
        source: 0,
        sink: 0,
        amount: 0,
    };
    for line in text.lines() {
        add_line(&mut problem, line)?;
    }
    Ok(problem)
}

fn add_line(problem: &mut Problem, line: &str) -> Result<()>
    requires amount { pos 0 ≤ℤ problem.old.amount }
    ensures amount { OnOk result (pos 0 ≤ℤ problem.new.amount) }
{
    let mut words = line.split_whitespace();
    match words.next() {
        Some("p") => {
            words.next();
            problem.net.nodes = u32::try_from(number(&mut words)?)?;
        }
        Some("n") => {
            let node = node(&mut words)?;
            set_supply(problem, node, number(&mut words)?);
        }
        Some("a") => problem.net.links.push(link(&mut words)?)?,
        _ => {}
    }
    Ok(())
}

/// A node that supplies something is the source, any other one the sink.
fn set_supply(problem: &mut Problem, node: u32, supply: i64)
    ensures source { pos 0 <ℤ supply
        → problem.new ≡ record problem.old { source = node; amount = supply } }
    ensures sink { supply ≤ℤ pos 0 → problem.new ≡ record problem.old { sink = node } }
{
    if supply > 0 {
        problem.source = node;
        problem.amount = supply;
    } else {
        problem.sink = node;
    }
}

fn link(words: &mut SplitWhitespace) -> Result<Link> {
    let from = node(words)?;
    let to = node(words)?;
    number(words)?;
    Ok(Link {
        from,
        to,
        room: number(words)?,
        cost: number(words)?,
    })
}

fn node(words: &mut SplitWhitespace) -> Result<u32> {
    let number = u32::try_from(number(words)?)?;
    number.checked_sub(1).context("nodes count from 1")
}

fn number(words: &mut SplitWhitespace) -> Result<i64> {
    let word = words.next().context("a number is missing")?;
    Ok(word.parse::<i64>()?)
}
