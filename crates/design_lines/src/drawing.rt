//! Drawing a network.

ghost use Rattle.std.specs.Prelude.{◌≡◌, ◌+◌, ◌<◌, ◌^◌, ◌++◌, length, All, IfOk, OnOk};
ghost use Rattle.networks.specs.Lines.{own_branches};
ghost use Rattle.design_lines.specs.Drawn.{all_branches, course_branches, course_lines, courses_lines, made_branches};
ghost use Rattle.design_lines.specs.Led.{AreStages};

use crate::branches::{own_branches, push_branches};
use crate::stage::{Share, push_stage};
use networks::{Line, Network};
use std::alloc::{AllocError, Global};
use stream_case::{Case, Items};

/// The stages that a stream is led through, from its supply to its target. Each has a share or
/// more.
pub type Course = Items<Items<Share>>;

/// Appends the lines of the course of a stream, and its end. New branches are numbered from
/// `next` on; the answer is the number behind the last one.
fn push_course(
    lines: &mut Vec<Line>,
    next: u32,
    stream: u32,
    course: &[Items<Share>],
) -> Result<u32, AllocError>
    requires stages { AreStages course.now }
    requires fits { next + course_branches course.now + 3 < 2 ^ 32 }
    ensures lines { OnOk result (lines.new.items ≡ lines.old.items
        ++ course_lines next stream course.now) }
    ensures free { IfOk result (λ free. free ≡ next + course_branches course.now) }
{
    let mut free = next;
    let mut at = stream;
    for shares in course {
        at = push_stage(lines, free, at, shares.as_slice())?;
        free = at + 1;
    }
    lines.push(Line::End { branch: at })?;
    Ok(free)
}

/// Draws a network: behind the lines that declare its exchangers, each stream is led through its
/// course. The branches that it makes are numbered in the order of the lines.
pub fn draw(
    alloc: Global,
    case: &Case,
    declarations: Vec<Line>,
    courses: &[Course],
) -> Result<Network, AllocError>
    requires stages { All AreStages courses.now }
    requires all { length courses.now ≡ length case.now.streams }
    requires fits { length case.now.streams + all_branches courses.now + 3 < 2 ^ 32 }
    ensures branches { IfOk result (λ network. network.branches ≡ own_branches case.now
        ++ made_branches 0 0 courses.now) }
    ensures lines { IfOk result (λ network. network.lines ≡ declarations.items
        ++ courses_lines (length case.now.streams) 0 courses.now) }
{
    let own = case.streams.len() as u32;
    let mut lines = declarations;
    let mut branches = own_branches(alloc, case)?;
    for (number, course) in courses.iter().enumerate() {
        let next = branches.len() as u32;
        let stream = number as u32;
        let free = push_course(&mut lines, next, stream, course.as_slice())?;
        push_branches(alloc, &mut branches, next - own, stream, free - next)?;
    }
    Ok(Network {
        branches: Items::from_vec(branches),
        lines: Items::from_vec(lines),
    })
}
