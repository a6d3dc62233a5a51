//! The lines of a stage.

ghost use Rattle.std.specs.Prelude.{◌≡◌, ◌+◌, ◌-◌, ◌*◌, ◌<◌, ◌^◌, ◌++◌, length, IfOk, OnOk};
ghost use Rattle.design_lines.specs.Stages.{behind_splits, mixes, passes, rest_branch, share_branches, splits, stage_end, stage_lines};

use fractions::Frac;
use networks::Line;
use std::alloc::AllocError;

/// A share of a stream, and the exchanger that it passes.
#[derive(Clone, Copy, Debug, PartialEq, Eq)]
pub struct Share {
    /// The number of the exchanger, from 0.
    pub exchanger: u32,
    /// The size of its branch: a heat-capacity flow in 10 W/K, or of a latent stream a load in W.
    pub cp: Frac,
}

/// Appends the splits, and answers the branch that is left for the last share.
fn push_splits(
    lines: &mut Vec<Line>,
    next: u32,
    from: u32,
    shares: &[Share],
) -> Result<u32, AllocError>
    requires some { 0 < length shares.now }
    requires fits { next + 4 * length shares.now < 2 ^ 32 }
    ensures lines { OnOk result (lines.new.items
        ≡ lines.old.items ++ splits next from shares.now) }
    ensures rest { IfOk result (λ rest. rest ≡ rest_branch next from shares.now) }
{
    let mut rest = from;
    let mut free = next;
    for index in 0..shares.len() - 1 {
        let second = free + 1;
        lines.push(Line::Split {
            from: rest,
            first: free,
            cp: shares[index].cp,
            second,
        })?;
        rest = second;
        free += 2;
    }
    Ok(rest)
}

/// Appends the passes: the branches of the shares have every second number from `next` on, but for
/// the last one, whose branch is `rest`.
fn push_passes(
    lines: &mut Vec<Line>,
    next: u32,
    rest: u32,
    shares: &[Share],
) -> Result<(), AllocError>
    requires some { 0 < length shares.now }
    requires fits { next + 4 * length shares.now < 2 ^ 32 }
    ensures { OnOk result (lines.new.items ≡ lines.old.items ++ passes
        (behind_splits next shares.now) (share_branches next rest shares.now) shares.now) }
{
    let mut branch = next;
    let mut to = next + 2 * (shares.len() as u32 - 1);
    for (index, share) in shares.iter().enumerate() {
        let from = if index + 1 < shares.len() {
            branch
        } else {
            rest
        };
        lines.push(Line::Pass {
            from,
            exchanger: share.exchanger,
            to,
        })?;
        branch += 2;
        to += 1;
    }
    Ok(())
}

/// Appends `count` mixes: of the branch `behind` with the next one, and of each result with the
/// branch that follows.
fn push_mixes(lines: &mut Vec<Line>, behind: u32, count: u32) -> Result<(), AllocError>
    requires { behind + 2 * count + 1 < 2 ^ 32 }
    ensures { OnOk result (lines.new.items ≡ lines.old.items
        ++ mixes count (behind + count + 1) behind (behind + 1)) }
{
    let mut first = behind;
    for index in 0..count {
        let to = behind + count + 1 + index;
        lines.push(Line::Mix {
            first,
            second: behind + 1 + index,
            to,
        })?;
        first = to;
    }
    Ok(())
}

/// Appends the lines of a stage of one share or more: the branch `from` is divided, its shares
/// pass their exchangers, and are joined again. New branches are numbered from `next` on; the
/// answer is the last one.
pub(crate) fn push_stage(
    lines: &mut Vec<Line>,
    next: u32,
    from: u32,
    shares: &[Share],
) -> Result<u32, AllocError>
    requires some { 0 < length shares.now }
    requires fits { next + 4 * length shares.now < 2 ^ 32 }
    ensures lines { OnOk result (lines.new.items ≡ lines.old.items
        ++ stage_lines next from shares.now) }
    ensures end { IfOk result (λ end. end ≡ stage_end next shares.now) }
{
    let more = shares.len() as u32 - 1;
    let rest = push_splits(lines, next, from, shares)?;
    push_passes(lines, next, rest, shares)?;
    push_mixes(lines, next + 2 * more, more)?;
    Ok(next + 4 * more)
}
