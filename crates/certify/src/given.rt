//! What the statements read so far give.

ghost use Rattle.std.specs.Prelude.{◌≡◌, IfOk, OnErr};
ghost use Rattle.certify.specs.Given.{Lengthens, admits, lengthened, with_entry};
ghost use Rattle.certify.specs.declared.given.Given.TheVariants as gave;

use crate::entry::Entry;
use crate::kind::Kind;
use crate::report::Report;
use std::alloc::{AllocError, Global};
use stream_case::Items;

/// A report, as far as it is read.
#[derive(Drop)]
pub enum Given {
    /// No statement is read yet.
    Nothing,
    /// There is to be no heat flow; the cut is not read yet.
    Infeasible,
    /// A report, which more statements may lengthen.
    Whole(Report),
}

impl Given {
    /// Whether a statement of this kind may come next.
    pub fn admits(&self, kind: Kind) -> bool
        ensures { result ≡ admits self.now kind }
    {
        match self {
            Given::Nothing => matches!(kind, Kind::Cost | Kind::Infeasible),
            Given::Infeasible => matches!(kind, Kind::Cut),
            Given::Whole(Report::Cut { .. }) => matches!(kind, Kind::Part),
            Given::Whole(
                Report::Flow {
                    moves,
                    gives,
                    takes,
                    ..
                },
            ) => match kind {
                Kind::Use => moves.is_empty() && gives.is_empty() && takes.is_empty(),
                Kind::Move => gives.is_empty() && takes.is_empty(),
                Kind::Give => takes.is_empty(),
                Kind::Take => true,
                Kind::Cost | Kind::Infeasible | Kind::Cut | Kind::Part => false,
            },
        }
    }

    /// The same with one statement more. What may not come next changes nothing, and takes no
    /// memory.
    pub fn with(self, alloc: Global, entry: Entry) -> Result<Given, AllocError>
        ensures with { IfOk result (λ given. given ≡ with_entry self entry) }
        ensures memory { OnErr result (Lengthens self entry) }
    {
        match self {
            Given::Nothing => Ok(opened(alloc, entry)),
            Given::Infeasible => Ok(opened_cut(alloc, entry)),
            Given::Whole(report) => Ok(Given::Whole(lengthened(report, entry)?)),
        }
    }
}

/// What the first statement gives.
fn opened(alloc: Global, entry: Entry) -> Given
    ensures { result ≡ with_entry gave.Nothing entry }
{
    match entry {
        Entry::Cost(cost) => Given::Whole(Report::Flow {
            cost,
            uses: Items::new(alloc),
            moves: Items::new(alloc),
            gives: Items::new(alloc),
            takes: Items::new(alloc),
        }),
        Entry::Infeasible => Given::Infeasible,
        _ => Given::Nothing,
    }
}

/// What a cut gives behind the word that there is no heat flow.
fn opened_cut(alloc: Global, entry: Entry) -> Given
    ensures { result ≡ with_entry gave.Infeasible entry }
{
    match entry {
        Entry::Cut { kind, need, offer } => Given::Whole(Report::Cut {
            kind,
            need,
            offer,
            parts: Items::new(alloc),
        }),
        _ => Given::Infeasible,
    }
}

/// A report with one statement more.
fn lengthened(mut report: Report, entry: Entry) -> Result<Report, AllocError>
    ensures longer { IfOk result (λ longer. longer ≡ lengthened report entry) }
    ensures memory { OnErr result (Lengthens (gave.Whole report) entry) }
{
    match (&mut report, entry) {
        (Report::Flow { uses, .. }, Entry::Use(used)) => uses.push(used)?,
        (Report::Flow { moves, .. }, Entry::Move(moved)) => moves.push(moved)?,
        (Report::Flow { gives, .. }, Entry::Give(priced)) => gives.push(priced)?,
        (Report::Flow { takes, .. }, Entry::Take(priced)) => takes.push(priced)?,
        (Report::Cut { parts, .. }, Entry::Part(part)) => parts.push(part)?,
        _ => {}
    }
    Ok(report)
}
