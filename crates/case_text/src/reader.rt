//! Reading a case file.

ghost use Rattle.std.specs.Prelude.{◌≡◌, ◌≤◌, Err, length, ⊤, IfErr, IfOk, OnOk};
ghost use Rattle.csv.specs.Records.{fields_of};
ghost use Rattle.rows.specs.Rows.{rows_of};
ghost use Rattle.first_fault.specs.Checks.{Checked};
ghost use Rattle.stream_case.specs.Case.{IsValid};
ghost use Rattle.case_text.specs.Given.{entry_in};
ghost use Rattle.case_text.specs.Checks.{checks};
ghost use Rattle.case_text.specs.Additions.{IsFresh};
ghost use Rattle.case_text.specs.Outcome.{IsOutcome, grammar, keyed_grammar};
ghost use Rattle.first_fault.specs.Outcome.{SoundBefore, given_by};
ghost use Rattle.keyed_index.specs.Key.{keyed_by};

use crate::contribution_row::contribution_entry;
use crate::entry::Entry;
use crate::fault::{CaseFault, CaseWhy};
use crate::forbid_row::forbid_entry;
use crate::given::Given;
use crate::kind::{Kind, kind_of};
use crate::stream_row::stream_entry;
use crate::utility_row::utility_entry;
use csv::ByteRecord;
use rows::{Collector, Rows, read_rows};
use std::alloc::{AllocError, Global};
use stream_case::Case;

/// What a row gives, or the first of its checks that fails.
#[tactic(auto, unfolding(crate::specs::Checks::checks, crate::specs::Checks::kind_checks))]
fn entry_of(given: &Given, row: &ByteRecord) -> Result<Entry, CaseWhy>
    ensures fresh { IfOk result (IsFresh given.now.rows) }
    ensures checked { Checked (checks given.now.rows (fields_of row.now))
        (λ e. e ≡ entry_in given.now.rows (fields_of row.now)) result }
{
    if row.len() != 7 {
        return Err(CaseWhy::FieldCount);
    }
    match kind_of(row) {
        None => Err(CaseWhy::UnknownKind),
        Some(Kind::PassedOver) => Ok(Entry::Nothing),
        Some(Kind::Contribution) => contribution_entry(given, row),
        Some(Kind::Stream(side)) => stream_entry(given, side, row),
        Some(Kind::Utility(side)) => utility_entry(given, side, row),
        Some(Kind::Forbid) => forbid_entry(given, row),
    }
}

impl Collector for Given {
    type Why = CaseWhy;

    type Given = Given;

    type Value = Case;

    ghost is_sound = { λ _. ⊤ };

    ghost grammar = { λ given. keyed_grammar given.key };

    ghost given = { λ given. given };

    fn take_row(&mut self, row: &ByteRecord) -> Result<Option<CaseWhy>, AllocError> {
        match entry_of(self, row) {
            Ok(entry) => self.add(entry)?,
            Err(why) => return Ok(Some(why)),
        }
        Ok(None)
    }
}

/// What the rows of a text give and how many they are, or the first row at fault with its cause.
/// The key of the names is drawn from the text.
pub fn given_of(alloc: Global, bytes: &[u8]) -> Result<(Given, u32), CaseFault>
    requires { length bytes.now ≤ 2000000000 }
    ensures key { IfOk result (λ r. r.0.key ≡ keyed_by bytes.now) }
    ensures given { IfOk result (λ r. r.0.rows ≡ given_by grammar (rows_of bytes.now)) }
    ensures number { IfOk result (λ r. r.1 ≡ length (rows_of bytes.now)) }
    ensures few { IfOk result (λ r. r.1 ≤ 2000000000) }
    ensures sound { OnOk result
        (SoundBefore grammar (rows_of bytes.now) (length (rows_of bytes.now))) }
    ensures fault { IfErr result (λ fault. IsOutcome (rows_of bytes.now) (Err fault)) }
{
    let mut rows = Rows::new(alloc, bytes);
    let mut given = Given::new(alloc, bytes);
    let number = read_rows(alloc, &mut rows, &mut given)?;
    Ok((given, number))
}

/// The case of a text, or the first row at fault with its cause.
fn case_of(alloc: Global, bytes: &[u8]) -> Result<Case, CaseFault>
    requires { length bytes.now ≤ 2000000000 }
    ensures { IsOutcome (rows_of bytes.now) result }
{
    let (given, number) = given_of(alloc, bytes)?;
    match given.contribution() {
        Ok(contribution) => Ok(given.case(alloc, contribution)?),
        Err(why) => Err(CaseFault::Row {
            row: number + 1,
            why,
        }),
    }
}

/// Reads a case file: the case of the grammar, or the first row at fault with its cause.
#[tactic(auto, using(crate::proofs::Accepted::outcome_is_valid))]
pub fn read_case(alloc: Global, bytes: &[u8]) -> Result<Case, CaseFault>
    requires { length bytes.now ≤ 2000000000 }
    ensures outcome { IsOutcome (rows_of bytes.now) result }
    ensures valid { IfOk result IsValid }
{
    case_of(alloc, bytes)
}
