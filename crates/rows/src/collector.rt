//! Reading the rows of a file by its grammar.

ghost use Rattle.std.specs.Prelude.{◌≡◌, ◌≤◌, Err, length, IfErr, IfNone, IfOk, OnOk};
ghost use Rattle.csv.specs.Records.{fields_of};
ghost use Rattle.first_fault.specs.Checks.{first_failing};
ghost use Rattle.first_fault.specs.Outcome.{Grammar, SoundBefore, given_by};
ghost use Rattle.rows.specs.Outcome.{IsRowOutcome};
ghost use Rattle.rows.specs.Rows.{Row};

use crate::fault::RowFault;
use crate::row_reader::Rows;
use csv::ByteRecord;
use std::alloc::{AllocError, Global};

/// What collects what the rows of a file give, one row after the other.
pub trait Collector {
    /// Why a row is at fault.
    type Why: Drop;

    /// What rows give.
    type Given;

    /// What is made of a whole file.
    type Value;

    /// It may take rows.
    ghost is_sound: { Self → Type 0 };

    /// The grammar of the file.
    ghost grammar: { Self → Grammar Row Self.Given Self.Value Self.Why };

    /// What the rows taken so far gave.
    ghost given: { Self → Self.Given };

    /// Takes what the next row gives, or answers the cause of the first of its checks that fails.
    /// The only error is want of memory.
    fn take_row(&mut self, row: &ByteRecord) -> Result<Option<Self::Why>, AllocError>
        requires { is_sound self.old }
        ensures cause { IfOk result (λ why. why
            ≡ first_failing ((grammar self.old).checks (given self.old) (fields_of row.now))) }
        ensures taken { IfOk result (λ why. IfNone why (given self.new
            ≡ (grammar self.old).next (given self.old) (fields_of row.now))) }
        ensures sound { OnOk result (is_sound self.new) }
        ensures same { OnOk result (grammar self.new ≡ grammar self.old) };
}

/// Takes what rows give, and answers how many there are, or the first row at fault with its cause.
pub fn read_rows<C: Collector>(
    alloc: Global,
    rows: &mut Rows<'_>,
    collector: &mut C,
) -> Result<u32, RowFault<C::Why>>
    requires collects { C.is_sound collector.old }
    requires few { length rows.old ≤ 2000000000 }
    requires none { C.given collector.old ≡ (C.grammar collector.old).start }
    ensures sound { OnOk result
        (SoundBefore (C.grammar collector.old) rows.old (length rows.old)) }
    ensures given { OnOk result
        (C.given collector.new ≡ given_by (C.grammar collector.old) rows.old) }
    ensures number { IfOk result (λ n. n ≡ length rows.old) }
    ensures fault { IfErr result (λ fault.
        IsRowOutcome (C.grammar collector.old) rows.old (Err fault)) }
{
    let mut row = ByteRecord::new(alloc);
    let mut number: u32 = 0;
    while rows.read(&mut row)? {
        number += 1;
        if let Some(why) = collector.take_row(&row)? {
            return Err(RowFault::Row { row: number, why });
        }
    }
    Ok(number)
}
