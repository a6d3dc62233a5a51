//! The rows of a CSV text, one after the other.
ghost use Rattle.std.specs.Prelude.{◌≡◌, [], ◌∷◌, ◌≤◌, length, IfOk, OnErr, MatchBool};
ghost use Rattle.std.specs.Bool.{OnFalse};
ghost use Rattle.csv.specs.Records.{fields_of};
ghost use Rattle.rows.specs.Rows.{rows_of};

use csv::{ByteRecord, Reader, ReaderBuilder};
use std::alloc::{AllocError, Global};
use std::marker::Model;

/// The rows of a text that are still to be read. A contract sees the list of them.
#[derive(Drop)]
pub struct Rows<'a> {
    reader: Reader<&'a [u8]>,
    ended: bool,
}

impl<'a> Model for Rows<'a> {
    ghost use Rattle.std.specs.Prelude.{◌≡◌, ℕ, List, [], false, if◌then◌else◌};
    ghost use Rattle.csv.specs.Reading.{reader_state};
    ghost use Rattle.rows.specs.Left.{GivesRows, bytes_left, records_left};

    ghost Value = { List (List (List ℕ)) };

    ghost view = { λ s. if s.ended then [] else records_left (reader_state s.reader) (bytes_left s.reader) };

    ghost invariant = { λ s. s.ended ≡ false → GivesRows s.reader };
}

impl<'a> Rows<'a> {
    /// All rows of a text.
    pub fn new(alloc: Global, text: &'a [u8]) -> Rows<'a>
        ensures rows { result ≡ rows_of text.now }
        ensures few { length result ≤ length text.now }
    {
        let reader = ReaderBuilder::new()
            .has_headers(false)
            .flexible(true)
            .from_reader(alloc, text);
        Rows {
            reader,
            ended: false,
        }
    }

    /// Reads the next row, if there is one. None is left after it found none, nor after an `Err`.
    pub fn read(&mut self, row: &mut ByteRecord) -> Result<bool, AllocError>
        ensures found { IfOk result (λ found.
            MatchBool found (self.old ≡ fields_of row.new ∷ self.new) (self.old ≡ [])) }
        ensures ended { IfOk result (λ found. OnFalse found (self.new ≡ [])) }
        ensures err { OnErr result (self.new ≡ []) }
    {
        if self.ended {
            return Ok(false);
        }
        // Over bytes in memory csv meets no other fault than want of memory.
        let Ok(found) = self.reader.read_byte_record(row) else {
            self.ended = true;
            return Err(AllocError);
        };
        self.ended = !found;
        Ok(found)
    }
}
