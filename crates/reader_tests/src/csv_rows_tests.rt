//! Rows of CSV texts as `csv` gives them.
use crate::compare::assert_same;
use csv::ByteRecord;
use rows::Rows;
use std::test::Fail;

/// A text as spreadsheets write it.
const TEXT: &[u8] = b"\xEF\xBB\xBFhot,H,\"1,0\"\"5\"x\r\n\n   \n#\rcold,,";

/// How many fields each row has, and their bytes.
const ROWS: [(usize, &[u8]); 4] = [(3, b"hotH1,0\"5x"), (1, b"   "), (1, b"#"), (3, b"cold")];

#[test]
fn a_spreadsheet_has_these_rows(rt: HostRuntime) -> Result<(), Fail> {
    let mut rows = Rows::new(rt.alloc(), TEXT);
    let mut row = ByteRecord::new(rt.alloc());
    for wanted in &ROWS {
        assert_same(&rt, "a row", &rows.read(&mut row)?, &true);
        assert_same(&rt, "its fields", &(row.len(), row.as_slice()), wanted);
    }
    assert_same(&rt, "the end", &rows.read(&mut row)?, &false);
    Ok(())
}
