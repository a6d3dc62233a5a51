//! The vertical designs of small tables, worked by hand.

use crate::compare::assert_lists;
use network_text::print_network;
use std::alloc::Global;
use std::test::Fail;
use stream_case::Side::{Cold, Hot};
use stream_case::is_standard;
use vertical_design::vertical;
use worked_tables::{Table, check_sensible, completed_case};

/// One hot stream and two cold ones, which need no hot utility.
const ONE_AND_TWO: Table = Table {
    contribution: 50,
    streams: &[
        ("H", Hot, 1000, 500, 10),
        ("C", Cold, 300, 500, 5),
        ("D", Cold, 300, 500, 10),
    ],
    utilities: &[],
    forbids: &[],
};

const ONE_AND_TWO_TEXT: &[u8] = b"exchanger E1 H C 1000
exchanger E2 H D 2000
exchanger E3 H COLD 2000
split H .1 10/3 .2
pass .1 E1 .3
pass .2 E2 .4
mix .3 .4 .5
pass .5 E3 .6
end .6
pass C E1 .7
end .7
pass D E2 .8
end .8
";

/// One cold stream alone.
const ONE_COLD: Table = Table {
    contribution: 50,
    streams: &[("C", Cold, 300, 700, 10)],
    utilities: &[],
    forbids: &[],
};

const ONE_COLD_TEXT: &[u8] = b"exchanger E1 HOT C 4000
pass C E1 .1
end .1
";

/// Tables, and the texts of their vertical designs.
const DESIGNS: &[(Table, &[u8])] = &[(ONE_AND_TWO, ONE_AND_TWO_TEXT), (ONE_COLD, ONE_COLD_TEXT)];

/// The text of the vertical design of a table.
fn design_of(alloc: Global, table: &Table) -> Result<Vec<u8>, Fail> {
    let case = completed_case(alloc, table)?;
    if !is_standard(&case) {
        return Err("the case is not standard".into());
    }
    check_sensible(&case)?;
    let network = vertical(alloc, &case)?;
    Ok(print_network(alloc, &case, &network)?)
}

#[test]
fn tables_have_these_vertical_designs(rt: HostRuntime) -> Result<(), Fail> {
    for (table, text) in DESIGNS {
        let printed = design_of(rt.alloc(), table)?;
        assert_lists(&rt, "a vertical design", &printed, text);
    }
    Ok(())
}
