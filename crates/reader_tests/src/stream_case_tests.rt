//! Names, streams, utilities and cases: what is valid, complete and standard.
use crate::compare::{assert_lists, assert_same};
use std::alloc::Global;
use std::test::Fail;
use std::thread;
use stream_case::Side::{Cold, Hot};
use stream_case::{
    Case, Forbid, Items, Name, Source, complete, is_complete, is_standard, is_valid, natural_of,
    shifted,
};
use worked_tables::{
    FOUR_STREAMS, MOST_HEAT, Table, UtilityRow, any_case, case_of, completed, name, utilities_of,
};

/// A text, and whether it begins with a dot, if it is a name.
const NAMES: &[(&str, Option<bool>)] = &[
    ("H2", Some(false)),
    ("H-2", Some(false)),
    (".a", Some(true)),
    (".16-bytes_at-most", Some(true)),
    ("17-bytes-are-many", None),
    ("-x", None),
    ("K L", None),
    ("..x", None),
    ("", None),
];

/// A text, and its number of at most 13 digits.
const NUMBERS: &[(&str, Option<u128>)] = &[
    ("0042", Some(42)),
    ("9999999999999", Some(9_999_999_999_999)),
    ("12345678901234", None),
    ("4x", None),
    ("", None),
];

const HOT: UtilityRow = ("HOT", Hot, 1700, 0, MOST_HEAT, 1);

const COLD: UtilityRow = ("COLD", Cold, 200, 0, MOST_HEAT, 0);

const HEATER: UtilityRow = ("S", Hot, 1800, 0, MOST_HEAT, 3);

const COOLER: UtilityRow = ("W", Cold, 100, 5, 7, -2);

/// The utilities of a case of the four streams, those that it has when it is completed, and
/// whether it is standard then.
const COMPLETIONS: &[(&[UtilityRow], &[UtilityRow], bool)] = &[
    (&[], &[HOT, COLD], true),
    (&[HEATER], &[HEATER, COLD], false),
    (&[COOLER], &[COOLER, HOT], false),
    (&[COLD, HOT], &[COLD, HOT], true),
];

const FORBID: Forbid = Forbid {
    hot: Source::Stream(1),
    cold: Source::Stream(0),
};

const TURNED: Forbid = Forbid {
    hot: Source::Stream(0),
    cold: Source::Stream(1),
};

/// Forbidden matches of the four streams, and whether the case is valid with them.
const FORBIDS: &[(&[Forbid], bool)] = &[
    (&[FORBID], true),
    (&[FORBID, FORBID], false),
    (&[TURNED], false),
];

/// The case of the four streams with these utilities and forbidden matches.
fn four_streams_with(
    alloc: Global,
    utilities: &'static [UtilityRow],
    forbids: &'static [Forbid],
) -> Result<Case, Fail> {
    let table = Table {
        utilities,
        forbids,
        ..FOUR_STREAMS
    };
    any_case(alloc, &table)
}

fn dot_of(text: &str) -> Option<bool> {
    Some(Name::new(text.as_bytes())?.is_dotted())
}

#[test]
fn names_have_their_grammar(rt: HostRuntime) -> Result<(), Fail> {
    for (text, dot) in NAMES {
        assert_same(&rt, text, &dot_of(text), dot);
        let is_undotted = Name::undotted(text.as_bytes()).is_some();
        assert_same(&rt, text, &is_undotted, &(*dot == Some(false)));
    }
    let h2 = name("H2")?;
    assert_same(&rt, "the bytes", &h2.as_bytes(), &b"H2".as_slice());
    assert_same(&rt, "the text", &h2.as_str(), &"H2");
    Ok(())
}

#[test]
fn numbers_have_digits_alone(rt: HostRuntime) {
    for (text, number) in NUMBERS {
        assert_same(&rt, text, &natural_of(text.as_bytes(), 13), number);
    }
}

#[test]
fn items_keep_their_order(rt: HostRuntime) -> Result<(), Fail> {
    let mut items = Items::new(rt.alloc());
    assert_same(&rt, "no items", &items.is_empty(), &true);
    items.push(7u32)?;
    items.push(3)?;
    assert_same(
        &rt,
        "two items",
        &(items.is_empty(), items.len()),
        &(false, 2),
    );
    assert_same(&rt, "the second", &items.get(1), &Some(&3));
    assert_same(&rt, "a third", &items.get(2), &None);
    assert_lists(&rt, "both", items.as_slice(), &[7, 3]);
    let same = Items::from_vec([7, 3].to_vec(rt.alloc())?);
    assert_same(&rt, "a vector", &same, &items);
    assert_same(&rt, "a copy", &items.copied(rt.alloc())?, &items);
    Ok(())
}

#[test]
fn a_match_at_the_pinch_is_level(rt: HostRuntime) {
    let ends = [shifted(Hot, 900, 50), shifted(Cold, 800, 50)];
    assert_same(&rt, "both ends", &ends, &[850, 850]);
}

#[test]
fn a_side_without_utility_gets_the_standard_one(rt: HostRuntime) -> Result<(), Fail> {
    for (given, wanted, standard) in COMPLETIONS {
        let wanted = utilities_of(rt.alloc(), 50, wanted)?;
        let case = completed(rt.alloc(), &four_streams_with(rt.alloc(), given, &[])?)?;
        assert_lists(&rt, "completion", case.utilities.as_slice(), &wanted);
        assert_same(&rt, "standard", &is_standard(&case), standard);
    }
    Ok(())
}

#[test]
fn a_forbidden_match_joins_hot_with_cold_once(rt: HostRuntime) -> Result<(), Fail> {
    for (forbids, valid) in FORBIDS {
        let case = four_streams_with(rt.alloc(), &[], forbids)?;
        assert_same(&rt, "forbidden matches", &is_valid(&case), valid);
    }
    Ok(())
}

#[test]
fn only_complete_cases_without_forbidden_matches_are_standard(rt: HostRuntime) -> Result<(), Fail> {
    let case = four_streams_with(rt.alloc(), &[], &[FORBID])?;
    assert_same(&rt, "no utilities", &is_complete(&case), &false);
    let case = completed(rt.alloc(), &case)?;
    assert_same(&rt, "a forbidden match", &is_standard(&case), &false);
    Ok(())
}

#[test]
fn cases_are_shared_by_threads(rt: HostRuntime) -> Result<(), Fail> {
    let case = case_of(rt.alloc(), &FOUR_STREAMS)?;
    let alloc = rt.alloc();
    let wanted = complete(alloc, &case)?;
    let made = thread::map_indices(&rt, alloc, 2, &|_| complete(alloc, &case))?;
    assert_same(&rt, "the threads", &made.len(), &2);
    for completed in made {
        assert_same(&rt, "the case of a thread", &completed?, &wanted);
    }
    Ok(())
}
