//! Files that are too long or cannot be read, and writes that are refused.

use super::support::{
    FOUR_STREAM, FOUR_STREAM_TARGETS, Fails, audit_under, check_count, check_end, outcome_of,
    outcome_under,
};
use std::process::Abort;
use std::test::Fail;
use std::thread::Threads;

const LONGEST_FILE: usize = 8_388_608;

/// The name that is asked for, the calls of the shelf and of the sink that fail, the status, and
/// the text.
const FAULTS: &[(&str, &[u64], &[u64], u8, &str)] = &[
    ("plant.csv", &[], &[], 0, FOUR_STREAM_TARGETS),
    // The second write: only the first piece of five bytes is there.
    ("plant.csv", &[], &[2], 7, "hot 2"),
    // The start, and the second take.
    ("plant.csv", &[1], &[], 6, "read fault case\n"),
    ("plant.csv", &[3], &[], 6, "read fault case\n"),
    ("no-such-file.csv", &[], &[], 6, "read fault case\n"),
    // A take and the first write.
    ("plant.csv", &[2], &[1], 7, ""),
];

#[test]
fn faults_of_shelf_and_sink_are_told(rt: HostRuntime) -> Result<(), Fail> {
    let files = [("plant.csv", FOUR_STREAM.as_bytes())];
    for (name, shelf, sink, status, written) in FAULTS {
        let outcome = outcome_under(&rt, &["targets", name], &files, Fails { shelf, sink })?;
        check_end(
            &rt,
            &(name, shelf, sink),
            &outcome,
            *status,
            written.as_bytes(),
        );
    }
    Ok(())
}

/// How many bytes a case file has, the status, and the text.
const LONG_FILES: &[(usize, u8, &str)] = &[
    (LONGEST_FILE + 1, 5, "too long case\n"),
    (LONGEST_FILE, 3, "case row 1 FieldCount\n"),
];

#[test]
fn a_file_above_the_limit_is_too_long(rt: HostRuntime) -> Result<(), Fail> {
    let alloc = rt.alloc();
    for (count, status, text) in LONG_FILES {
        let bytes = vec![in alloc; b'#'; *count]?;
        let files = [("long.csv", bytes.as_slice())];
        let outcome = outcome_of(&rt, &["targets", "long.csv"], &files)?;
        check_end(&rt, count, &outcome, *status, text.as_bytes());
    }
    Ok(())
}

/// A command of two files, of which the second has so many bytes of `#`, ends so, over calls of the
/// shelf with these numbers that fail; each file is started, taken, and taken to its end.
fn check_two_files<R: Abort + Threads + Sync + AllocGlobal>(
    rt: &R,
    (case, count, shelf): (&str, usize, &[u64]),
    (calls, status, text): (u64, u8, &str),
) -> Result<(), Fail> {
    let network = vec![in rt.alloc(); b'#'; count]?;
    let fails = Fails {
        shelf,
        sink: &shelf[..0],
    };
    let outcome = audit_under(rt, case, &network, fails)?;
    check_end(rt, &(count, shelf), &outcome, status, text.as_bytes());
    check_count(rt, &(count, shelf), outcome.calls, calls);
    Ok(())
}

#[test]
fn a_file_is_read_only_behind_a_sound_one(rt: HostRuntime) -> Result<(), Fail> {
    check_two_files(&rt, ("", 1, &[]), (2, 3, "case row 1 NoContribution\n"))?;
    check_two_files(&rt, (FOUR_STREAM, 1, &[1]), (1, 6, "read fault case\n"))?;
    check_two_files(&rt, (FOUR_STREAM, 1, &[3]), (3, 6, "read fault case\n"))?;
    check_two_files(&rt, (FOUR_STREAM, 1, &[4]), (4, 6, "read fault network\n"))?;
    check_two_files(&rt, (FOUR_STREAM, 1, &[6]), (6, 6, "read fault network\n"))
}

#[test]
fn a_second_file_above_the_limit_is_too_long(rt: HostRuntime) -> Result<(), Fail> {
    let long = (FOUR_STREAM, LONGEST_FILE + 1, [].as_slice());
    check_two_files(&rt, long, (2053, 5, "too long network\n"))?;
    let text = "rejected stream C1 Unfinished found 0 wanted 200\n";
    check_two_files(&rt, (FOUR_STREAM, LONGEST_FILE, &[]), (2053, 1, text))
}

// For refused memory, one allocation at a time: the answer, or status 8 and nothing written.
#[test]
fn refused_memory_leaves_nothing_written(rt: HostRuntime) {
    let files = [("plant.csv", FOUR_STREAM.as_bytes())];
    let Ok(outcome) = outcome_of(&rt, &["targets", "plant.csv"], &files) else {
        return;
    };
    if outcome.status == 8 {
        assert!(rt; outcome.written.is_empty());
    } else {
        check_end(&rt, &"targets", &outcome, 0, FOUR_STREAM_TARGETS.as_bytes());
    }
}
