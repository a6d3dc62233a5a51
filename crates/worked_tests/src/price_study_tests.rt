//! Price studies by two workers, whose items meet.

use crate::compare::{assert_lists, assert_same};
use meeting_gate::{MOST_TURNS, MeetingGate};
use std::test::Fail;
use study::{StudyAnswer, price_study, read_study};
use worked_tables::{TWO_STEAM_LEVELS, completed_case};

const TEXT: &[u8] = b"scenario,S1,,\nscenario,S2,,\n";

#[test]
fn two_items_meet(rt: HostRuntime) -> Result<(), Fail> {
    let case = completed_case(rt.alloc(), &TWO_STEAM_LEVELS)?;
    let Ok(study) = read_study(rt.alloc(), &case, TEXT) else {
        return Err("the text is refused".into());
    };
    let gate = MeetingGate::new(MOST_TURNS);
    let answers = price_study(&rt, rt.alloc(), &gate, &case, &study, 2)?;
    let wanted = [
        StudyAnswer::Cost(Some(57_000)),
        StudyAnswer::Cost(Some(57_000)),
    ];
    assert_lists(&rt, "the answers", answers.as_slice(), &wanted);
    assert_same(&rt, "the counts", &gate.counts(), &[1, 1, 1, 1, 0]);
    Ok(())
}
