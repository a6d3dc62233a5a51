//! Over every command: each file is cut at every byte. How the command ends is compared with what
//! the grammars say of the bytes that are left.
ghost use Rattle.std.specs.Prelude.{IfOk};
ghost use Rattle.stream_case.specs.Case.{IsComplete};

use super::hostile_orders::{Row, rows};
use super::support::{check_end, outcome_over, shelf_of};
use case_text::{CaseFault, read_case};
use certify::{ReportFault, read_report};
use network_text::{NetFault, read_network};
use pinch_outside::MemoryFile;
use site::{SiteFault, read_site};
use std::alloc::{AllocError, Global};
use std::fmt::Debug;
use std::process::Abort;
use std::test::Fail;
use std::thread::Threads;
use stream_case::{Case, complete};
use study::{StudyFault, read_study};

/// The most bytes of a file.
const LONGEST_FILE: usize = 8_388_608;

/// A status and a text with which files are refused.
type Refusal = (u8, String);

/// A refusal with this status, at a row or line with this number.
fn told(
    alloc: Global,
    status: u8,
    (place, number): (&str, u32),
    why: &impl Debug,
) -> Result<Option<Refusal>, AllocError> {
    let text = format!(in alloc; "{place} {number} {why:?}\n")?;
    Ok(Some((status, text)))
}

/// How the grammar of cases refuses these bytes, if it does.
fn refusal_of_case<R: Abort + AllocGlobal>(
    rt: &R,
    bytes: &[u8],
) -> Result<Option<Refusal>, AllocError> {
    let alloc = rt.alloc();
    assert!(rt; bytes.len() <= LONGEST_FILE);
    match read_case(alloc, bytes) {
        Ok(_) => Ok(None),
        Err(CaseFault::Row { row, why }) => told(alloc, 3, ("case row", row), &why),
        Err(CaseFault::OutOfMemory) => Err(AllocError),
    }
}

/// How the grammar of sites refuses these bytes, if it does.
fn refusal_of_site<R: Abort + AllocGlobal>(
    rt: &R,
    bytes: &[u8],
) -> Result<Option<Refusal>, AllocError> {
    let alloc = rt.alloc();
    assert!(rt; bytes.len() <= LONGEST_FILE);
    match read_site(alloc, bytes) {
        Ok(_) => Ok(None),
        Err(SiteFault::Row { row, why }) => told(alloc, 3, ("site row", row), &why),
        Err(SiteFault::OutOfMemory) => Err(AllocError),
    }
}

/// The completed case of these bytes, which the grammar of cases accepts.
fn completed_case<R: Abort + AllocGlobal>(rt: &R, bytes: &[u8]) -> Result<Case, AllocError>
    ensures { IfOk result IsComplete }
{
    assert!(rt; bytes.len() <= LONGEST_FILE);
    let Ok(case) = read_case(rt.alloc(), bytes) else {
        return Err(AllocError);
    };
    complete(rt.alloc(), &case)
}

/// How the grammar of networks refuses these bytes, if it does, where it accepts the case.
fn refusal_of_network<R: Abort + AllocGlobal>(
    rt: &R,
    case: &[u8],
    bytes: &[u8],
) -> Result<Option<Refusal>, AllocError> {
    let alloc = rt.alloc();
    assert!(rt; bytes.len() <= LONGEST_FILE);
    let case = completed_case(rt, case)?;
    match read_network(alloc, &case, bytes) {
        Ok(_) => Ok(None),
        Err(NetFault::At { line, why }) => told(alloc, 4, ("network line", line), &why),
        Err(NetFault::OutOfMemory) => Err(AllocError),
    }
}

/// How the grammar of reports refuses these bytes, if it does.
fn refusal_of_report<R: Abort + AllocGlobal>(
    rt: &R,
    bytes: &[u8],
) -> Result<Option<Refusal>, AllocError> {
    let alloc = rt.alloc();
    assert!(rt; bytes.len() <= LONGEST_FILE);
    match read_report(alloc, bytes) {
        Ok(_) => Ok(None),
        Err(ReportFault::At { line, why }) => told(alloc, 4, ("report line", line), &why),
        Err(ReportFault::OutOfMemory) => Err(AllocError),
    }
}

/// How the grammar of price studies refuses these bytes, if it does, where it accepts the case.
fn refusal_of_study<R: Abort + AllocGlobal>(
    rt: &R,
    case: &[u8],
    bytes: &[u8],
) -> Result<Option<Refusal>, AllocError> {
    let alloc = rt.alloc();
    assert!(rt; bytes.len() <= LONGEST_FILE);
    let case = completed_case(rt, case)?;
    match read_study(alloc, &case, bytes) {
        Ok(_) => Ok(None),
        Err(StudyFault::Row { row, why }) => told(alloc, 4, ("study row", row), &why),
        Err(StudyFault::OutOfMemory) => Err(AllocError),
    }
}

/// How the grammars refuse these files, the first that is refused, if one is.
fn refusal_of<R: Abort + AllocGlobal>(
    rt: &R,
    files: &[MemoryFile],
) -> Result<Option<Refusal>, AllocError> {
    match files {
        [site] if site.name.as_str() == "site" => refusal_of_site(rt, &site.bytes),
        [case] => refusal_of_case(rt, &case.bytes),
        [case, other] => match refusal_of_case(rt, &case.bytes)? {
            Some(refusal) => Ok(Some(refusal)),
            None if other.name.as_str() == "report" => refusal_of_report(rt, &other.bytes),
            None if other.name.as_str() == "study" => {
                refusal_of_study(rt, &case.bytes, &other.bytes)
            }
            None => refusal_of_network(rt, &case.bytes, &other.bytes),
        },
        _ => Ok(None),
    }
}

/// The statuses with which a command can end over files that its grammars accept.
fn statuses_of(words: &[&str]) -> &'static [u8] {
    let [command, ..] = words else {
        return &[];
    };
    match *command {
        "flow" | "design" | "certify" | "site" => &[0, 1],
        "vertical" => &[0, 3],
        "audit" => &[0, 1, 9],
        _ => &[0],
    }
}

/// The command ends as the grammars say of its files, one of which ends behind so many bytes.
fn check_cut<R: Abort + Threads + Sync + AllocGlobal>(
    rt: &R,
    (words, files, ..): Row,
    (index, length): (usize, usize),
) -> Result<(), Fail> {
    let mut shelf = shelf_of(rt.alloc(), files, &[])?;
    if let Some(file) = shelf.files.get_mut(index) {
        file.bytes.truncate(length);
    }
    let refusal = refusal_of(rt, &shelf.files)?;
    let outcome = outcome_over(rt, words, &mut shelf, (4096, &[]))?;
    match refusal {
        Some((status, text)) => {
            check_end(
                rt,
                &(words, index, length),
                &outcome,
                status,
                text.as_bytes(),
            );
        }
        None => {
            let statuses = statuses_of(words);
            assert!(rt;
                statuses.contains(&outcome.status),
                "{words:?}, {length} bytes of file {index}"
            );
        }
    }
    Ok(())
}

/// The files of a command are cut, each at every byte. The answer is how many cuts there are.
fn check_cuts<R: Abort + Threads + Sync + AllocGlobal>(rt: &R, row: Row) -> Result<u64, Fail> {
    let mut cuts: u64 = 0;
    for (index, (_, bytes)) in row.1.iter().enumerate() {
        cuts = cuts.saturating_add(check_cuts_of(rt, row, (index, bytes.len()))?);
    }
    Ok(cuts)
}

/// The file with this index, which has so many bytes, is cut at every byte.
fn check_cuts_of<R: Abort + Threads + Sync + AllocGlobal>(
    rt: &R,
    row: Row,
    (index, length): (usize, usize),
) -> Result<u64, Fail> {
    for end in 0..length {
        check_cut(rt, row, (index, end))?;
    }
    Ok(length as u64)
}

#[test]
fn each_file_is_cut_at_every_byte(rt: HostRuntime) -> Result<(), Fail> {
    let mut cuts: u64 = 0;
    for row in rows() {
        cuts = cuts.saturating_add(check_cuts(&rt, *row)?);
    }
    println!(rt; "files cut at every byte over every command: {cuts} runs")?;
    assert!(rt; cuts >= 1000);
    Ok(())
}
