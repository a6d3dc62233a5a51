//! The texts of what is no result of a command: words, files and rows that are refused.
ghost use Rattle.std.specs.Prelude.{◌≡◌, IfOk};
ghost use Rattle.reports.specs.Refusals.{bad_case_text, bad_network_text, bad_report_text, bad_site_text, bad_study_text, case_why_name, file_text, net_why_name, report_why_name, role_name, site_why_name, study_why_name};

use crate::shown::FileRole;
use case_text::CaseWhy;
use certify::ReportWhy;
use network_text::NetWhy;
use site::SiteWhy;
use std::alloc::{AllocError, Global};
use study::StudyWhy;

/// What is printed where the words are no command.
pub const WORDS: &str =
    "words: targets flow curves design vertical audit site sweep sample certify prices\n";

/// What is printed where a command that is for standard cases alone is asked for another one.
pub const NOT_STANDARD: &str = "case not standard\n";

/// What is printed where a command that is for sensible streams alone is asked for a case that has
/// latent ones.
pub const LATENT: &str = "case has latent streams\n";

/// A text as it stands.
pub fn fixed_text(alloc: Global, text: &str) -> Result<Vec<u8>, AllocError>
    ensures { IfOk result (λ copy. copy.items ≡ text.now) }
{
    Ok(String::from_str(alloc, text)?.into_bytes())
}

/// A line that names the row of a case file, counted from 1, and its cause.
pub fn bad_case_text(alloc: Global, row: u32, why: CaseWhy) -> Result<Vec<u8>, AllocError>
    ensures { IfOk result (λ text. text.items ≡ bad_case_text row why) }
{
    Ok(format!(in alloc; "case row {row} {}\n", case_why_name(why))?.into_bytes())
}

/// A line that names the row of a site file, counted from 1, and its cause.
pub fn bad_site_text(alloc: Global, row: u32, why: SiteWhy) -> Result<Vec<u8>, AllocError>
    ensures { IfOk result (λ text. text.items ≡ bad_site_text row why) }
{
    Ok(format!(in alloc; "site row {row} {}\n", site_why_name(why))?.into_bytes())
}

/// A line that names the statement of a network file, counted from 1, and its cause.
pub fn bad_network_text(alloc: Global, line: u32, why: NetWhy) -> Result<Vec<u8>, AllocError>
    ensures { IfOk result (λ text. text.items ≡ bad_network_text line why) }
{
    Ok(format!(in alloc; "network line {line} {}\n", net_why_name(why))?.into_bytes())
}

/// A line that names the statement of a report, counted from 1, and its cause.
pub fn bad_report_text(alloc: Global, line: u32, why: ReportWhy) -> Result<Vec<u8>, AllocError>
    ensures { IfOk result (λ text. text.items ≡ bad_report_text line why) }
{
    Ok(format!(in alloc; "report line {line} {}\n", report_why_name(why))?.into_bytes())
}

/// A line that names the row of a study file, counted from 1, and its cause.
pub fn bad_study_text(alloc: Global, row: u32, why: StudyWhy) -> Result<Vec<u8>, AllocError>
    ensures { IfOk result (λ text. text.items ≡ bad_study_text row why) }
{
    Ok(format!(in alloc; "study row {row} {}\n", study_why_name(why))?.into_bytes())
}

/// A line of what is wrong and of the file where it is.
pub fn file_text(alloc: Global, fault: &str, file: FileRole) -> Result<Vec<u8>, AllocError>
    ensures { IfOk result (λ text. text.items ≡ file_text fault.now file) }
{
    Ok(format!(in alloc; "{fault} {}\n", role_name(file))?.into_bytes())
}

fn role_name(file: FileRole) -> &'static str
    ensures { result.now ≡ role_name file }
{
    match file {
        FileRole::Case => "case",
        FileRole::Network => "network",
        FileRole::Site => "site",
        FileRole::Report => "report",
        FileRole::Study => "study",
    }
}

fn case_why_name(why: CaseWhy) -> &'static str
    ensures { result.now ≡ case_why_name why }
{
    match why {
        CaseWhy::UnknownKind => "UnknownKind",
        CaseWhy::FieldCount => "FieldCount",
        CaseWhy::BadNumber => "BadNumber",
        CaseWhy::OutOfRange => "OutOfRange",
        CaseWhy::BadName => "BadName",
        CaseWhy::SameName => "SameName",
        CaseWhy::WrongWay => "WrongWay",
        CaseWhy::Repeated => "Repeated",
        CaseWhy::TooMany => "TooMany",
        CaseWhy::UnknownName => "UnknownName",
        CaseWhy::NoContribution => "NoContribution",
        CaseWhy::NoStream => "NoStream",
        CaseWhy::BadRange => "BadRange",
        CaseWhy::NoLoad => "NoLoad",
        CaseWhy::NotLatent => "NotLatent",
    }
}

fn site_why_name(why: SiteWhy) -> &'static str
    ensures { result.now ≡ site_why_name why }
{
    match why {
        SiteWhy::UnknownKind => "UnknownKind",
        SiteWhy::FieldCount => "FieldCount",
        SiteWhy::BadNumber => "BadNumber",
        SiteWhy::OutOfRange => "OutOfRange",
        SiteWhy::BadName => "BadName",
        SiteWhy::SameName => "SameName",
        SiteWhy::WrongWay => "WrongWay",
        SiteWhy::Repeated => "Repeated",
        SiteWhy::TooMany => "TooMany",
        SiteWhy::NoPlant => "NoPlant",
        SiteWhy::NoContribution => "NoContribution",
        SiteWhy::NoMain => "NoMain",
        SiteWhy::NoStream => "NoStream",
    }
}

fn net_why_name(why: NetWhy) -> &'static str
    ensures { result.now ≡ net_why_name why }
{
    match why {
        NetWhy::UnknownWord => "UnknownWord",
        NetWhy::FieldCount => "FieldCount",
        NetWhy::BadNumber => "BadNumber",
        NetWhy::UnknownName => "UnknownName",
        NetWhy::WrongSide => "WrongSide",
        NetWhy::SameName => "SameName",
        NetWhy::UnknownBranch => "UnknownBranch",
        NetWhy::SpentBranch => "SpentBranch",
        NetWhy::WrongPass => "WrongPass",
        NetWhy::MissingPass => "MissingPass",
        NetWhy::TooMany => "TooMany",
        NetWhy::NotPositive => "NotPositive",
        NetWhy::OtherStream => "OtherStream",
        NetWhy::BadName => "BadName",
    }
}

fn report_why_name(why: ReportWhy) -> &'static str
    ensures { result.now ≡ report_why_name why }
{
    match why {
        ReportWhy::UnknownWord => "UnknownWord",
        ReportWhy::FieldCount => "FieldCount",
        ReportWhy::OutOfOrder => "OutOfOrder",
        ReportWhy::BadKind => "BadKind",
        ReportWhy::BadName => "BadName",
        ReportWhy::BadNumber => "BadNumber",
        ReportWhy::OutOfRange => "OutOfRange",
        ReportWhy::Ended => "Ended",
    }
}

fn study_why_name(why: StudyWhy) -> &'static str
    ensures { result.now ≡ study_why_name why }
{
    match why {
        StudyWhy::UnknownKind => "UnknownKind",
        StudyWhy::FieldCount => "FieldCount",
        StudyWhy::BadNumber => "BadNumber",
        StudyWhy::OutOfRange => "OutOfRange",
        StudyWhy::BadName => "BadName",
        StudyWhy::SameName => "SameName",
        StudyWhy::UnknownName => "UnknownName",
        StudyWhy::Repeated => "Repeated",
        StudyWhy::TooMany => "TooMany",
        StudyWhy::NoScenario => "NoScenario",
        StudyWhy::BadRange => "BadRange",
        StudyWhy::TooWide => "TooWide",
        StudyWhy::NoItem => "NoItem",
    }
}
