//! Files: each is taken whole from the shelf, and read by the grammar of its role.
ghost use Rattle.std.specs.Prelude.{◌≡◌, ◌≤◌, IfErr, IfOk, false};
ghost use Rattle.stream_case.specs.Case.{IsComplete, IsValid};
ghost use Rattle.certify.specs.Answers.{HasPartPrices};
ghost use Rattle.networks.specs.Shape.{HasShape};
ghost use Rattle.pinch_outside.specs.Shelf.{KeepsFiles, IsWhole};
ghost use Rattle.pinch_outside.specs.declared.limits.TheConstants.{MAX_FILE};
ghost use Rattle.commands.specs.Files.{NoFile, NoText, ReadsText};
ghost use Rattle.commands.specs.Formats.{case_file, network_file, report_file, site_file, study_file};
ghost use Rattle.commands.specs.Stop.{IfEarly, IfNoMemory};
ghost use Rattle.site_text.specs.Site.{IsValidSite};
ghost use Rattle.study_text.specs.Study.{IsStudy};

use crate::stop::Stop;
use crate::word::Word;
use case_text::{CaseFault, read_case};
use certify::{Report, ReportFault, read_report};
use network_text::{NetFault, Network, read_network};
use pinch_outside::{Shelf, TakeFault, take_all};
use reports::{FileRole, Shown};
use site::{Site, SiteFault, read_site};
use std::alloc::Global;
use stream_case::Case;
use study::{Study, StudyFault, read_study};

/// The bytes of a file of this role. Memory is wanted only behind a call of the shelf that was not
/// refused, and within the limit.
fn take_file<S: Shelf>(
    alloc: Global,
    shelf: &mut S,
    role: FileRole,
    name: &Word,
) -> Result<Vec<u8>, Stop>
    ensures whole { IfOk result
        (λ bytes. IsWhole name.now (S.state shelf.old) (S.state shelf.new) bytes.items) }
    ensures stop { IfErr result
        (λ stop. IfEarly stop (NoFile role name.now (S.state shelf.old) (S.state shelf.new))) }
    ensures keeps { KeepsFiles (S.state shelf.old) (S.state shelf.new) }
    ensures memory { IfErr result (λ stop. IfNoMemory stop
        (((S.state shelf.new).failed ≡ false) × ((S.state shelf.new).taken ≤ MAX_FILE))) }
{
    match take_all(alloc, shelf, name.as_str()) {
        Ok(bytes) => Ok(bytes),
        Err(TakeFault::Fault) => Err(Stop::Early(Shown::ReadFault { file: role })),
        Err(TakeFault::Long) => Err(Stop::Early(Shown::TooLong { file: role })),
        Err(TakeFault::OutOfMemory) => Err(Stop::OutOfMemory),
    }
}

/// The case of a case file.
pub fn take_case<S: Shelf>(alloc: Global, shelf: &mut S, name: &Word) -> Result<Case, Stop>
    ensures case { IfOk result
        (ReadsText case_file name.now (S.state shelf.old) (S.state shelf.new)) }
    ensures valid { IfOk result IsValid }
    ensures stop { IfErr result
        (λ stop. IfEarly stop
        (NoText case_file name.now (S.state shelf.old) (S.state shelf.new))) }
{
    let bytes = take_file(alloc, shelf, FileRole::Case, name)?;
    match read_case(alloc, &bytes) {
        Ok(case) => Ok(case),
        Err(CaseFault::Row { row, why }) => Err(Stop::Early(Shown::BadCase { row, why })),
        Err(CaseFault::OutOfMemory) => Err(Stop::OutOfMemory),
    }
}

/// The site of a site file.
pub fn take_site<S: Shelf>(alloc: Global, shelf: &mut S, name: &Word) -> Result<Site, Stop>
    ensures site { IfOk result
        (ReadsText site_file name.now (S.state shelf.old) (S.state shelf.new)) }
    ensures valid { IfOk result IsValidSite }
    ensures stop { IfErr result
        (λ stop. IfEarly stop
        (NoText site_file name.now (S.state shelf.old) (S.state shelf.new))) }
{
    let bytes = take_file(alloc, shelf, FileRole::Site, name)?;
    match read_site(alloc, &bytes) {
        Ok(site) => Ok(site),
        Err(SiteFault::Row { row, why }) => Err(Stop::Early(Shown::BadSite { row, why })),
        Err(SiteFault::OutOfMemory) => Err(Stop::OutOfMemory),
    }
}

/// The network of a network file, for a completed case.
pub fn take_network<S: Shelf>(
    alloc: Global,
    shelf: &mut S,
    case: &Case,
    name: &Word,
) -> Result<Network, Stop>
    requires { IsComplete case.now }
    ensures network { IfOk result
        (ReadsText (network_file case.now) name.now (S.state shelf.old) (S.state shelf.new)) }
    ensures shape { IfOk result (HasShape case.now) }
    ensures stop { IfErr result (λ stop. IfEarly stop
        (NoText (network_file case.now) name.now (S.state shelf.old) (S.state shelf.new))) }
{
    let bytes = take_file(alloc, shelf, FileRole::Network, name)?;
    match read_network(alloc, case, &bytes) {
        Ok(network) => Ok(network),
        Err(NetFault::At { line, why }) => Err(Stop::Early(Shown::BadNetwork { line, why })),
        Err(NetFault::OutOfMemory) => Err(Stop::OutOfMemory),
    }
}

/// The report of a report file. Each price is within the limits of a certificate.
pub fn take_report<S: Shelf>(alloc: Global, shelf: &mut S, name: &Word) -> Result<Report, Stop>
    ensures report { IfOk result
        (ReadsText report_file name.now (S.state shelf.old) (S.state shelf.new)) }
    ensures prices { IfOk result HasPartPrices }
    ensures stop { IfErr result (λ stop. IfEarly stop
        (NoText report_file name.now (S.state shelf.old) (S.state shelf.new))) }
{
    let bytes = take_file(alloc, shelf, FileRole::Report, name)?;
    match read_report(alloc, &bytes) {
        Ok(report) => Ok(report),
        Err(ReportFault::At { line, why }) => Err(Stop::Early(Shown::BadReport { line, why })),
        Err(ReportFault::OutOfMemory) => Err(Stop::OutOfMemory),
    }
}

/// The price study of a study file, for a completed case.
pub fn take_study<S: Shelf>(
    alloc: Global,
    shelf: &mut S,
    case: &Case,
    name: &Word,
) -> Result<Study, Stop>
    requires { IsComplete case.now }
    ensures reads { IfOk result
        (ReadsText (study_file case.now) name.now (S.state shelf.old) (S.state shelf.new)) }
    ensures study { IfOk result (IsStudy case.now) }
    ensures stop { IfErr result (λ stop. IfEarly stop
        (NoText (study_file case.now) name.now (S.state shelf.old) (S.state shelf.new))) }
{
    let bytes = take_file(alloc, shelf, FileRole::Study, name)?;
    match read_study(alloc, case, &bytes) {
        Ok(study) => Ok(study),
        Err(StudyFault::Row { row, why }) => Err(Stop::Early(Shown::BadStudy { row, why })),
        Err(StudyFault::OutOfMemory) => Err(Stop::OutOfMemory),
    }
}
