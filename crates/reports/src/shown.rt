//! All that the program can show.

use case_text::CaseWhy;
use certify::{NoWhy, ReportWhy};
use curves::Point;
use grid::Parts;
use heat_flow::{Cut, Flow, Prices};
use network_audit::{Balance, Place, Reason};
use network_text::{NetWhy, Network};
use penalties::PenaltyList;
use problem_table::Target;
use site::{Site, SiteTable, SiteWhy};
use stream_case::{Case, Items};
use study::{Study, StudyAnswer, StudyWhy, SweepRow};
use transport::Answer;

/// What a file is to a command.
#[derive(Clone, Copy, Debug, PartialEq, Eq)]
pub enum FileRole {
    Case,
    Network,
    Site,
    Report,
    Study,
}

/// What is printed. Everything that a text says of a case is carried here, so that a contract
/// can say of each text which values it shows.
#[derive(Debug, Drop)]
pub enum Shown {
    /// The least hot and cold utility in W, and the pinches as shifted temperatures in tenths
    /// of °C, from the highest down.
    Targets {
        targets: Target,
        pinches: Items<i32>,
    },
    /// A heat flow between the parts of the completed case, with prices of the parts that
    /// prove it least: its cost is their value.
    Flow {
        case: Case,
        parts: Parts,
        flow: Flow,
        prices: Prices,
        cost: i128,
    },
    /// There is no heat flow between the parts of the completed case: parts of one side that need
    /// more heat, in W, than the other side has on offer for them.
    Stuck {
        case: Case,
        parts: Parts,
        cut: Cut,
    },
    /// The hot and the cold composite curve, rising by actual temperature, and the grand
    /// composite curve, falling by shifted temperature.
    Curves {
        hot: Items<Point>,
        cold: Items<Point>,
        net: Items<Point>,
    },
    /// A network of the completed case, with what it needs and costs.
    Design {
        case: Case,
        network: Network,
        balance: Balance,
    },
    /// The network is valid for the completed case: what it needs and costs, the reference place
    /// of the case as a shifted temperature in tenths of °C, the least cost of the heat flows of
    /// the case in price units times W, which no network of it is below, and where it loses its
    /// heat.
    Accepted {
        case: Case,
        network: Network,
        balance: Balance,
        place: i32,
        floor: i128,
        penalties: PenaltyList,
    },
    /// The network is not valid for the completed case: where it fails first, and why.
    Rejected {
        case: Case,
        network: Network,
        place: Place,
        reason: Reason,
    },
    /// The audit of the network for the completed case would form a number that is not within
    /// the limits of a fraction: where, and at which step, counted from 1.
    TooFine {
        case: Case,
        network: Network,
        place: Place,
        step: u32,
    },
    /// The places, parts and reach of the site; what its plants can take above each place and give
    /// below it, in W; and the heat flow of the least boiler heat between its parts with prices that
    /// prove it, or a cut where there is none.
    SiteShown {
        site: Site,
        parts: SiteTable,
        sinks: Items<i64>,
        sources: Items<i64>,
        answer: Answer,
    },
    /// The rows of a sweep, in rising contribution.
    Sweep {
        rows: Items<SweepRow>,
    },
    /// The least hot and cold utility of a completed sample in W, and the least cost of a heat flow.
    Sample {
        hot: i64,
        cold: i64,
        cost: i128,
    },
    /// The report proves what it says of the completed case: the least cost, or nothing where there
    /// is no heat flow.
    Certified {
        cost: Option<i128>,
    },
    /// The report proves nothing of the completed case: its first check that fails.
    NotCertified {
        why: NoWhy,
    },
    /// The answers to a price study of the completed case, one for each item.
    Prices {
        case: Case,
        study: Study,
        answers: Items<StudyAnswer>,
    },
    /// The words are no command.
    BadWords,
    /// The case file is refused: the row, counted from 1, and what is to be mended there.
    BadCase {
        row: u32,
        why: CaseWhy,
    },
    /// The completed case is not standard, and the command is for standard cases alone.
    NotStandard,
    /// The case has latent streams, and the command is for sensible ones alone.
    Latent,
    /// The site file is refused: the row, counted from 1, and what is to be mended there.
    BadSite {
        row: u32,
        why: SiteWhy,
    },
    /// The network file is refused: the statement, counted from 1, and what is to be mended there.
    BadNetwork {
        line: u32,
        why: NetWhy,
    },
    /// The report is refused: the statement, counted from 1, and what is to be mended there.
    BadReport {
        line: u32,
        why: ReportWhy,
    },
    /// The study file is refused: the row, counted from 1, and what is to be mended there.
    BadStudy {
        row: u32,
        why: StudyWhy,
    },
    /// The file is longer than the limit.
    TooLong {
        file: FileRole,
    },
    /// The file could not be read.
    ReadFault {
        file: FileRole,
    },
}

impl Shown {
    /// Drops what is shown. Its drop has an arm for each variant, and is proved anew wherever it
    /// stands: who has one left calls this in its place.
    pub fn discard(self) {}
}
