//! The exit statuses of the program.
ghost use Rattle.std.specs.Prelude.{◌≡◌};
ghost use Rattle.commands.specs.Status.{number_of, status_of, status_of_site};

use reports::Shown;
use transport::Answer;

/// How the program ends.
#[derive(Clone, Copy, Debug, PartialEq, Eq)]
pub enum Status {
    /// The command is answered.
    Answered,
    /// The command is answered, and the answer is no.
    AnsweredNo,
    /// The words are no command.
    NoCommand,
    /// The case file or the site file is refused, or the case is not standard or has latent streams
    /// where the command is for none of these.
    CaseRefused,
    /// The network file, the report or the study file is refused.
    NetworkRefused,
    /// A file is longer than the limit.
    TooLong,
    /// A file could not be read.
    ReadFault,
    /// The text of what is shown could not be written whole.
    WriteFault,
    /// There was not memory enough, and nothing was written.
    OutOfMemory,
    /// The numbers of the network become too fine for its audit.
    TooFine,
}

impl Status {
    /// The number of the status, as the program ends with it.
    pub fn number(self) -> u8
        ensures { result ≡ number_of self }
    {
        match self {
            Status::Answered => 0,
            Status::AnsweredNo => 1,
            Status::NoCommand => 2,
            Status::CaseRefused => 3,
            Status::NetworkRefused => 4,
            Status::TooLong => 5,
            Status::ReadFault => 6,
            Status::WriteFault => 7,
            Status::OutOfMemory => 8,
            Status::TooFine => 9,
        }
    }
}

/// The status of what is shown, where all of its text was written.
pub fn status_of(shown: &Shown) -> Status
    ensures { result ≡ status_of shown.now }
{
    match shown {
        Shown::Targets { .. }
        | Shown::Flow { .. }
        | Shown::Curves { .. }
        | Shown::Design { .. }
        | Shown::Accepted { .. }
        | Shown::Sweep { .. }
        | Shown::Sample { .. }
        | Shown::Certified { .. }
        | Shown::Prices { .. } => Status::Answered,
        Shown::Stuck { .. } | Shown::Rejected { .. } | Shown::NotCertified { .. } => {
            Status::AnsweredNo
        }
        Shown::SiteShown { answer, .. } => status_of_site(answer),
        Shown::TooFine { .. } => Status::TooFine,
        Shown::BadWords => Status::NoCommand,
        Shown::BadCase { .. } | Shown::BadSite { .. } | Shown::NotStandard | Shown::Latent => {
            Status::CaseRefused
        },
        Shown::BadNetwork { .. } | Shown::BadReport { .. } | Shown::BadStudy { .. } => {
            Status::NetworkRefused
        }
        Shown::TooLong { .. } => Status::TooLong,
        Shown::ReadFault { .. } => Status::ReadFault,
    }
}

/// The status of a site with this answer.
fn status_of_site(answer: &Answer) -> Status
    ensures { result ≡ status_of_site answer.now }
{
    match answer {
        Answer::Least { .. } => Status::Answered,
        Answer::Stuck(_) => Status::AnsweredNo,
    }
}
