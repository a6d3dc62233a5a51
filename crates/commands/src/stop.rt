//! Why a command ends early.

use crate::forms::NoCommand;
use reports::Shown;
use std::alloc::AllocError;

/// Why a command ends early: with something to show, or for want of memory.
#[derive(Drop)]
pub enum Stop {
    Early(Shown),
    OutOfMemory,
}

impl Stop {
    ghost use Rattle.std.specs.Prelude.{◌≡◌, MatchResult};
    ghost use Rattle.commands.specs.declared.stop.Stop.TheVariants.{Early, OutOfMemory};

    /// What is shown early, or that memory was wanted. No memory is taken.
    pub fn into_shown(self) -> Result<Shown, AllocError>
        ensures { MatchResult result (λ shown. self ≡ Early shown) (λ _. self ≡ OutOfMemory) }
    {
        match self {
            Stop::Early(shown) => Ok(shown),
            Stop::OutOfMemory => Err(AllocError),
        }
    }
}

impl From<AllocError> for Stop {
    ghost use Rattle.std.specs.Prelude.{◌≡◌};
    ghost use Rattle.commands.specs.declared.stop.Stop.TheVariants.{OutOfMemory};

    ghost from_gives = { λ _ stop. stop ≡ OutOfMemory };

    fn from(_: AllocError) -> Self {
        Stop::OutOfMemory
    }
}

impl From<NoCommand> for Stop {
    ghost use Rattle.std.specs.Prelude.{◌≡◌};
    ghost use Rattle.commands.specs.declared.stop.Stop.TheVariants.{Early};
    ghost use Rattle.reports.specs.declared.shown.Shown.TheVariants.{BadWords};

    ghost from_gives = { λ _ stop. stop ≡ Early BadWords };

    fn from(_: NoCommand) -> Self {
        Stop::Early(Shown::BadWords)
    }
}
