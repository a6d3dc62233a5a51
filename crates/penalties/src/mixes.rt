//! Penalties of mixes.
ghost use Rattle.std.specs.Prelude.{◌≡◌, ◌+◌, ◌<◌, ◌^◌, ◌++◌, IfOk, length};
ghost use Rattle.fractions.specs.Rationals.{minus, plus};
ghost use Rattle.penalties.specs.Answers.{Finds, Formed};
ghost use Rattle.penalties.specs.Rows.{mix_rows};
ghost use Rattle.penalties.specs.Steps.{all_mix_steps, taken_steps};

use crate::heights::Survey;
use crate::list::{Penalty, TooFine};
use fractions::Frac;
use network_audit::Place;
use networks::Line;
use std::alloc::AllocError;

impl<'a> Survey<'a> {
    ghost use Rattle.penalties.specs.Survey.{seen_height, seen_steps};

    /// The height in W that two branches lose in their mix.
    fn mix_penalty(&self, place: Place, first: u32, second: u32, to: u32) -> Result<Frac, TooFine>
        ensures { let height = seen_height self.now in Formed
            (taken_steps height (seen_steps self.now) place first second to)
            (λ value. value ≡ minus (plus (height first) (height second)) (height to))
            result }
    {
        let one = self.height(place, 1, first)?;
        let other = self.height(place, 3, second)?;
        let mixed = self.height(place, 5, to)?;
        let Some(both) = one.plus(&other) else {
            return Err(TooFine { place, step: 7 });
        };
        match both.minus(&mixed) {
            Some(penalty) => Ok(penalty),
            None => Err(TooFine { place, step: 8 }),
        }
    }

    /// Lists the penalties of the mixes in order, up to the first step that is too fine.
    pub fn add_mixes(
        &self,
        lines: &[Line],
        list: &mut Vec<Penalty>,
    ) -> Result<Option<TooFine>, AllocError>
        requires { length lines.now + 1 < 2 ^ 32 }
        ensures { IfOk result (Finds
            (all_mix_steps (seen_height self.now) (seen_steps self.now) lines.now)
            (list.new.items ≡ list.old.items ++ mix_rows (seen_height self.now) lines.now)) }
    {
        for (index, line) in lines.iter().enumerate() {
            if let Line::Mix { first, second, to } = *line {
                let place = Place::Line(index as u32 + 1);
                match self.mix_penalty(place, first, second, to) {
                    Ok(value) => list.push(Penalty { place, value })?,
                    Err(found) => return Ok(Some(found)),
                }
            }
        }
        Ok(None)
    }
}
