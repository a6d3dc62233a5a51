//! Penalties of exchangers.
ghost use Rattle.std.specs.Prelude.{◌≡◌, ◌+◌, ◌<◌, ◌^◌, ◌++◌, IfOk, length};
ghost use Rattle.fractions.specs.Rationals.{minus};
ghost use Rattle.penalties.specs.Answers.{Finds, Formed};
ghost use Rattle.penalties.specs.Steps.{absorbed_steps, loss_steps, released_steps};
ghost use Rattle.penalties.specs.Tables.{absorbed_by, all_joint_steps, joint_penalty, joint_rows, joint_steps, released_by};

use crate::heights::Survey;
use crate::list::{Penalty, TooFine};
use fractions::Frac;
use network_audit::{Crossing, Joint, Place};
use std::alloc::AllocError;
use stream_case::Source;

impl<'a> Survey<'a> {
    ghost use Rattle.penalties.specs.Survey.{seen_height, seen_steps};

    /// The height in W of one branch less that of another, from this step on.
    fn loss(&self, place: Place, step: u32, first: u32, second: u32) -> Result<Frac, TooFine>
        requires { step + 4 < 2 ^ 32 }
        ensures { Formed
            (loss_steps (seen_height self.now) (seen_steps self.now) place step first second)
            (λ loss. loss ≡ minus (seen_height self.now first) (seen_height self.now second))
            result }
    {
        let high = self.height(place, step, first)?;
        let low = self.height(place, step + 2, second)?;
        let step = step + 4;
        match high.minus(&low) {
            Some(loss) => Ok(loss),
            None => Err(TooFine { place, step }),
        }
    }

    /// What the hot side of an exchanger releases above the reference place, in W: a stream the
    /// height that its branch loses, a utility the whole duty.
    fn released(&self, place: Place, joint: &Joint) -> Result<Frac, TooFine>
        ensures { let height = seen_height self.now in Formed
            (released_steps height (seen_steps self.now) place joint.now.hot joint.now.given)
            (λ heat. heat ≡ released_by height joint.now.duty joint.now.hot joint.now.given)
            result }
    {
        if let Source::Utility(_) = joint.hot {
            return Ok(joint.duty);
        }
        match joint.given {
            Some(Crossing { from, to }) => self.loss(place, 1, from, to),
            None => Ok(Frac::whole(0)),
        }
    }

    /// What the cold side of an exchanger absorbs above the reference place, in W: a stream the
    /// height that its branch gains, a utility nothing.
    fn absorbed(&self, place: Place, joint: &Joint) -> Result<Frac, TooFine>
        ensures { let height = seen_height self.now in Formed
            (absorbed_steps height (seen_steps self.now) place joint.now.cold joint.now.taken)
            (λ heat. heat ≡ absorbed_by height joint.now.cold joint.now.taken)
            result }
    {
        if let Source::Utility(_) = joint.cold {
            return Ok(Frac::whole(0));
        }
        match joint.taken {
            Some(Crossing { from, to }) => self.loss(place, 6, to, from),
            None => Ok(Frac::whole(0)),
        }
    }

    /// The penalty of an exchanger, in W.
    fn exchanger_penalty(&self, number: u32, joint: &Joint) -> Result<Frac, TooFine>
        ensures { Formed
            (joint_steps (seen_height self.now) (seen_steps self.now) (number, joint.now))
            (λ value. value ≡ joint_penalty (seen_height self.now) joint.now)
            result }
    {
        let place = Place::Exchanger(number);
        let released = self.released(place, joint)?;
        let absorbed = self.absorbed(place, joint)?;
        match released.minus(&absorbed) {
            Some(penalty) => Ok(penalty),
            None => Err(TooFine { place, step: 11 }),
        }
    }

    /// Lists the penalties of the exchangers in order, up to the first step that is too fine.
    pub fn add_exchangers(
        &self,
        joints: &[Joint],
        list: &mut Vec<Penalty>,
    ) -> Result<Option<TooFine>, AllocError>
        requires { length joints.now < 2 ^ 32 }
        ensures { IfOk result (Finds
            (all_joint_steps (seen_height self.now) (seen_steps self.now) joints.now)
            (list.new.items ≡ list.old.items ++ joint_rows (seen_height self.now) joints.now)) }
    {
        for (number, joint) in joints.iter().enumerate() {
            let number = number as u32;
            let place = Place::Exchanger(number);
            match self.exchanger_penalty(number, joint) {
                Ok(value) => list.push(Penalty { place, value })?,
                Err(found) => return Ok(Some(found)),
            }
        }
        Ok(None)
    }
}
