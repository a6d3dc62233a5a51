//! Sums that are formed step by step.
ghost use Rattle.std.specs.Prelude.{◌≡◌, ◌+◌, ◌<◌, ◌^◌, ◌∷◌, []};
ghost use Rattle.fractions.specs.Rationals.{plus, rational_zero};
ghost use Rattle.network_audit.specs.Answers.{Formed};
ghost use Rattle.network_audit.specs.Items.{Step};

use fractions::Frac;

/// A sum, and the number of the step that formed it.
#[derive(Clone, Copy)]
pub(crate) struct Sum {
    pub total: Frac,
    pub steps: u32,
}

impl Sum {
    /// Nothing yet, where so many steps were taken before.
    pub fn after(steps: u32) -> Sum
        ensures { result ≡ record { total = rational_zero; steps = steps } }
    {
        Sum {
            total: Frac::whole(0),
            steps,
        }
    }

    /// The sum with one number more, or the number of this step where it is too fine.
    pub fn plus(&self, number: &Frac) -> Result<Sum, u32>
        requires { self.now.steps + 1 < 2 ^ 32 }
        ensures { Formed
            (λ at. Step at (self.now.steps + 1) (plus self.now.total number.now) ∷ [])
            (λ sum. sum ≡ record {
              total = plus self.now.total number.now;
              steps = self.now.steps + 1;
            })
            result }
    {
        let steps = self.steps + 1;
        let Some(total) = self.total.plus(number) else {
            return Err(steps);
        };
        Ok(Sum { total, steps })
    }
}
