//! The least cost of a case at other prices of its utilities.
ghost use Rattle.std.specs.Prelude.{◌≡◌, ◌<◌, length, All, IfOk, IfSome};
ghost use Rattle.stream_case.specs.Limits.{IsPrice};
ghost use Rattle.study.specs.Priced.{priced, priced_part, prices_with};

use grid::{Part, Parts};
use std::alloc::{AllocError, Global};
use stream_case::{Case, Items, Source};
use study_text::case_prices;
use transport::{Answer, CaseNet};

/// A completed case with its parts and their net, all made once for many prices of its utilities.
#[derive(Clone, Copy)]
pub(crate) struct PricedCase<'a> {
    pub case: &'a Case,
    pub parts: &'a Parts,
    pub net: &'a CaseNet,
}

/// The part at these prices of the utilities.
fn priced_part(prices: &[i64], part: &Part) -> Part
    ensures { result ≡ priced_part prices.now part.now }
{
    match part.source {
        Source::Stream(_) => *part,
        Source::Utility(index) => Part {
            price: prices.get(index as usize).copied().unwrap_or(0),
            ..*part
        },
    }
}

/// The parts of a side at these prices of the utilities.
fn priced(alloc: Global, prices: &[i64], parts: &[Part]) -> Result<Vec<Part>, AllocError>
    ensures { IfOk result (λ made. made.items ≡ priced prices.now parts.now) }
{
    parts
        .iter()
        .map(|part| priced_part(prices, part))
        .collect(alloc)
}

/// The parts of both sides at these prices of the utilities.
fn priced_parts(alloc: Global, prices: &[i64], parts: &Parts) -> Result<Parts, AllocError>
    requires { All IsPrice prices.now }
    ensures hot { IfOk result (λ made. made.hot ≡ priced prices.now parts.now.hot) }
    ensures cold { IfOk result (λ made. made.cold ≡ priced prices.now parts.now.cold) }
{
    let hot = priced(alloc, prices, parts.hot.as_slice())?;
    let cold = priced(alloc, prices, parts.cold.as_slice())?;
    Ok(Parts {
        hot: Items::from_vec(hot),
        cold: Items::from_vec(cold),
    })
}

/// The prices of the case with this price of one utility, by its index.
fn prices_with(alloc: Global, case: &Case, utility: u32, price: i64) -> Result<Vec<i64>, AllocError>
    requires { utility < length case.now.utilities }
    ensures { IfOk result (λ prices. prices.items ≡ prices_with case.now utility price) }
{
    let mut prices = case_prices(alloc, case)?;
    prices[utility as usize] = price;
    Ok(prices)
}

impl<'a> PricedCase<'a> {
    ghost use Rattle.study.specs.Priced.{IsCostAt};
    ghost use Rattle.study.specs.PricedCase.{IsPricedCase};
    ghost use Rattle.study.specs.CostRange.{IsCost};

    /// The least cost of the heat flows of the case at these prices of its utilities, or none
    /// exactly where it has no heat flow.
    pub fn cost_at(&self, alloc: Global, prices: &[i64]) -> Result<Option<i128>, AllocError>
        requires priced { IsPricedCase self.now }
        requires prices { All IsPrice prices.now }
        ensures cost { IfOk result (IsCostAt self.now.case.now prices.now) }
        ensures range { IfOk result (λ cost. IfSome cost IsCost) }
    {
        let priced = priced_parts(alloc, prices, self.parts)?;
        match self.net.answer(alloc, self.case, &priced)? {
            Answer::Least { cost, .. } => Ok(Some(cost)),
            Answer::Stuck(_) => Ok(None),
        }
    }

    /// The least cost of the heat flows of the case with this price of one utility, by its index,
    /// or none exactly where it has no heat flow.
    pub fn cost_with(
        &self,
        alloc: Global,
        utility: u32,
        price: i64,
    ) -> Result<Option<i128>, AllocError>
        requires priced { IsPricedCase self.now }
        requires utility { utility < length self.now.case.now.utilities }
        requires price { IsPrice price }
        ensures cost { IfOk result
            (IsCostAt self.now.case.now (prices_with self.now.case.now utility price)) }
        ensures range { IfOk result (λ cost. IfSome cost IsCost) }
    {
        let prices = prices_with(alloc, self.case, utility, price)?;
        self.cost_at(alloc, prices.as_slice())
    }
}
