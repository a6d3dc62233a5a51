//! The least cost of a case over the price of one of its utilities.
ghost use Rattle.std.specs.Prelude.{◌≡◌, ◌<◌, [], ◌∷◌, ◌++◌, length, All, IfOk, OnErr, OnOk};
ghost use Rattle.stream_case.specs.Limits.{IsPrice};

use crate::priced::PricedCase;
use std::alloc::{AllocError, Global};
use std::marker::Model;

/// A price, and what the case costs at least there.
#[derive(Clone, Copy)]
pub(crate) struct Point {
    pub price: i64,
    pub cost: i128,
}

/// The least cost of a completed case that has a heat flow, over the price of one utility, and
/// points of it that were found ahead of where they are wanted.
#[derive(Drop)]
pub(crate) struct CostCurve<'a> {
    priced: PricedCase<'a>,
    /// The utility, by its index.
    utility: u32,
    /// The nearest one is the last.
    ahead: Vec<Point>,
}

impl<'a> Model for CostCurve<'a> {
    ghost use Rattle.study.specs.CostCurve.{IsCostCurve, KnownCurve};

    ghost Value = { KnownCurve };

    ghost view = { λ c. record {
      curve = record { case = c.priced.case.now; utility = c.utility };
      ahead = c.ahead.items;
    } };

    ghost invariant = { λ c. IsCostCurve c.priced c.utility c.ahead.items };
}

impl<'a> CostCurve<'a> {
    ghost use Rattle.study.specs.CostCurve.{HasFlowWith, IsPointOf, IsTaken};
    ghost use Rattle.study.specs.PricedCase.{IsPricedCase};

    /// The curve of a case, without a point ahead.
    pub fn new(alloc: Global, priced: &PricedCase<'a>, utility: u32) -> CostCurve<'a>
        requires priced { IsPricedCase priced.now }
        requires utility { utility < length priced.now.case.now.utilities }
        requires flow { HasFlowWith priced.now.case.now utility }
        ensures curve { result.curve
            ≡ record { case = priced.now.case.now; utility = utility } }
        ensures ahead { result.ahead ≡ [] }
    {
        CostCurve {
            priced: *priced,
            utility,
            ahead: Vec::new(alloc),
        }
    }

    /// The points ahead.
    pub fn ahead(&self) -> &[Point]
        ensures value { result.now ≡ self.now.ahead }
        ensures points { All (IsPointOf self.now.curve) result.now }
    {
        self.ahead.as_slice()
    }

    /// Puts a point before those ahead: it is the nearest one.
    pub fn keep(&mut self, point: Point) -> Result<(), AllocError>
        requires { IsPointOf self.old.curve point }
        ensures same { self.new.curve ≡ self.old.curve }
        ensures kept { OnOk result (self.new.ahead ≡ self.old.ahead ++ point ∷ []) }
        ensures as_before { OnErr result (self.new.ahead ≡ self.old.ahead) }
    {
        self.ahead.push(point)?;
        Ok(())
    }

    /// A point at a price that is not among those ahead.
    fn new_point(&self, alloc: Global, price: i64) -> Result<Point, AllocError>
        requires { IsPrice price }
        ensures price { IfOk result (λ point. point.price ≡ price) }
        ensures point { IfOk result (IsPointOf self.now.curve) }
    {
        match self.priced.cost_with(alloc, self.utility, price)? {
            Some(cost) => Ok(Point { price, cost }),
            None => unreachable!(),
        }
    }

    /// The point at a price: the nearest of those ahead, which is then no longer ahead, or a new
    /// one.
    pub fn take_point(&mut self, alloc: Global, price: i64) -> Result<Point, AllocError>
        requires { IsPrice price }
        ensures price { IfOk result (λ point. point.price ≡ price) }
        ensures point { IfOk result (IsPointOf self.old.curve) }
        ensures same { self.new.curve ≡ self.old.curve }
        ensures taken { IfOk result (λ point. IsTaken self.old.ahead point self.new.ahead) }
    {
        match self.ahead.last().copied() {
            Some(point) if point.price == price => {
                self.ahead.pop();
                Ok(point)
            }
            _ => self.new_point(alloc, price),
        }
    }
}
