ghost use Rattle.std.specs.Prelude.{◌<◌};

use std::marker::Model;

/// A sample time in base ticks: the ticks t with t mod period = offset.
#[derive(Clone, Copy, Debug, PartialEq, Eq, Drop)]
pub struct Time {
    /// The period in base ticks.
    pub period: u32,
    /// The first tick.
    pub offset: u32,
    pub ghost in_period: { offset < period },
}

/// The sample time of each row, whether it is a delay between rates, and the cycle after which all hits repeat.
#[derive(Drop)]
pub struct Times {
    /// The sample time of each row.
    pub run: Vec<Time>,
    /// Whether a row is a RateTransition that delays.
    pub delays: Vec<bool>,
    /// After so many base ticks all hits repeat.
    pub hyper: u32,
}

impl Model for Times {
    ghost use Rattle.diagram_meaning.specs.RowTimes.{RowTimes};

    ghost Value = { RowTimes };

    ghost view = { λ t. record { run = t.run.items; delays = t.delays.items; hyper = t.hyper } };
}
