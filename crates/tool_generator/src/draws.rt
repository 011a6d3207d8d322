ghost use Rattle.std.specs.Prelude.{◌≡◌};
ghost use Rattle.tool_generator.specs.Draws.{draw, gain_of, initial_of, signs_of, state_after};

/// Numbers drawn one after another: each is made from the one before it.
#[derive(Drop)]
pub(crate) struct Draws {
    pub(crate) state: u32,
}

impl Draws {
    /// The next number.
    pub(crate) fn next(&mut self) -> u32
        ensures drawn { result ≡ draw self.old.state }
        ensures state { self.new.state ≡ draw self.old.state }
    {
        self.state = (u64::from(self.state) * 48_271 % 2_147_483_647) as u32;
        self.state
    }

    /// Passes over so many numbers.
    pub(crate) fn skip(&mut self, count: u32)
        ensures { self.new.state ≡ state_after self.old.state count }
    {
        for _k in 0..count {
            self.next();
        }
    }
}

/// What is drawn for a subsystem: a gain, the signs of a sum, and the initial condition of a delay.
#[derive(Drop)]
pub(crate) struct Drawn {
    pub(crate) gain: u32,
    pub(crate) signs: &'static str,
    pub(crate) initial: u32,
}

impl Drawn {
    /// What the next three numbers give.
    pub(crate) fn next(draws: &mut Draws) -> Drawn
        ensures gain { result.gain ≡ gain_of (draw draws.old.state) }
        ensures signs { result.signs.now ≡ signs_of (draw (draw draws.old.state)) }
        ensures initial { result.initial ≡ initial_of (draw (draw (draw draws.old.state))) }
        ensures state { draws.new.state ≡ draw (draw (draw draws.old.state)) }
    {
        let gain = 1 + draws.next() % 7;
        let signs = if draws.next() % 2 == 0 { "++" } else { "+-" };
        let initial = draws.next() % 100;
        Drawn {
            gain,
            signs,
            initial,
        }
    }
}
