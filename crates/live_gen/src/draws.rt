ghost use Rattle.std.specs.Prelude.{◌≡◌, ◌≤◌, ◌<◌, ◌+◌, ◌-◌, ◌^◌};
ghost use Rattle.live_gen.specs.Draws.{draw_of, draws_after};

use std::marker::Model;

/// Numbers that are drawn from a number, one after the other.
#[derive(Drop)]
pub(crate) struct Draws {
    number: u32,
    made: u32,
    /// What the generator holds: less than 2^31.
    state: u64,
}

impl Model for Draws {
    ghost use Rattle.std.specs.Coded.{codes};
    ghost use Rattle.std.specs.Prelude.{◌≡◌};
    ghost use Rattle.live_gen.specs.Draws.{DrawsValue, draws_after, state_after};

    ghost Value = { DrawsValue };

    ghost coded = { Prim.hlevel codes };

    ghost view = { λ d. draws_after d.number d.made };

    ghost invariant = { λ d. d.state ≡ state_after d.number d.made };
}

impl Draws {
    /// The draws of a number, of which none was made.
    pub(crate) fn of(number: u32) -> Draws
        ensures { result ≡ draws_after number 0 }
    {
        Draws {
            number,
            made: 0,
            state: u64::from(number) % (1 << 31),
        }
    }

    /// Draws one of the numbers below a limit.
    pub(crate) fn next(&mut self, limit: u32) -> u32
        requires some { 1 ≤ limit }
        requires room { self.old.made < 2 ^ 32 - 1 }
        ensures drawn { result ≡ draw_of self.old.number (self.old.made + 1) limit }
        ensures below { result < limit }
        ensures one { self.new ≡ draws_after self.old.number (self.old.made + 1) }
    {
        self.state = (self.state * 1_103_515_245 + 12_345) % (1 << 31);
        self.made += 1;
        (self.state / 65_536 % u64::from(limit)) as u32
    }
}
