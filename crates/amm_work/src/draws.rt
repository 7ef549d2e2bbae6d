//! What is drawn for a line.
ghost use Rattle.std.specs.Prelude.{◌≡◌, ◌<◌, ◌^◌};
ghost use Rattle.amm_work.specs.Draws.{draws_from, drawn, kind_of, next_state, state_after};
ghost use Rattle.amm_work.specs.Commands.{later_from, line_from};

use crate::work_line::WorkLine;

/// The multiplier and the increment of Knuth's generator for MMIX.
const MULTIPLIER: u64 = 6364136223846793005;

const INCREMENT: u64 = 1442695040888963407;

/// A kind of line that is drawn.
#[derive(Clone, Copy, PartialEq, Eq, Debug, Drop)]
pub enum Kind {
    SwapIn,
    SwapOut,
    /// A swap by way of a third token.
    SwapThrough,
    Add,
    Remove,
    Time,
    /// A loan that is paid back.
    Flash,
    Transfer,
    Balance,
    Pool,
}

impl Kind {
    /// The kind for a number below 16; swaps are the most frequent.
    fn of(k: u64) -> Kind
        ensures { result ≡ kind_of k }
    {
        match k {
            0..=5 => Kind::SwapIn,
            6 | 7 => Kind::SwapOut,
            8 => Kind::SwapThrough,
            9 => Kind::Add,
            10 => Kind::Remove,
            11 => Kind::Time,
            12 => Kind::Flash,
            13 => Kind::Transfer,
            14 => Kind::Balance,
            _ => Kind::Pool,
        }
    }
}

/// What is drawn for one line: users and tokens are numbers below 4, the two tokens differ, and the
/// amount is 1 to 1000000.
#[derive(Clone, Copy, PartialEq, Eq, Debug, Drop)]
pub struct Draws {
    pub kind: Kind,
    pub user: u8,
    pub a: u8,
    pub b: u8,
    pub n: u32,
}

/// The state that the lines are drawn from.
#[derive(Drop)]
pub struct Generator {
    pub state: u64,
}

impl Generator {
    /// Draws a number below `m`: the upper bits of the next state, which are the better ones.
    #[tactic(auto, unfolding(crate::specs::Draws::next_state))]
    fn draw(&mut self, m: u64) -> u64
        requires { 0 < m }
        ensures state { self.new.state ≡ next_state self.old.state }
        ensures drawn { result ≡ drawn (next_state self.old.state) m }
    {
        self.state = self.state.wrapping_mul(MULTIPLIER).wrapping_add(INCREMENT);
        (self.state >> 33) % m
    }

    /// Draws for one line: the same five draws whatever the kind.
    #[tactic(auto, unfolding(crate::specs::Draws::draws_from))]
    fn draws(&mut self) -> Draws
        ensures draws { result ≡ draws_from self.old.state }
        ensures state { self.new.state ≡ state_after 5 self.old.state }
    {
        let kind = Kind::of(self.draw(16));
        let user = self.draw(4);
        let a = self.draw(4);
        let behind = self.draw(3);
        let n = 1 + self.draw(1000000);
        Draws {
            kind,
            user: user as u8,
            a: a as u8,
            b: ((a + 1 + behind) % 4) as u8,
            n: n as u32,
        }
    }

    /// The line with this number, counted from 0.
    #[tactic(auto, unfolding(crate::specs::Commands::line_from))]
    pub fn line(&mut self, number: u64) -> WorkLine
        requires { number < 2 ^ 32 }
        ensures line { result ≡ (line_from self.old.state number).0 }
        ensures state { self.new.state ≡ (line_from self.old.state number).1 }
    {
        match number {
            0..=15 => {
                WorkLine::Deposit {
                    user: (number / 4) as u8,
                    token: (number % 4) as u8,
                }
            }
            16 => WorkLine::FirstAdd { a: 0, b: 1 },
            17 => WorkLine::FirstAdd { a: 0, b: 2 },
            18 => WorkLine::FirstAdd { a: 0, b: 3 },
            19 => WorkLine::FirstAdd { a: 1, b: 2 },
            20 => WorkLine::FirstAdd { a: 1, b: 3 },
            21 => WorkLine::FirstAdd { a: 2, b: 3 },
            _ => self.later_line(number),
        }
    }

    /// A line behind the opening. A split is followed by the certificate of its quote.
    #[tactic(auto, unfolding(crate::specs::Commands::later_from))]
    fn later_line(&mut self, number: u64) -> WorkLine
        requires { number < 2 ^ 32 }
        ensures line { result ≡ (later_from self.old.state number).0 }
        ensures state { self.new.state ≡ (later_from self.old.state number).1 }
    {
        match number % 1000 {
            500 => WorkLine::Split {
                amount: 1000000 + number,
            },
            501 => WorkLine::Certificate {
                quote: number / 1000 + 1,
            },
            _ => WorkLine::Drawn {
                number,
                draws: self.draws(),
            },
        }
    }
}
