//! How many levels of a type that contains itself may follow.

ghost use Rattle.std.specs.Prelude.{◌≡◌, ℕ, suc, min};
ghost use Rattle.nano_levels.specs.Chains.{left};

use Levels::{More, Out};

/// How many levels may follow: what a reader of a type that contains itself counts down. It is a
/// chain among the program's constants, so counting down takes no memory, and a reader that goes
/// down it ends.
pub enum Levels {
    /// None.
    Out,
    /// One, and as many more as the first of these has.
    More(&'static [Levels]),
}

const LEVELS_0: [Levels; 1] = [Out];

const LEVELS_8: [Levels; 1] = [More(&[More(&[More(&[More(&[More(&[More(&[More(&[More(
    &LEVELS_0,
)])])])])])])])];

const LEVELS_16: [Levels; 1] = [More(&[More(&[More(&[More(&[More(&[More(&[More(&[More(
    &LEVELS_8,
)])])])])])])])];

const LEVELS_24: [Levels; 1] = [More(&[More(&[More(&[More(&[More(&[More(&[More(&[More(
    &LEVELS_16,
)])])])])])])])];

const LEVELS_32: [Levels; 1] = [More(&[More(&[More(&[More(&[More(&[More(&[More(&[More(
    &LEVELS_24,
)])])])])])])])];

const LEVELS_40: [Levels; 1] = [More(&[More(&[More(&[More(&[More(&[More(&[More(&[More(
    &LEVELS_32,
)])])])])])])])];

const LEVELS_48: [Levels; 1] = [More(&[More(&[More(&[More(&[More(&[More(&[More(&[More(
    &LEVELS_40,
)])])])])])])])];

const LEVELS_56: [Levels; 1] = [More(&[More(&[More(&[More(&[More(&[More(&[More(&[More(
    &LEVELS_48,
)])])])])])])])];

const LEVELS_64: [Levels; 1] = [More(&[More(&[More(&[More(&[More(&[More(&[More(&[More(
    &LEVELS_56,
)])])])])])])])];

const LEVELS_72: [Levels; 1] = [More(&[More(&[More(&[More(&[More(&[More(&[More(&[More(
    &LEVELS_64,
)])])])])])])])];

const LEVELS_80: [Levels; 1] = [More(&[More(&[More(&[More(&[More(&[More(&[More(&[More(
    &LEVELS_72,
)])])])])])])])];

const LEVELS_88: [Levels; 1] = [More(&[More(&[More(&[More(&[More(&[More(&[More(&[More(
    &LEVELS_80,
)])])])])])])])];

const LEVELS_96: [Levels; 1] = [More(&[More(&[More(&[More(&[More(&[More(&[More(&[More(
    &LEVELS_88,
)])])])])])])])];

const LEVELS_104: [Levels; 1] = [More(&[More(&[More(&[More(&[More(&[More(&[More(&[More(
    &LEVELS_96,
)])])])])])])])];

const LEVELS_112: [Levels; 1] = [More(&[More(&[More(&[More(&[More(&[More(&[More(&[More(
    &LEVELS_104,
)])])])])])])])];

const LEVELS_120: [Levels; 1] = [More(&[More(&[More(&[More(&[More(&[More(&[More(&[More(
    &LEVELS_112,
)])])])])])])])];

static LEVELS_128: [Levels; 1] = [More(&[More(&[More(&[More(&[More(&[More(&[More(&[More(
    &LEVELS_120,
)])])])])])])])];

impl Levels {
    /// 128 levels, the most that may follow.
    pub fn most() -> &'static Levels
        ensures { left result.now ≡ 128 }
    {
        &LEVELS_128[0]
    }

    /// As many levels as `limit` says, or 128 where that is less.
    pub fn at_most(limit: usize) -> &'static Levels
        ensures { left result.now ≡ min limit 128 }
    {
        let mut levels = Levels::most();
        let mut count: usize = 128;
        while count > limit {
            levels = levels.below();
            count -= 1;
        }
        levels
    }

    /// One level fewer, or none where there is none.
    fn below(&'static self) -> &'static Levels
        ensures { (n : ℕ) → left self.now ≡ suc n → left result.now ≡ n }
    {
        match self {
            Out => self,
            More(below) => below.first().unwrap_or(self),
        }
    }
}
