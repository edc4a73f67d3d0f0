// Levels. A level is a u16: its rank is the number / 256, its categories are the low 8 bits, one bit each. One level dominates
// another if its rank is as high and it has every category of the other; the join of two is the least level that dominates both.
#![tactic(auto)]

ghost use Rattle.std.specs.Prelude.{◌≡◌};
ghost use Rattle.level.specs.Level.{dominates, join};

#[derive(Clone, Copy, PartialEq, Eq, Debug)]
pub struct Level {
    pub code: u16,
}

impl From<u16> for Level {
    ghost from_gives = { λ code level. level.code ≡ code };

    fn from(code: u16) -> Level {
        Level { code }
    }
}

impl Level {
    // The level that every level dominates.
    pub const BOTTOM: Level = Level { code: 0 };

    // The level that dominates every level.
    pub const TOP: Level = Level { code: 65535 };

    // Whether this level dominates the other: by rank, and by the mask of the other's categories. No `PartialOrd`: two levels need not compare, and
    // the paper's word is "dominates".
    #[tactic(auto, unfolding(crate::specs::Level::dominates))]
    pub fn dominates(self, other: Level) -> bool
        ensures { result ≡ dominates self.code other.code }
    {
        let x = self.code;
        let y = other.code;
        (y / 256 <= x / 256) & ((x % 256) & (y % 256) == y % 256)
    }

    // The larger rank, and the union of the categories.
    #[tactic(auto, unfolding(crate::specs::Level::join))]
    pub fn join(self, other: Level) -> Level
        ensures { result.code ≡ join self.code other.code }
    {
        let x = self.code;
        let y = other.code;
        let rank = (x / 256).max(y / 256);
        let categories = (x % 256) | (y % 256);
        Level::from(rank * 256 + categories)
    }
}

// The constants, as functions for those who read contracts.
pub fn bottom() -> Level
    ensures { result.code ≡ 0 }
{
    Level::BOTTOM
}

pub fn top() -> Level
    ensures { result.code ≡ 65535 }
{
    Level::TOP
}
