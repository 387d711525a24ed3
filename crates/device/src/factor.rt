// The factor of a skew.
ghost use Rattle.std.specs.Prelude.{◌≡◌, MatchResult};
ghost use Rattle.device.specs.Skews.{Allowed, place, Permutes};

use std::error::Error;
use std::fmt;

/// Why a number is no factor.
#[derive(Clone, Copy, PartialEq, Eq, Debug)]
pub enum FactorRefusal {
    /// 9: the number is even, or above 31.
    Range,
}

impl FactorRefusal {
    /// The refusal's number.
    // By name, since `u8::from` would not say what the number is.
    pub fn number(self) -> u8
        ensures { result ≡ 9 }
    {
        match self {
            FactorRefusal::Range => 9,
        }
    }
}

impl fmt::Display for FactorRefusal {
    fn fmt<W: fmt::Write>(&self, f: &mut fmt::Formatter<W>) -> fmt::Result {
        match self {
            FactorRefusal::Range => write!(
                f,
                "refused 9: a skew factor is an odd number from 1 to 31"
            ),
        }
    }
}

impl Error for FactorRefusal {}

/// An odd number from 1 to 31. Multiplied by it, modulo 32, the sectors of a cylinder are permuted.
#[derive(Clone, Copy, Debug)]
pub struct Factor {
    k: usize,
    ghost allowed: { Allowed k },
}

impl TryFrom<u32> for Factor {
    type Error = FactorRefusal;

    ghost try_from_gives = { λ k r. MatchResult r (λ f. (f.k ≡ k) × Allowed k) (λ _. Allowed k → ⊥) };

    /// The number as a factor, if it is odd and at most 31.
    fn try_from(k: u32) -> Result<Self, FactorRefusal> {
        if k % 2 == 1 && k <= 31 {
            Ok(Factor { k: k as usize })
        } else {
            Err(FactorRefusal::Range)
        }
    }
}

impl Factor {
    /// Where block `b` is found: in its own cylinder, at sector `k × s mod 32`.
    pub fn place(self, b: usize) -> usize
        ensures value { result ≡ place self.k b }
        ensures permutes { Permutes self.k }
    {
        32 * (b / 32) + self.k * (b % 32) % 32
    }
}
