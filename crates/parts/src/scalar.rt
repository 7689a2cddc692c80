// The scalar of a diagram: zero, or a power of the root of two times some eighth turns.
ghost use Rattle.std.specs.Prelude.{◌≡◌, ◌<◌, ◌≤◌, MatchOption};
ghost use Rattle.models.specs.Models.{size, reach_limit};
ghost use Rattle.models.specs.Edits.{product};
ghost use Rattle.parts.specs.Scales.{scale_of};

use angles::Turn;
use std::ops::Add;

// How far from 0 the power of the root of two can get: 30,000 as it is loaded, 2 for each of 320 spiders that
// goes, and 4 for each of 64 legs.
pub const REACH: u32 = 30_896;

// An enum of its own and no Option: zero is a value of the scalar, and no lack of one.
#[derive(Clone, Copy, Debug, PartialEq, Eq)]
pub enum Scalar {
    Zero,
    // √2^k·w^m
    Root(i32, Turn),
}

impl Scalar {
    // How far from 0 the power of the root of two is.
    pub fn size(self) -> u32
        ensures { result ≡ size (scale_of self) }
    {
        match self {
            Scalar::Zero => 0,
            Scalar::Root(k, _) => k.unsigned_abs(),
        }
    }

    // The scalar times √2^k·w^m, or none where its power would be out of reach. Zero stays zero. (k and m are two
    // arguments, as they are of `product`: a `Factor`, which holds both, takes no k beyond the limit of an item.)
    pub fn times(self, k: i32, m: Turn) -> Option<Scalar>
        ensures { MatchOption result (reach_limit < size (product k m.parts (scale_of self))) (λ s. (scale_of s ≡ product k m.parts (scale_of self)) × (size (scale_of s) ≤ reach_limit)) }
    {
        match self {
            Scalar::Zero => Some(Scalar::Zero),
            Scalar::Root(a, b) => {
                let sum = a.checked_add(k)?;
                if sum.unsigned_abs() > REACH {
                    return None;
                }
                Some(Scalar::Root(sum, b + m))
            }
        }
    }
}
