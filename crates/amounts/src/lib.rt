// Exact amounts: the mathematics of the eighth turn and the root of two.
// Each function with an empty body stands for the theorem that its contract states.
#![tactic(auto)]

ghost use Rattle.std.specs.Prelude.{◌≡◌, IsTrue};
ghost use Rattle.amounts.specs.Amounts.{turned, root_two, Lawful};
ghost use Rattle.amounts.specs.Eighths.{times, eighths, number, coefficients};
ghost use Rattle.amounts.specs.Scalars.{scalar, RootTwoIs, QuarterIs, RootCancels, ScalarTold, ScalarNotZero, SameEquivalence, SameAtOnePower};

pub mod system;

// ℤ[w] is a lawful system of amounts.
pub fn eighths_are_lawful()
    ensures { Lawful eighths }
{}

// In ℤ[w], √2 is w - w³ and the quarter turn is w².
pub fn root_and_quarter_are()
    ensures root { RootTwoIs }
    ensures quarter { QuarterIs }
{}

// A factor √2 on both sides may be left out.
pub fn root_cancels()
    ensures { RootCancels }
{}

// A scalar √2^a·w^m tells a and, below a full turn, m. It is never zero.
pub fn scalars_are_told()
    ensures told { ScalarTold }
    ensures never_zero { ScalarNotZero }
{}

// To be the same amount √2^k·z is an equivalence, and at one k it is to have the same z.
pub fn same_is_an_equivalence()
    ensures equivalence { SameEquivalence }
    ensures exact { SameAtOnePower }
{}

// Whether √2^a·w^m and √2^b·w^n are equal.
pub fn same_scalar(a: u32, m: u32, b: u32, n: u32) -> bool
    ensures equal { IsTrue result → scalar a m ≡ scalar b n }
    ensures apart { scalar a m ≡ scalar b n → IsTrue result }
{
    a == b && m % 8 == n % 8
}

// The coefficients of w^m at 1, w, w² and w³.
pub fn turned_coefficients(m: u32) -> [i8; 4]
    ensures { result ≡ coefficients (turned eighths m) }
{
    let mut r = [0, 0, 0, 0];
    r[(m % 4) as usize] = if m % 8 < 4 { 1 } else { -1 };
    r
}

// The coefficients of √2·(a + b·w + c·w² + d·w³).
pub fn root_times(a: i32, b: i32, c: i32, d: i32) -> [i64; 4]
    ensures { result ≡ coefficients (times (root_two eighths) (number a b c d)) }
{
    let (a, b, c, d) = (i64::from(a), i64::from(b), i64::from(c), i64::from(d));
    [b - d, a + c, b + d, c - a]
}
