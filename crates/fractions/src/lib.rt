// Fractions as two numbers: the common divisor, lowest terms, what is wrong with a threshold's fraction, the four comparisons, the margin.
#![tactic(auto)]

ghost use Rattle.std.specs.Prelude.{◌≡◌, ◌≤◌, ◌<◌};
ghost use Rattle.std.proofs.Math.IntN.{sub_ℕ};
ghost use Rattle.std.specs.Int.{w64};
ghost use Rattle.std.proofs.Common.{SFits};
ghost use Rattle.meaning.specs.Bounds.{most_q, most_scale, most_margin};
ghost use Rattle.meaning.specs.Fraction.{◌÷◌, gcd, wrong_with, compares, margin, margin_over};
ghost use Rattle.meaning.specs.Fraction.{lowest as lowest_of};
ghost use Rattle.meaning.specs.Message.{comparison};
ghost use Rattle.meaning.specs.Rules.{told};
ghost use Rattle.fractions.specs.Compare.{compared};

use meaning::Rule;

// A fraction.
#[derive(Clone, Copy, Debug, PartialEq, Eq)]
pub struct Fraction {
    pub num: u64,
    pub den: u64,
}

// A fraction with a sign: a margin, and what it is over.
#[derive(Clone, Copy, Debug, PartialEq, Eq)]
pub struct Signed {
    pub num: i64,
    pub den: u64,
}

// The greatest common divisor, by Euclid's remainders.
pub fn common_divisor(p: usize, q: usize) -> usize
    ensures { result ≡ gcd p q }
{
    let mut a = p;
    let mut b = q;
    // Kept: a while. Euclid's turns go over nothing: the loop ends where the second number is 0.
    while 0 < b {
        let rest = a % b;
        a = b;
        b = rest;
    }
    a
}

// A fraction in lowest terms.
pub fn lowest(num: u64, den: u64) -> Fraction
    requires { 0 < den }
    ensures { (result.num ≡ (lowest_of (num ÷ den)).num) × (result.den ≡ (lowest_of (num ÷ den)).den) }
{
    let d = common_divisor(num as usize, den as usize) as u64;
    Fraction {
        num: num / d,
        den: den / d,
    }
}

// What is wrong with the fraction p/q of a threshold: q is 0 or too large, p exceeds q, or they share a factor above 1.
pub fn wrong(p: usize, q: usize) -> Result<(), Rule>
    ensures { told result ≡ wrong_with p q }
{
    if q < 1 {
        return Err(Rule::DenominatorOut);
    }
    if meaning::MOST_Q < q {
        return Err(Rule::DenominatorOut);
    }
    if q < p {
        return Err(Rule::AboveOne);
    }
    if common_divisor(p, q) != 1 {
        return Err(Rule::NotLowest);
    }
    Ok(())
}

// How a threshold compares, in the order of the document's numbers.
#[derive(Clone, Copy, Debug, PartialEq, Eq)]
enum Comparison {
    Less,
    AtMost,
    Greater,
    AtLeast,
}

impl From<u8> for Comparison {
    ghost from_gives = { λ how c. compared c ≡ comparison how };

    fn from(how: u8) -> Comparison {
        match how {
            0 => Comparison::Less,
            1 => Comparison::AtMost,
            2 => Comparison::Greater,
            _ => Comparison::AtLeast,
        }
    }
}

// Whether number / scale satisfies a comparison with p / q, by cross-multiplication: 0 is <, 1 is ≤, 2 is >, 3 is ≥.
pub fn satisfies(how: u8, number: u64, scale: u64, p: u64, q: u64) -> bool
    requires { (number < 4294967296) × (scale < 4294967296) × (p ≤ most_q) × (q ≤ most_q) }
    ensures { result ≡ compares (comparison how) (number ÷ scale) (p ÷ q) }
{
    let own = number * q;
    let limit = p * scale;
    match Comparison::from(how) {
        Comparison::Less => own < limit,
        Comparison::AtMost => own <= limit,
        Comparison::Greater => limit < own,
        Comparison::AtLeast => limit <= own,
    }
}

// The margin of a degree num/den against a threshold p/q: num times q minus p times den, over den times q.
pub fn against(num: u64, den: u64, p: u64, q: u64) -> Signed
    requires { (num ≤ den) × (den ≤ most_scale) × (p ≤ q) × (q ≤ most_q) }
    ensures num_value { (result.num ≡ margin (num ÷ den) (p ÷ q)) × (result.den ≡ margin_over (num ÷ den) (p ÷ q)) }
    ensures sfits { SFits w64 result.num }
{
    Signed {
        num: difference(num * q, p * den),
        den: den * q,
    }
}

// The difference of two numbers, with its sign.
fn difference(a: u64, b: u64) -> i64
    requires { (a ≤ most_margin) × (b ≤ most_margin) }
    ensures value { result ≡ sub_ℕ a b }
    ensures sfits { SFits w64 result }
{
    a as i64 - b as i64
}
