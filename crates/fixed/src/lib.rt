// The fixed fields of a node, an edge and a threshold, each with the tests that the document makes before anything behind them is read.
#![tactic(auto)]

ghost use Rattle.std.specs.Prelude.{◌≡◌, ◌+◌, ◌≤◌, ◌<◌, length, sum};
ghost use Rattle.meaning.specs.declared.Side.TheVariants.{Requirement};
ghost use Rattle.meaning.specs.Refusal.{refused};
ghost use Rattle.meaning.specs.Bytes.{fields};
ghost use Rattle.meaning.specs.Message.{fault_place};
ghost use Rattle.meaning.specs.Rules.{number_of, refusal_on};
ghost use Rattle.fixed.specs.Spots.{Within};
ghost use Rattle.fixed.specs.Fixed.{NodeFixed, EdgeFixed, FractionFixed, ThresholdFixed};

use meaning::{Fault, Rule};

// A stretch of a message that is read: its bytes, up to an end.
#[derive(Clone, Copy)]
pub struct Stretch<'a> {
    pub bytes: &'a [u8],
    pub end: usize,
    pub ghost within: { Within bytes.now end },
}

// A node's names, and how many thresholds and children it has.
#[derive(Clone, Copy, Debug, PartialEq, Eq)]
pub struct NodeFields {
    pub names: u64,
    pub thresholds: usize,
    pub children: usize,
}

impl Stretch<'_> {
    // At a node: 1, 9, 10, 11. It is the n-th of its tree, and there are so many levels left.
    pub fn node(&self, at: usize, left: usize, inner: bool, n: usize) -> Result<NodeFields, Fault>
        requires { at ≤ self.now.end }
        ensures { NodeFixed inner self.now.bytes.now self.now.end left at n result }
    {
        if self.end - at < 10 {
            return Err(self.cut([8, 1, 1], at));
        }
        if left == 0 {
            return Err(Rule::TooDeep.at(at));
        }
        if meaning::MOST_NODES <= n {
            return Err(Rule::TooManyNodes.at(at));
        }
        let thresholds = fields::one(self.bytes, at + 8);
        if inner && 0 < thresholds {
            return Err(Rule::NotPlain.at(at + 8));
        }
        Ok(NodeFields {
            names: fields::eight(self.bytes, at),
            thresholds,
            children: fields::one(self.bytes, at + 9),
        })
    }

    // At an edge: 1, 7. The role of the edge.
    pub fn edge(&self, at: usize) -> Result<usize, Fault>
        requires { at ≤ self.now.end }
        ensures { EdgeFixed self.now.bytes.now self.now.end at result }
    {
        if self.end - at < 1 {
            return Err(Rule::CutShort.at(at));
        }
        let role = fields::one(self.bytes, at);
        if meaning::MOST_ROLE < role {
            return Err(Rule::RoleAbove.at(at));
        }
        Ok(role)
    }

    // At a threshold: 12, 1, 13, what is wrong with its fraction, 1 (inner length). There are so many thresholds before it.
    // Where its inner concept has to end.
    pub fn threshold(&self, at: usize, parts: usize) -> Result<usize, Fault>
        requires { at ≤ self.now.end }
        ensures { ThresholdFixed self.now.bytes.now self.now.end at parts result }
    {
        if meaning::MOST_THRESHOLDS <= parts {
            return Err(Rule::TooManyThresholds.at(at));
        }
        if self.end - at < 5 {
            return Err(self.cut([1, 2, 2], at));
        }
        if 3 < fields::one(self.bytes, at) {
            return Err(Rule::NoComparison.at(at));
        }
        fraction(self.bytes, at)?;
        if self.end - at < 7 {
            return Err(Rule::CutShort.at(at + 5));
        }
        let len = fields::two(self.bytes, at + 5);
        if self.end - at - 7 < len {
            return Err(Rule::CutShort.at(at + 5));
        }
        Ok(at + 7 + len)
    }

    // Fields of these widths do not all stand before the end: 1 at the first that does not fit whole.
    fn cut<const N: usize>(&self, widths: [usize; N], at: usize) -> Fault
        requires before { at ≤ self.now.end }
        requires short { self.now.end < at + sum widths }
        ensures { fields Requirement self.now.end widths.entry at ≡ refused (refusal_on Requirement result) }
    {
        let mut place = at;
        for width in widths {
            if self.end - place < width {
                return Rule::CutShort.at(place);
            }
            place += width;
        }
        Rule::CutShort.at(place)
    }
}

// What is wrong with the fraction of the threshold at a place.
fn fraction(s: &[u8], at: usize) -> Result<(), Fault>
    requires { at + 5 ≤ length s.now }
    ensures { FractionFixed s.now at result }
{
    fractions::wrong(fields::two(s, at + 1), fields::two(s, at + 3)).map_err(|rule| rule.at(
        fault_place(at, rule),
    ))
}

// Where what is wrong with the fraction of a threshold stands: its denominator at its q, anything else at its p.
fn fault_place(at: usize, rule: Rule) -> usize
    requires { at + 3 < 18446744073709551616 }
    ensures { result ≡ fault_place at (number_of rule) }
{
    match rule {
        Rule::DenominatorOut => at + 3,
        _ => at + 1,
    }
}
