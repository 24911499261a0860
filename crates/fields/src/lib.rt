// Big-endian fields in lent bytes, and the 3-byte head that a register image and a requirement message share.
#![tactic(auto)]

pub mod bits; // bits.rt: sets of up to 64 things as numbers

ghost use Rattle.std.specs.Prelude.{◌≡◌, ◌+◌, ◌%◌, ◌≤◌, ◌<◌, length};
ghost use Rattle.std.proofs.lemmas.List.Edits.{sets};
ghost use Rattle.meaning.specs.declared.Side.{Side};
ghost use Rattle.meaning.specs.Bytes.{number, bytes, read_head};
ghost use Rattle.meaning.specs.Rules.{paper_on};
ghost use Rattle.fields.specs.Head.{wrong_in, EndsWithin};

use meaning::{Fault, Rule};

// The number in one byte.
pub fn one(s: &[u8], at: usize) -> usize
    requires { at + 1 ≤ length s.now }
    ensures value { result ≡ number s.now at 1 }
    ensures upper_bound { result < 256 }
{
    usize::from(s[at])
}

// The number in two bytes.
pub fn two(s: &[u8], at: usize) -> usize
    requires { at + 2 ≤ length s.now }
    ensures value { result ≡ number s.now at 2 }
    ensures upper_bound { result < 65536 }
{
    usize::from(u16::from_be_bytes([s[at], s[at + 1]]))
}

// The number in eight bytes.
pub fn eight(s: &[u8], at: usize) -> u64
    requires { at + 8 ≤ length s.now }
    ensures { result ≡ number s.now at 8 }
{
    u64::from_be_bytes([
        s[at],
        s[at + 1],
        s[at + 2],
        s[at + 3],
        s[at + 4],
        s[at + 5],
        s[at + 6],
        s[at + 7],
    ])
}

// The lowest byte of a number.
fn low(n: usize) -> u8
    ensures { result ≡ n % 256 }
{
    (n % 256) as u8
}

// Writes a number into so many bytes.
pub fn put(s: &mut [u8], at: usize, width: usize, n: usize)
    requires { at + width ≤ length s.old }
    ensures { s.new ≡ sets s.old at (bytes width n) }
{
    let mut rest = n;
    for i in (0..width).rev() {
        s[at + i] = low(rest);
        rest = rest / 256;
    }
}

// Reads the head of a whole input, or in a session of what a buffer begins with: where what it heads ends.
// Kept: `session` is a flag, since the promises speak of it (`ReadPromise`, and `RegisterPromise` of the call from C, whose argument it is).
pub fn read_head(s: &[u8], session: bool) -> Result<usize, Fault>
    ensures result_value { (side : Side) → paper_on side result ≡ read_head side (wrong_in session) s.now }
    ensures ends_within { EndsWithin (length s.now) result }
{
    let n = s.len();
    if n < 3 {
        return Err(Rule::CutShort.at(0));
    }
    if s[0] != 1 {
        return Err(Rule::Version.at(0));
    }
    let len = two(s, 1);
    if n - 3 < len {
        return Err(Rule::Length.at(1));
    }
    if session {
        return Ok(3 + len);
    }
    if len < n - 3 {
        return Err(Rule::Length.at(1));
    }
    Ok(3 + len)
}
