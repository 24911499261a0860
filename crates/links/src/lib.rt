// Reading the links of an image: one link with its tests, and all links at once by their numbers. A link's number is that of its five bytes, and so rises
// with (from, role, to).
#![tactic(auto)]

ghost use Rattle.std.specs.Prelude.{◌≡◌, true, false, ◌+◌, ◌≤◌, ◌<◌, length};
ghost use Rattle.std.proofs.Math.Option.{Option};
ghost use Rattle.meaning.specs.declared.Side.TheVariants.{Register};
ghost use Rattle.meaning.specs.Register.{Link, link_at, read_link};
ghost use Rattle.meaning.specs.Rules.{paper_on};
ghost use Rattle.meaning.specs.Bounds.{most_items, most_links};
ghost use Rattle.links.specs.Links.{key, Floor, keyed, Passed, Right, AllRead, cut_at};

use meaning::{Fault, Rule};

// One link, whose number must be at least `floor`: the least number that the next one may have. A link's number is that of its five bytes, and so rises with
// (from, role, to).
pub fn read_link(
    s: &[u8],
    end: usize,
    items: usize,
    at: usize,
    floor: usize,
) -> Result<usize, Fault>
    requires { (at ≤ end) × (end ≤ length s.now) × (items ≤ most_items) }
    ensures result_value { (before : Option Link) → Floor before floor → paper_on Register result ≡ keyed (read_link s.now end items before at) }
    ensures passed { Passed at end result }
{
    if end - at < 5 {
        return Err(cut(end - at, at));
    }
    let from = fields::two(s, at);
    if items <= from {
        return Err(Rule::NoSuchEnd.at(at));
    }
    let role = fields::one(s, at + 2);
    if meaning::MOST_ROLE < role {
        return Err(Rule::RoleAbove.at(at + 2));
    }
    let to = fields::two(s, at + 3);
    if items <= to {
        return Err(Rule::NoSuchEnd.at(at + 3));
    }
    let number = (from * 256 + role) * 65536 + to;
    if number < floor {
        return Err(Rule::Order.at(at));
    }
    Ok(number + 1)
}

// A link of which only `room` bytes stand before the end is cut short at its first field that does not fit whole.
fn cut(room: usize, at: usize) -> Fault
    requires { (room < 5) × (at + room < 18446744073709551616) }
    ensures { result ≡ cut_at room at }
{
    if room < 2 {
        return Rule::CutShort.at(at);
    }
    if room < 3 {
        return Rule::CutShort.at(at + 2);
    }
    Rule::CutShort.at(at + 3)
}

// What a number of five bytes stays below.
const FIVE_BYTES: u64 = 1 << 40;

// The number of the link at a place, that of its five bytes: it rises with (from, role, to).
pub fn key_at(s: &[u8], at: usize) -> usize
    requires { at + 5 ≤ length s.now }
    ensures { result ≡ key (link_at s.now at) }
{
    if at < 3 {
        return (fields::two(s, at) * 256 + fields::one(s, at + 2)) * 65536 + fields::two(s, at + 3);
    }
    key_behind(s, at)
}

// The same where three bytes stand before the link: it is read in one load, and a loop over links has no branch for where they stand.
fn key_behind(s: &[u8], at: usize) -> usize
    requires { (3 ≤ at) × (at + 5 ≤ length s.now) }
    ensures { result ≡ key (link_at s.now at) }
{
    (fields::eight(s, at - 3) % FIVE_BYTES) as usize
}

// Of a link's number, where it leads to and the highest three bits of its role, which no role has.
const TO_AND_HIGH_ROLE: usize = 0xE0FFFF;

// Whether something is wrong with a link that has this number, but for the item that it leads from. Role and end are tested at once: where a high bit of the
// role is set, what is tested is greater than any number of items.
fn wrong(number: usize, items: usize, floor: usize) -> bool
    requires { items ≤ most_items }
    ensures { result ≡ false → Right number items floor }
{
    if number < floor {
        return true;
    }
    items <= number & TO_AND_HIGH_ROLE
}

// Whether all links are right, by their numbers alone. The numbers rise, so all lead from one of the items where the last one does. In an image more than
// three bytes stand before the links; where fewer do, it says no.
pub fn quick_links(s: &[u8], end: usize, items: usize, links: usize, start: usize) -> bool
    requires { (start ≤ end) × (end ≤ length s.now) × (items ≤ most_items) × (links ≤ most_links) }
    ensures { result ≡ true → AllRead s.now end items links start }
{
    if end - start < 5 * links || start < 3 {
        return false;
    }
    let mut floor = 0;
    for k in 0..links {
        let number = key_behind(s, start + 5 * k);
        if wrong(number, items, floor) {
            return false;
        }
        floor = number + 1;
    }
    floor <= items * 16777216
}
