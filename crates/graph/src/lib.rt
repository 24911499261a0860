// The graph of a register image that was read, as it is walked: names of an item, and successors under a role, none of them withdrawn.
#![tactic(auto)]

pub mod sets; // sets.rt: sets of up to 512 items

ghost use Rattle.std.specs.Prelude.{◌≡◌, true, false, ℕ, ◌+◌, ◌≤◌, ◌<◌, length, get_or};
ghost use Rattle.meaning.specs.Register.{withdrawn};
ghost use Rattle.meaning.specs.Calls.{asked_for};
ghost use Rattle.meaning.specs.Rules.{told};
ghost use Rattle.register.specs.Image.{Asked, Image};
ghost use Rattle.graph.specs.Walked.{walked, numbered};
ghost use Rattle.graph.specs.Judged.{IsJudged, Judged, end_no, role_no, Runs, Opens, Noted, Risen};
ghost use Rattle.graph.specs.Sets.{Among, Spread, Gathered};

use fields::bits;
use meaning::Rule;
use register::Reading;
use sets::Items;
use std::ops::Range;

// An index has a place for each item that there may be, one where the links of the last end, and one that says whether an item is withdrawn.
pub const INDEX: usize = 514;

// An image that was read, of so many items, and its index: at place k stands where the links of item k begin (so behind the last item how many links there
// are), and behind all of these whether an item is withdrawn.
#[derive(Drop)]
pub struct Indexed<'a> {
    pub image: &'a [u8],
    pub items: usize,
    pub index: [u16; INDEX],
    pub ghost judged: { IsJudged image.now items index },
}

// The same image and index as a value of a few words. A loop that writes takes it before it begins: what stands behind a reference it would read anew in
// each turn.
#[derive(Clone, Copy)]
pub struct Walk<'a> {
    pub image: &'a [u8],
    pub items: usize,
    pub index: &'a [u16; INDEX],
    pub ghost judged: { IsJudged image.now items index.now },
}

// Whether an item is withdrawn: the one test of document 02, §5.
pub fn is_out(s: &[u8], item: usize) -> bool
    requires { Asked s.now (λ g. item < length g.names) }
    ensures { Image s.now (λ g. result ≡ withdrawn g item) }
{
    bits::on(register::names_of(s, item), meaning::WITHDRAWN)
}

// Whether each of so many items is in service.
pub fn none_out(s: &[u8], items: usize) -> bool
    requires { Asked s.now (λ g. items ≡ length g.names) }
    ensures { result ≡ true → Image s.now (λ g. (x : ℕ) → x < items → withdrawn g x ≡ false) }
{
    for i in 0..items {
        if is_out(s, i) {
            return false;
        }
    }
    true
}

// What is wrong with an item that is asked for, among so many: that there is none such, or that it is withdrawn.
pub fn refusal_of(s: &[u8], items: usize, item: usize) -> Result<(), Rule>
    requires { Asked s.now (λ g. items ≡ length g.names) }
    ensures { Image s.now (λ g. asked_for g item ≡ numbered (told result)) }
{
    if items <= item {
        return Err(Rule::OutOfRange);
    }
    if is_out(s, item) {
        return Err(Rule::Withdrawn);
    }
    Ok(())
}

// Whether each item is in service, as an index says.
pub fn all_serve(index: &[u16]) -> bool
    requires { 513 < length index.now }
    ensures { result ≡ true → get_or index.now 513 0 ≡ 0 }
{
    index[INDEX - 1] == 0
}

// Behind the place of each item that links lead from: where its last one ends.
fn note_ends(read: &Reading, index: &mut [u16; INDEX])
    requires { (k : ℕ) → get_or index.old k 0 ≡ 0 }
    ensures { Noted read.now.bytes.now read.now.items read.now.links index.new }
{
    for k in 0..read.links {
        index[read.from_of(k) + 1] = (k + 1) as u16;
    }
}

// Each place becomes at least what stands before it.
fn raise(items: usize, index: &mut [u16; INDEX])
    requires { items < 514 }
    ensures { Risen items index.old index.new }
{
    for i in 0..items {
        index[i + 1] = index[i].max(index[i + 1]);
    }
}

impl<'a> Indexed<'a> {
    ghost use Rattle.graph.specs.On.{JudgedOn};

    // Makes the index of an image that was read.
    pub fn new(read: &Reading<'a>) -> Indexed<'a>
        ensures image { result.image.now ≡ read.now.bytes.now }
        ensures items { result.items ≡ read.now.items }
        ensures links { get_or result.index result.items 0 ≡ read.now.links }
    {
        let mut index = [0; INDEX];
        note_ends(read, &mut index);
        raise(read.items, &mut index);
        index[INDEX - 1] = u16::from(!none_out(read.bytes, read.items));
        Indexed {
            image: read.bytes,
            items: read.items,
            index,
        }
    }

    // The same as a value of a few words.
    pub fn walk(&self) -> Walk<'_>
        ensures image { result.image.now ≡ self.now.image.now }
        ensures items { result.items ≡ self.now.items }
        ensures index { result.index.now ≡ self.now.index }
    {
        Walk {
            image: self.image,
            items: self.items,
            index: &self.index,
        }
    }

    // The names of an item.
    pub fn names(&self, item: usize) -> u64
        requires { item < self.now.items }
        ensures { (j : JudgedOn self.now) → result ≡ (walked j.register).names item }
    {
        register::names_of(self.image, item)
    }

    // Where the k-th link leads to.
    pub fn end_of(&self, k: usize) -> usize
        requires { (j : JudgedOn self.now) → k < length j.register.links }
        ensures image { (j : JudgedOn self.now) → result ≡ end_no j.register k }
        ensures upper_bound { result < self.now.items }
    {
        self.walk().end_of(k)
    }

    // The links of an item under a role.
    pub fn run(&self, item: usize, role: usize) -> Range<usize>
        requires { item < self.now.items }
        ensures { (j : JudgedOn self.now) → Runs j.register item role result.start result.end }
    {
        self.walk().run(item, role)
    }

    // Puts every successor under a role of the items of a set into another.
    pub fn spread(&self, set: &Items, role: usize, below: &mut Items)
        requires { Among self.now.items set.now.words × Among self.now.items below.old.words }
        ensures { (j : JudgedOn self.now) → Spread (walked j.register) self.now.items set.now.words role below.new.words }
    {
        self.walk().spread(set, role, below);
    }
}

impl<'a> Walk<'a> {
    ghost use Rattle.graph.specs.On.{JudgedAlong};

    // The image that was read.
    pub fn reading(&self) -> Reading<'a>
        ensures { (result.bytes ≡ self.now.image) × (result.items ≡ self.now.items) × (result.links ≡ get_or self.now.index.now self.now.items 0) }
    {
        Reading {
            bytes: self.image,
            items: self.items,
            links: usize::from(self.index[self.items]),
        }
    }

    // The role of the k-th link.
    pub fn role_of(&self, k: usize) -> usize
        requires { (j : JudgedAlong self.now) → k < length j.register.links }
        ensures { (j : JudgedAlong self.now) → result ≡ role_no j.register k }
    {
        self.reading().role_of(k)
    }

    // Where the k-th link leads to.
    pub fn end_of(&self, k: usize) -> usize
        requires { (j : JudgedAlong self.now) → k < length j.register.links }
        ensures image { (j : JudgedAlong self.now) → result ≡ end_no j.register k }
        ensures upper_bound { result < self.now.items }
    {
        self.reading().to_of(k)
    }

    // The links of an item from the first on whose role is not lower: an item's links stand in the order of their roles, so those of the role
    // itself come first.
    pub fn from_role(&self, item: usize, role: usize) -> Range<usize>
        requires { item < self.now.items }
        ensures { (j : JudgedAlong self.now) → Opens j.register item role result.start result.end }
    {
        let begin = usize::from(self.index[item]);
        let end = usize::from(self.index[item + 1]);
        for k in begin..end {
            if role <= self.role_of(k) {
                return k..end;
            }
        }
        end..end
    }

    // The links of an item under a role.
    pub fn run(&self, item: usize, role: usize) -> Range<usize>
        requires { item < self.now.items }
        ensures { (j : JudgedAlong self.now) → Runs j.register item role result.start result.end }
    {
        let Range { start, end } = self.from_role(item, role);
        for k in start..end {
            if self.role_of(k) > role {
                return start..k;
            }
        }
        start..end
    }

    // Puts every successor under a role of the items of a set into another. Once all items are in that one, there is nothing left to put in: up to
    // `full` they are.
    pub fn spread(&self, set: &Items, role: usize, below: &mut Items)
        requires { Among self.now.items set.now.words × Among self.now.items below.old.words }
        ensures { (j : JudgedAlong self.now) → Spread (walked j.register) self.now.items set.now.words role below.new.words }
    {
        let mut full = 0;
        for x in set.members() {
            if self.items <= full {
                return;
            }
            self.gather(x, role, below);
            full = below.full_from(full);
        }
    }

    // Puts the successors of an item under a role into a set.
    fn gather(&self, item: usize, role: usize, set: &mut Items)
        requires { (item < self.now.items) × Among self.now.items set.old.words }
        ensures { (j : JudgedAlong self.now)
            → Gathered ((walked j.register).next item role) self.now.items set.old.words set.new.words }
    {
        let Range { start, end } = self.from_role(item, role);
        for k in start..end {
            if role < self.role_of(k) {
                return;
            }
            set.insert(self.end_of(k));
        }
    }
}
