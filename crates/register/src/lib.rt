// Reading a register image, whole or in a session's buffer, and reading one fact of an image that was read.
#![tactic(auto)]

pub mod layout; // layout.rt: where the parts of an image stand

ghost use Rattle.std.specs.Prelude.{◌≡◌, ◌+◌, ◌≤◌, ◌<◌, length, get_or};
ghost use Rattle.meaning.specs.declared.Side.TheVariants.{Register};
ghost use Rattle.meaning.specs.Register.{read_body, read_register_by};
ghost use Rattle.meaning.specs.Bounds.{most_items, most_links, most_role};
ghost use Rattle.meaning.specs.Rules.{paper_on};
ghost use Rattle.fields.specs.Head.{wrong_in};
ghost use Rattle.register.specs.Image.{Asked, Image, link_no};
ghost use Rattle.register.specs.Layout.{link_place};
ghost use Rattle.register.specs.Held.{IsRead, held};
ghost use Rattle.register.specs.Reading.{ReadPromise, counted, links_answer, key};

use meaning::{Fault, Refusal, Rule, Side};

// How many items and links an image has.
#[derive(Clone, Copy, Debug, PartialEq, Eq)]
pub struct Size {
    pub items: usize,
    pub links: usize,
}

// Bytes that begin with an image that was read, and how many items and links it has.
#[derive(Clone, Copy)]
pub struct Reading<'a> {
    pub bytes: &'a [u8],
    pub items: usize,
    pub links: usize,
    pub ghost read: { IsRead bytes.now items links },
}

// Reads an image: of a whole input, or in a session of what a buffer begins with.
pub fn read(s: &[u8], session: bool) -> Result<Size, Refusal>
    ensures { ReadPromise s.now session result }
{
    read_whole(s, session).map_err(|fault| fault.on(Side::Register))
}

// The head, and what stands under it.
fn read_whole(s: &[u8], session: bool) -> Result<Size, Fault>
    ensures { paper_on Register result ≡ counted (read_register_by (wrong_in session) s.now) }
{
    let end = fields::read_head(s, session)?;
    read_body(s, end)
}

// What stands under the head.
fn read_body(s: &[u8], end: usize) -> Result<Size, Fault>
    requires { (3 ≤ end) × (end ≤ length s.now) }
    ensures { paper_on Register result ≡ counted (read_body s.now end) }
{
    if end < 5 {
        return Err(Rule::CutShort.at(3));
    }
    let items = fields::two(s, 3);
    if items < 1 {
        return Err(Rule::Count.at(3));
    }
    if meaning::MOST_ITEMS < items {
        return Err(Rule::Count.at(3));
    }
    let at = layout::count_at(items);
    if end < at {
        return Err(Rule::CutShort.at(layout::cut_names(end)));
    }
    if end < at + 2 {
        return Err(Rule::CutShort.at(at));
    }
    let links = fields::two(s, at);
    if meaning::MOST_LINKS < links {
        return Err(Rule::Count.at(at));
    }
    read_links(s, end, items, links, layout::link_at(items, 0))
}

// The links, and that nothing is left behind them. Where they are not all right at once, they are read field by field, up to the fault.
fn read_links(s: &[u8], end: usize, items: usize, links: usize, start: usize) -> Result<Size, Fault>
    requires { (start ≤ end) × (end ≤ length s.now) × (items ≤ most_items) × (links ≤ most_links) }
    ensures { paper_on Register result ≡ links_answer s.now end items links start }
{
    if !links::quick_links(s, end, items, links, start) {
        return slow_links(s, end, items, links, start);
    }
    if start + 5 * links < end {
        return Err(Rule::LeftOver.at(start + 5 * links));
    }
    Ok(Size { items, links })
}

// The links, read field by field.
fn slow_links(s: &[u8], end: usize, items: usize, links: usize, start: usize) -> Result<Size, Fault>
    requires { (start ≤ end) × (end ≤ length s.now) × (items ≤ most_items) × (links ≤ most_links) }
    ensures { paper_on Register result ≡ links_answer s.now end items links start }
{
    let mut floor = 0;
    for i in 0..links {
        floor = links::read_link(s, end, items, start + 5 * i, floor)?;
    }
    let behind = start + 5 * links;
    if behind < end {
        return Err(Rule::LeftOver.at(behind));
    }
    Ok(Size { items, links })
}

// The names of an item of an image that was read.
pub fn names_of(s: &[u8], item: usize) -> u64
    requires { Asked s.now (λ g. item < length g.names) }
    ensures { Image s.now (λ g. result ≡ get_or g.names item 0) }
{
    fields::eight(s, layout::names_at(item))
}

impl Reading<'_> {
    // Where its k-th link stands.
    fn place_of(&self, k: usize) -> usize
        requires { k < self.now.links }
        ensures place { result ≡ link_place self.now.items k }
        ensures within { result + 5 ≤ length self.now.bytes.now }
    {
        layout::link_at(self.items, k)
    }

    // Where its k-th link leads from.
    pub fn from_of(&self, k: usize) -> usize
        requires { k < self.now.links }
        ensures { (result ≡ (link_no (held self.now.bytes.now) k).from) × (result < self.now.items) }
    {
        fields::two(self.bytes, self.place_of(k))
    }

    // The role of its k-th link.
    pub fn role_of(&self, k: usize) -> usize
        requires { k < self.now.links }
        ensures { (result ≡ (link_no (held self.now.bytes.now) k).role) × (result ≤ most_role) }
    {
        fields::one(self.bytes, self.place_of(k) + 2)
    }

    // Where its k-th link leads to.
    pub fn to_of(&self, k: usize) -> usize
        requires { k < self.now.links }
        ensures { (result ≡ (link_no (held self.now.bytes.now) k).to) × (result < self.now.items) }
    {
        fields::two(self.bytes, self.place_of(k) + 3)
    }

    // The number of its k-th link.
    pub fn key_of(&self, k: usize) -> usize
        requires { k < self.now.links }
        ensures { result ≡ key (link_no (held self.now.bytes.now) k) }
    {
        links::key_at(self.bytes, self.place_of(k))
    }
}
