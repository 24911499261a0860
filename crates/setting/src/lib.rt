// Setting one fact of the image that a buffer begins with: a name on an item, or a link, is there afterwards or not.
// Names stay where they stand; links behind the one that comes or goes move by five bytes.
#![tactic(auto)]

ghost use Rattle.std.specs.Prelude.{◌≡◌, ◌+◌, ◌≤◌, ◌<◌, length, map};
ghost use Rattle.std.proofs.lemmas.List.Edits.{sets};
ghost use Rattle.meaning.specs.Bounds.{most_items, most_links, most_name, most_role};
ghost use Rattle.meaning.specs.Bytes.{bytes};
ghost use Rattle.meaning.specs.declared.Fact.{Fact};
ghost use Rattle.meaning.specs.Register.{Link, is_fact, link_bytes};
ghost use Rattle.meaning.specs.Session.{link, set_fact, rewritten};
ghost use Rattle.register.specs.Layout.{names_at, count_at, image_length, body_length};
ghost use Rattle.register.specs.Image.{Asked, OfSize, Image};
ghost use Rattle.register.specs.Held.{held};
ghost use Rattle.register.specs.Reading.{key, Small};
ghost use Rattle.setting.specs.Setting.{Placed, buffer_inserted, buffer_removed, Ranged, SettingOf};

use fields;
use fields::bits;
use meaning::Fact;
use register::{Reading, Size, layout};

// ---- names

// Sets a name of an item to there or not, and says whether it was there.
fn set_name(s: &mut [u8], item: usize, name: usize, adds: bool) -> bool
    requires asked { Asked s.old (λ g. item < length g.names) }
    requires item_le_most_items { (item ≤ most_items) × (name ≤ most_name) × (names_at item + 8 ≤ length s.old) }
    ensures image { Image s.old (λ g. result ≡ is_fact g (Fact.Name item name)) }
    ensures image_2 { Image s.old (λ g. s.new ≡ rewritten s.old g (set_fact adds (Fact.Name item name) g)) }
{
    let names = register::names_of(s, item);
    let there = bits::on(names, name);
    let set = bits::with_bit(names, name, there, adds) as usize;
    fields::put(s, layout::names_at(item), 8, set);
    there
}

// ---- links

// A link's number, that of its five bytes: it rises with (from, role, to).
pub fn number_of(from: usize, role: usize, to: usize) -> usize
    requires { (from < 65536) × (role < 256) × (to < 65536) }
    ensures { result ≡ key (link from role to) }
{
    (from * 256 + role) * 65536 + to
}

// The links of an image that was read: five bytes each.
fn links_of<'a>(read: &Reading<'a>) -> &'a [[u8; 5]]
    ensures { result.now ≡ map link_bytes (held read.now.bytes.now).links }
{
    let start = layout::link_at(read.items, 0);
    let end = layout::image_len(read.items, read.links);
    read.bytes[start..end].as_chunks().0
}

// Where the link with a number stands, or where it is to stand.
fn place_of(read: &Reading, number: usize) -> Result<usize, usize>
    ensures { Placed (held read.now.bytes.now).links number result }
{
    let rows = links_of(read);
    rows.binary_search_by_key(&number, |row| links::key_at(row, 0))
}

// Writes the link count, and the length in the head, of an image of so many items and links.
fn put_counts(s: &mut [u8], items: usize, links: usize)
    requires { (items ≤ most_items) × (links ≤ most_links) × (count_at items + 2 ≤ length s.old) }
    ensures { s.new ≡ sets (sets s.old (count_at items) (bytes 2 links)) 1 (bytes 2 (body_length items links)) }
{
    fields::put(s, layout::count_at(items), 2, links);
    fields::put(s, 1, 2, layout::body_len(items, links));
}

// Kept: four functions ask `OfSize` of a buffer that they write. A struct over the `&mut` with that fact would have to hold it at each of the writes,
// between which the buffer is no image.

// Puts the link with that number before the k-th.
fn insert(s: &mut [u8], size: Size, k: usize, number: usize)
    requires of_size { OfSize s.old size.items size.links }
    requires room { (k ≤ size.links) × (size.links < most_links) × (image_length size.items (size.links + 1) ≤ length s.old) }
    ensures { Image s.old (λ g. (l : Link) → number ≡ key l → Small l → s.new ≡ buffer_inserted s.old k l g) }
{
    let Size { items, links } = size;
    let at = layout::link_at(items, k);
    let end = layout::image_len(items, links);
    s.copy_within(at..end, at + 5);
    fields::put(s, at, 5, number);
    put_counts(s, items, links + 1);
}

// Takes the k-th link away.
fn remove(s: &mut [u8], size: Size, k: usize)
    requires of_size { OfSize s.old size.items size.links }
    requires is_there { k < size.links }
    ensures { Image s.old (λ g. s.new ≡ buffer_removed s.old k g) }
{
    let Size { items, links } = size;
    let at = layout::link_at(items, k);
    let end = layout::image_len(items, links);
    s.copy_within(at + 5..end, at);
    fields::put(s, end - 5, 5, 0);
    put_counts(s, items, links - 1);
}

// Sets a link to there or not.
fn set_link(
    s: &mut [u8],
    size: Size,
    from: usize,
    role: usize,
    to: usize,
    adds: bool,
) -> Option<bool>
    requires of_size { OfSize s.old size.items size.links }
    requires in_range { (from < size.items) × (role ≤ most_role) × (to < size.items) }
    ensures { SettingOf s.old (Fact.Link from role to) adds s.new result }
{
    let number = number_of(from, role, to);
    let Size { items, links } = size;
    let read = Reading {
        bytes: s,
        items,
        links,
    };
    match place_of(&read, number) {
        Ok(k) => {
            if !adds {
                remove(s, size, k);
            }
            Some(true)
        }
        Err(k) => {
            if adds {
                if meaning::MOST_LINKS <= links {
                    return None;
                }
                if s.len() < layout::image_len(items, links + 1) {
                    return None;
                }
                insert(s, size, k, number);
            }
            Some(false)
        }
    }
}

// ---- either fact

// Sets a fact that is in range to there or not, and says whether it was there; None where there is no place for a link.
pub fn set_fact(s: &mut [u8], size: Size, fact: Fact, adds: bool) -> Option<bool>
    requires of_size { OfSize s.old size.items size.links }
    requires ranged { Ranged size.items fact }
    ensures { SettingOf s.old fact adds s.new result }
{
    match fact {
        Fact::Name { item, name } => Some(set_name(s, item, name, adds)),
        Fact::Link { from, role, to } => set_link(s, size, from, role, to, adds),
    }
}
