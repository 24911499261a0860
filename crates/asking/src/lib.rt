// The degree call and the margin call: register and requirement are read, what is refused is tested in the document's order, and the core works
// on the rows.
#![tactic(auto)]

ghost use Rattle.asking.specs.Refusing.{DegreePromise, MarginPromise};

use meaning::{Refusal, Rule};
use register::Reading;

// The degree in lowest terms, and how many places of the map are written.
#[derive(Clone, Copy, Debug, PartialEq, Eq)]
pub struct Answered {
    pub num: u64,
    pub den: u64,
    pub nodes: usize,
}

// The margin, and what it is over.
#[derive(Clone, Copy, Debug, PartialEq, Eq)]
pub struct Margin {
    pub margin: i64,
    pub over: u64,
}

// The degree of an item in a plain requirement, and its map, one number for each written node.
pub fn degree_of(
    image: &[u8],
    message: &[u8],
    item: usize,
    map: &mut [u16],
) -> Result<Answered, Refusal>
    ensures { DegreePromise image.now message.now item map.old map.new result }
{
    let both = plain::read_both(image, message)?;
    graph::refusal_of(image, both.size.items, item).map_err(|rule| rule.of_call())?;
    if map.len() < both.plain.nodes {
        return Err(Rule::MapTooShort.of_call());
    }
    let read = Reading {
        bytes: image,
        items: both.size.items,
        links: both.size.links,
    };
    let degree = shown::shown_at(
        &read,
        &both.plain.reduced,
        0,
        meaning::MOST_LEVELS,
        item,
        map,
    );
    let low = fractions::lowest(degree.number, degree.scale);
    Ok(Answered {
        num: low.num,
        den: low.den,
        nodes: both.plain.nodes,
    })
}

// The margin of an item's degree in a plain requirement against p/q.
pub fn margin_of(
    image: &[u8],
    message: &[u8],
    item: usize,
    p: usize,
    q: usize,
) -> Result<Margin, Refusal>
    ensures { MarginPromise image.now message.now item p q result }
{
    let both = plain::read_both(image, message)?;
    graph::refusal_of(image, both.size.items, item).map_err(|refused| refused.of_call())?;
    fractions::wrong(p, q).map_err(|wrong| wrong.of_call())?;
    let read = Reading {
        bytes: image,
        items: both.size.items,
        links: both.size.links,
    };
    let degree = shown::degree_at(&read, &both.plain.reduced, 0, meaning::MOST_LEVELS, item);
    let low = fractions::lowest(degree.number, degree.scale);
    let margin = fractions::against(low.num, low.den, p as u64, q as u64);
    Ok(Margin {
        margin: margin.num,
        over: margin.den,
    })
}
