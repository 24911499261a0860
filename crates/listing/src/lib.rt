// The listing of a register against a requirement, piece by piece: what comes first, planned here, and then a row for each item that is to be listed
// (the crates `ratings` and `verdicts`). Each piece is a text of its own. Put one after the other they are the listing (specs/Pieces.antt).
#![tactic(auto)]

ghost use Rattle.std.specs.Prelude.{◌≡◌, ◌≤◌, length};
ghost use Rattle.lines.specs.Lines.{line_room, refusal_line};
ghost use Rattle.listing.specs.Listing.{listing_of, printed, register_end};
ghost use Rattle.listing.specs.Pieces.{Opens, Planning, Planned};

use lines::Line;
use meaning::Refusal;

// The longest input that is taken.
pub const MOST_INPUT: usize = 65536;

// The rows of all items of a register, each of what its bytes and a message say of it.
#[derive(Clone, Copy)]
pub struct Sheet<'a> {
    pub image: &'a [u8],
    pub message: &'a [u8],
    pub items: usize,
}

// What comes behind the first line: nothing more, rows of degrees, or rows of yes and no.
// Kept: three variants, and no Option of two: each is one of the three ways to go on, and a caller tells them apart by one match.
#[derive(Clone, Copy)]
pub enum Rest<'a> {
    Nothing,
    Degrees(Sheet<'a>),
    Members(Sheet<'a>),
}

// What is to be printed: a line, and then the rest.
#[derive(Drop)]
pub struct Outline<'a> {
    pub first: Line,
    pub rest: Rest<'a>,
}

// A line of these words.
fn line_of(words: &[u8]) -> Line
    requires { length words.now ≤ line_room }
    ensures { result ≡ words.now }
{
    let mut line = Line::new();
    line.push_word(words);
    line
}

// The head of a register and a requirement that can be read, and their rows: of degrees where it has no threshold, unless it is too large for them, so it is
// read once more for its reduced size.
fn plan_read<'a>(image: &'a [u8], message: &'a [u8]) -> Result<Outline<'a>, Refusal>
    ensures { Planning image.now message.now (listing_of image.now message.now) result }
{
    let items = register::read(image, false)?.items;
    let sheet = Sheet {
        image,
        message,
        items,
    };
    if 0 < requirement::read(message)?.parts {
        return Ok(Outline {
            first: line_of(b"item member map\n"),
            rest: Rest::Members(sheet),
        });
    }
    plain::read_plain(message)?;
    Ok(Outline {
        first: line_of(b"item degree map\n"),
        rest: Rest::Degrees(sheet),
    })
}

// An image and a message. A refusal is all that is printed.
fn plan_of<'a>(image: &'a [u8], message: &'a [u8]) -> Outline<'a>
    ensures { Opens image.now message.now (printed (listing_of image.now message.now)) result }
{
    match plan_read(image, message) {
        Ok(outline) => outline,
        Err(refusal) => Outline {
            first: lines::refusal_line(refusal),
            rest: Rest::Nothing,
        },
    }
}

// Where the register ends in the input: after 3 + length bytes, or with all of them if they are fewer.
fn register_end(input: &[u8]) -> usize
    ensures value { result ≡ register_end input.now }
    ensures upper_bound { result ≤ length input.now }
{
    let n = input.len();
    if n < 3 {
        return n;
    }
    n.min(3 + fields::two(input, 1))
}

// What is printed for an input.
pub fn plan(input: &[u8]) -> Outline<'_>
    ensures { Planned input.now result }
{
    if MOST_INPUT < input.len() {
        return Outline {
            first: line_of(b"input too long\n"),
            rest: Rest::Nothing,
        };
    }
    let (image, message) = input.split_at(register_end(input));
    plan_of(image, message)
}
