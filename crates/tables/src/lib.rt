// The table of a list: for each written node of a concept tree that is held as rows, its number at each item of a register image that was read.
// Each kept node is worked out at each item once: a child's row gives, along the links of its role, its part of its parent's row. A recursion over
// the tree; the rows of a dropped node, and of all below it, are zeros. At a withdrawn item each row holds 0 before it is used: so no link to it counts.
#![tactic(auto)]

ghost use Rattle.std.specs.Prelude.{◌≡◌, cond, ℕ, ◌+◌, ◌-◌, ◌*◌, ◌≤◌, ◌<◌, length, get_or};
ghost use Rattle.std.proofs.lemmas.List.Edits.{sets};
ghost use Rattle.meaning.specs.Names.{common};
ghost use Rattle.meaning.specs.Register.{withdrawn};
ghost use Rattle.meaning.specs.Degree.{or_one};
ghost use Rattle.meaning.specs.Table.{up_to};
ghost use Rattle.register.specs.Image.{Asked, Image};
ghost use Rattle.degrees.specs.Gradable.{GradableIn};
ghost use Rattle.tables.specs.Rows.{Names, Served, SortedIn, TabledIn, FoldingIn, row_at, row_tops, folded, closed, Worked, Whole};

use register::Reading;
use rows::Reduced;
use sorted::ByRole;

// A register that a table is made of: an image that was read, and how many items it has; its links by role; the names of each item, read once;
// and whether all items are in service.
#[derive(Clone, Copy)]
pub struct Survey<'a> {
    pub image: &'a [u8],
    pub items: usize,
    pub links: ByRole<'a>,
    pub names: &'a [u64],
    pub served: bool,
}

// The names of each item, read once.
fn hold(read: &Reading, held: &mut [u64])
    requires { read.now.items ≤ length held.old }
    ensures { Names read.now.bytes.now read.now.items held.new }
{
    for x in 0..read.items {
        held[x] = register::names_of(read.bytes, x);
    }
}

// How many names a node shares with each item, from place `at` on; without names no item is looked at.
fn own(over: &Survey, names: u64, at: usize, table: &mut [u32])
    requires { (over.now.items ≤ length over.now.names.now) × (at + over.now.items ≤ length table.old) }
    ensures { table.new ≡ sets table.old at (up_to over.now.items (λ x. common names (get_or over.now.names.now x 0))) }
{
    if names == 0 {
        table[at..at + over.items].fill(0);
        return;
    }
    // What stands behind a reference would be read anew in each turn, since the loop writes.
    let held = over.names;
    for x in 0..over.items {
        table[at + x] = (names & held[x]).count_ones();
    }
}

// A number so far over the scale of the children so far, and a child's number over its own scale: their sum over the product.
fn sum(number: u32, scale: u32, top: u32, product: u32) -> u32
    requires { number * scale + top * product < 4294967296 }
    ensures { result ≡ number * scale + top * product }
{
    number * scale + top * product
}

// Folds a child's tops into the row from place `at` on.
fn fold(at: usize, scale: u32, product: u32, tops: &[u32], table: &mut [u32])
    requires in_bounds { at + length tops.now ≤ length table.old }
    requires by_index { (x : ℕ) → x < length tops.now → folded table.old at scale product (λ y. get_or tops.now y 0) x < 4294967296 }
    ensures { table.new ≡ sets table.old at (up_to (length tops.now) (folded table.old at scale product (λ y. get_or tops.now y 0))) }
{
    for (x, top) in tops.iter().enumerate() {
        table[at + x] = sum(table[at + x], scale, *top, product);
    }
}

// Folds the child whose row stands from `from` on into the row from `at` on: of the items that an item's links of the role lead to, the greatest number counts.
fn take(
    over: &Survey,
    role: u8,
    from: usize,
    at: usize,
    scale: u32,
    product: u32,
    table: &mut [u32],
)
    requires { FoldingIn over.now role from at scale product table.old }
    ensures { (c : SortedIn over.now)
        → table.new ≡ sets table.old at (up_to over.now.items (folded table.old at scale product (row_tops c role from table.old))) }
{
    let mut tops = [0; meaning::MOST_ITEMS];
    over.links
        .gather(over.items, usize::from(role), table, from, &mut tops);
    fold(at, scale, product, &tops[..over.items], table);
}

// What stands at an item once a node's children are folded in, where n names and children are counted: 0 if the item is withdrawn, 1 at a node without any.
fn last(out: bool, n: u32, number: u32) -> u32
    ensures { result ≡ cond out 0 (or_one n number) }
{
    if out {
        return 0;
    }
    if n == 0 {
        return 1;
    }
    number
}

// The same where no item is withdrawn, from one place up to another: only a node without names and children is to be changed.
fn fill_empty(n: u32, from: usize, to: usize, table: &mut [u32])
    requires { (from ≤ to) × (to ≤ length table.old) }
    ensures { table.new ≡ sets table.old from (up_to (to - from) (λ x. or_one n (row_at table.old from x))) }
{
    if n == 0 {
        table[from..to].fill(1);
    }
}

// Closes the row from place `at` on so. Where all items are in service, none is looked at.
fn close(over: &Survey, n: u32, at: usize, table: &mut [u32])
    requires asked { Asked over.now.image.now (λ g. over.now.items ≡ length g.names) }
    requires served { Served over.now.image.now over.now.items over.now.served × (at + over.now.items ≤ length table.old) }
    ensures { Image over.now.image.now (λ g. table.new ≡ sets table.old at (up_to over.now.items (closed (withdrawn g) n table.old at))) }
{
    if over.served {
        fill_empty(n, at, at + over.items, table);
        return;
    }
    let image = over.image;
    for x in 0..over.items {
        table[at + x] = last(graph::is_out(image, x), n, table[at + x]);
    }
}

// Fills the rows of the tree at a node; its scale is answered. The rows may hold a tree of at most `left` levels: that falls.
pub fn fill(over: &Survey, of: &Reduced, node: usize, left: usize, table: &mut [u32]) -> u32
    requires gradable { TabledIn over.now of.now node left }
    requires names { Names over.now.image.now over.now.items over.now.names.now × Served over.now.image.now over.now.items over.now.served
        × (get_or of.now.tree.ends node 0 * over.now.items ≤ length table.old) }
    ensures { (k : TabledIn over.now of.now node left) → Worked k result table.old table.new }
{
    // Kept: rows by their places in one slice: C lends the table so, and a child's row is read while its parent's, in the same slice, is written.
    let items = over.items;
    let at = node * items;
    own(over, of.tree.names[node], at, table);
    let mut n = of.tree.names[node].count_ones();
    let mut product: u32 = 1;
    for child in of.tree.children(node) {
        let from = child * items;
        if of.marks[child] == 0 {
            let end = usize::from(of.tree.ends[child]);
            table[from..end * items].fill(0);
            continue;
        }
        let scale = fill(over, of, child, left - 1, table);
        take(over, of.tree.roles[child], from, at, scale, product, table);
        product *= scale;
        n += 1;
    }
    close(over, n, at, table);
    n.max(1) * product
}

// Fills the whole table of the tree at row 0: the links are sorted once, and it is seen once whether all items are in service. The tree's scale is answered.
// It is not merged into the call that reads the requirement first: so its 22 KiB are on the stack only once what reading takes is off it.
#[inline(never)]
pub fn whole(read: &Reading, of: &Reduced, table: &mut [u32]) -> u32
    requires gradable { GradableIn read.now of.now 0 17 }
    requires in_bounds { get_or of.now.tree.ends 0 0 * read.now.items ≤ length table.old }
    ensures { (k : GradableIn read.now of.now 0 17) → Whole read.now.items k.posed.graph.register k.tree result table.old table.new }
{
    let mut begins = [0; sorted::PLACES];
    let mut order = [0; meaning::MOST_LINKS];
    sorted::sort(read, &mut begins, &mut order);
    let mut names = [0; meaning::MOST_ITEMS];
    hold(read, &mut names);
    let over = Survey {
        image: read.bytes,
        items: read.items,
        links: ByRole {
            begins: &begins,
            order: &order,
        },
        names: &names,
        served: graph::none_out(read.bytes, read.items),
    };
    fill(&over, of, 0, meaning::MOST_LEVELS, table)
}
