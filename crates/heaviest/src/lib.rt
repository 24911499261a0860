// The child of a node that is worked out before the others: of the kept ones, the first of those with the most rows.
#![tactic(auto)]

ghost use Rattle.std.specs.Prelude.{◌≡◌, ◌||◌, not, ◌-◌, eqb, ltb};
ghost use Rattle.heaviest.specs.Heavy.{Written, Heavy};

use rows::Reduced;

// A child is no heavier than one before, or dropped.
fn lighter(mark: u8, rows: usize, most: usize) -> bool
    ensures { result ≡ (eqb mark 0 || not (ltb most rows)) }
{
    mark == 0 || rows <= most
}

// Of the kept children of a node, the first of those with the most rows; none where none is kept.
pub fn heaviest(of: &Reduced, node: usize) -> Option<usize>
    requires { Written of.now.tree.ends node }
    ensures { (k : Written of.now.tree.ends node) → Heavy of.now.tree.ends of.now.marks k.tree node result }
{
    let mut heavy = None;
    let mut most = 0;
    for child in of.tree.children(node) {
        let rows = usize::from(of.tree.ends[child]) - child;
        if lighter(of.marks[child], rows, most) {
            continue;
        }
        heavy = Some(child);
        most = rows;
    }
    heavy
}

// A child is passed over: it is dropped, or was folded in before the others.
pub fn passed(mark: u8, at: usize, heavy: usize) -> bool
    ensures { result ≡ (eqb mark 0 || eqb at heavy) }
{
    mark == 0 || at == heavy
}
