// A set of up to 64 things as a number, thing k being the bit of value 2^k: the names of an item; or, in a table, written nodes.
ghost use Rattle.std.specs.Prelude.{◌≡◌, ◌<◌};
ghost use Rattle.meaning.specs.Names.{has};
ghost use Rattle.meaning.specs.Session.{with_name};

// Whether thing k is in a set.
pub fn on(set: u64, k: usize) -> bool
    requires { k < 64 }
    ensures { result ≡ has set k }
{
    (set >> k) % 2 == 1
}

// The set with thing k or without it; `there`: whether it is in the set.
pub fn with_bit(set: u64, k: usize, there: bool, yes: bool) -> u64
    requires { (k < 64) × (there ≡ has set k) }
    ensures { result ≡ with_name yes k set }
{
    if there {
        if yes {
            return set;
        }
        return set - (1u64 << k);
    }
    if yes {
        return set + (1u64 << k);
    }
    set
}

// The same where it is not known whether it is in the set.
pub fn marked(set: u64, k: usize, yes: bool) -> u64
    requires { k < 64 }
    ensures { result ≡ with_name yes k set }
{
    with_bit(set, k, on(set, k), yes)
}
