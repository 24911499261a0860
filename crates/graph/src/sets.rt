// Sets of up to 512 items, as eight numbers of 64 bits: item x is bit x % 64 of number x / 64.
ghost use Rattle.std.specs.Prelude.{◌≡◌, Bool, true, false, ℕ, ◌+◌, ◌-◌, ◌*◌, ◌≤◌, ◌<◌};
ghost use Rattle.std.specs.Iterator.{at_most};
ghost use Rattle.meaning.specs.Bounds.{most_items};
ghost use Rattle.graph.specs.Sets.{in_set, All, Found, Stepped, With, Without, Retained};

use fields::bits;

// A set of items.
#[derive(Clone, Copy, Debug, PartialEq, Eq)]
pub struct Items {
    pub words: [u64; 8],
}

// What is left of a walk over a set, from its least item to its greatest.
#[derive(Drop)]
pub struct Members<'a> {
    pub set: &'a Items,
    pub from: usize,
}

impl Items {
    // The empty set.
    pub fn none() -> Items
        ensures { All 0 result.words }
    {
        Items { words: [0; 8] }
    }

    // The first so many items.
    pub fn first(items: usize) -> Items
        requires { items ≤ most_items }
        ensures { All items result.words }
    {
        let mut all = Items::none();
        for x in 0..items {
            all.insert(x);
        }
        all
    }

    // Whether it has an item.
    pub fn contains(&self, x: usize) -> bool
        requires { x < most_items }
        ensures { result ≡ in_set self.now.words x }
    {
        bits::on(self.words[x / 64], x % 64)
    }

    // Whether it has none.
    pub fn is_empty(&self) -> bool
        ensures yes { result ≡ true → (x : ℕ) → in_set self.now.words x ≡ false }
        ensures no { result ≡ false → (x : ℕ) × (x < most_items) × (in_set self.now.words x ≡ true) }
    {
        self.next(0).is_none()
    }

    // Puts an item into it.
    pub fn insert(&mut self, x: usize)
        requires { x < most_items }
        ensures { With self.old.words x self.new.words }
    {
        self.words[x / 64] |= 1u64 << (x % 64);
    }

    // Takes an item out of it that it has.
    pub fn remove(&mut self, x: usize)
        requires { (x < most_items) × (in_set self.old.words x ≡ true) }
        ensures { Without self.old.words x self.new.words }
    {
        let w = x / 64;
        self.words[w] = bits::with_bit(self.words[w], x % 64, true, false);
    }

    // The least item in it from `from` on.
    pub fn next(&self, from: usize) -> Option<usize>
        requires { from ≤ most_items }
        ensures { Found self.now.words from result }
    {
        if meaning::MOST_ITEMS <= from {
            return None;
        }
        let w = from / 64;
        let rest = self.words[w] >> (from % 64);
        if rest != 0 {
            return Some(from + rest.trailing_zeros() as usize);
        }
        self.next_word(w + 1)
    }

    // The least item in the numbers from the w-th on.
    fn next_word(&self, w: usize) -> Option<usize>
        requires { w ≤ 8 }
        ensures { Found self.now.words (w * 64) result }
    {
        for i in w..8 {
            let n = self.words[i];
            if n != 0 {
                return Some(i * 64 + n.trailing_zeros() as usize);
            }
        }
        None
    }

    // Its items, from the least to the greatest.
    pub fn members(&self) -> Members<'_>
        ensures { (result.set.now ≡ self.now) × (result.from ≡ 0) }
    {
        Members { set: self, from: 0 }
    }

    // Of its items stay those of which `keep` says yes.
    pub fn retain<F: Fn(usize) -> bool>(&mut self, keep: F)
        requires { (x : ℕ) → x < most_items → in_set self.old.words x ≡ true → F.pre keep x }
        ensures { Retained (F.post keep) self.old.words self.new.words }
    {
        let old = *self;
        for x in old.members() {
            if !keep(x) {
                self.remove(x);
            }
        }
    }

    // How far it has all items from `from` on, as far as one of its numbers tells.
    pub fn full_from(&self, from: usize) -> usize
        requires { from < most_items }
        ensures { (x : ℕ) → from ≤ x → x < result → in_set self.now.words x ≡ true }
    {
        let rest = self.words[from / 64] >> (from % 64);
        from + (u64::MAX - rest).trailing_zeros() as usize
    }
}

impl Iterator for Members<'_> {
    type Item = usize;

    ghost can_next = { λ s. s.from ≤ most_items };

    ghost next_gives = { λ s r t. (t.set ≡ s.set) × Stepped s.set.now.words s.from r t.from };

    ghost remaining = { λ s. at_most (most_items - s.from) };

    fn next(&mut self) -> Option<usize> {
        let x = self.set.next(self.from)?;
        self.from = x + 1;
        Some(x)
    }
}
