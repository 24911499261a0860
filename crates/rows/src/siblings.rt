// Trees that stand one after the other in the rows, as the children of a node do.
ghost use Rattle.std.specs.Prelude.{◌≡◌, ◌-◌};
ghost use Rattle.std.specs.Iterator.{at_most};
ghost use Rattle.rows.specs.Rising.{Rising, Stepped};

// An iterator of the rows where they begin; `ends` has the row just past each.
#[derive(Drop)]
pub struct Siblings<'a> {
    pub ends: &'a [u8; 64],
    pub at: usize,
    pub end: usize,
}

impl Iterator for Siblings<'_> {
    type Item = usize;

    ghost can_next = { λ s. Rising s.ends.now s.at s.end };

    ghost remaining = { λ s. at_most (s.end - s.at) };

    ghost next_gives = { λ s r t. (t.ends ≡ s.ends) × (t.end ≡ s.end) × Stepped s.ends.now s.at s.end r t.at };

    #[inline]
    fn next(&mut self) -> Option<usize> {
        if self.end <= self.at {
            return None;
        }
        let row = self.at;
        self.at = usize::from(self.ends[row]);
        Some(row)
    }
}
