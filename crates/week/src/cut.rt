ghost use Rattle.std.specs.Prelude.{◌≡◌, ◌<◌, length, MatchOption};
ghost use Rattle.std.specs.Iterator.{at_most};
ghost use Rattle.week.specs.Cuts.{first_line, after_first};

// The lines of `rest`, each with its end; the last may lack it.
// It stands around `split_inclusive`, since in a generic function no `for` over an iterator that holds a closure is proved.
#[derive(Drop)]
pub(crate) struct Lines<'a> {
    pub(crate) rest: &'a [u8],
}

impl<'a> Iterator for Lines<'a> {
    type Item = &'a [u8];

    ghost next_gives = { λ s r t. MatchOption r (length s.rest.now ≡ 0)
        (λ line. (0 < length s.rest.now) × (line.now ≡ first_line s.rest.now) × (t.rest.now ≡ after_first s.rest.now)) };

    ghost remaining = { λ s. at_most (length s.rest.now) };

    fn next(&mut self) -> Option<&'a [u8]> {
        let line = self.rest.split_inclusive(|b| *b == b'\n').next()?;
        self.rest = &self.rest[line.len()..];
        Some(line)
    }
}
