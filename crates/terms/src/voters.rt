ghost use Rattle.std.specs.Prelude.{◌≡◌, ◌&&◌, nat_le};
ghost use Rattle.terms.specs.Votes.{votes, no_voters, with_voter, vote_count, has_stranger};

// A set of voters, by the digits 0 to 9.
#[derive(Clone, Copy, PartialEq, Eq, Debug)]
pub struct Voters {
    named: [bool; 10],
}

impl Voters {
    pub fn none() -> Voters
        ensures { result ≡ no_voters }
    {
        Voters { named: [false; 10] }
    }

    // The set with one digit more; a number above 9 adds nothing.
    pub fn with(self, digit: u32) -> Voters
        ensures { result ≡ with_voter self digit }
    {
        let mut named = self.named;
        if digit < 10 {
            named[digit as usize] = true;
        }
        Voters { named }
    }

    pub fn has(&self, digit: u32) -> bool
        ensures { result ≡ votes self.now digit }
    {
        if digit < 10 {
            self.named[digit as usize]
        } else {
            false
        }
    }

    // How many digits are in the set.
    pub fn count(&self) -> u32
        ensures { result ≡ vote_count self.now }
    {
        // A loop and no chain: a count of what a filter leaves takes four times as long.
        let mut n = 0;
        for named in &self.named {
            if *named {
                n += 1;
            }
        }
        n
    }

    // The digit is in the set, and is no box of a group of `size`.
    fn names_beyond(&self, size: u32, digit: u32) -> bool
        ensures { result ≡ (nat_le size digit && votes self.now digit) }
    {
        size <= digit && self.has(digit)
    }

    // Some digit in the set is no box of a group of `size`.
    pub fn has_stranger(&self, size: u32) -> bool
        ensures { result ≡ has_stranger size self.now }
    {
        (0..10).any(|digit| self.names_beyond(size, digit))
    }
}
