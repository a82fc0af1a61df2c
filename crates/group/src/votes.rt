ghost use Rattle.std.specs.Prelude.{◌≡◌, ◌≤◌, ◌&&◌, length};
ghost use Rattle.terms.specs.Tests.{tally};
ghost use Rattle.terms.specs.Votes.{votes};
ghost use Rattle.group.specs.Sets.{has};
ghost use Rattle.group.specs.View.{box_at};

use crate::replica::Replica;
use terms::Voters;

// How many of the voters' pools hold the job. The boxes' numbers are below 9.
pub(crate) fn holders(boxes: &[Replica], voters: Voters, job: usize) -> usize
    requires { length boxes.now ≤ 9 }
    ensures { result ≡ tally (length boxes.now) (λ r. votes voters r && has (box_at boxes.now r).pool job) }
{
    boxes
        .iter()
        .zip(0..9)
        .filter(|(at, r)| voters.has(*r) && at.pool.has(job))
        .count()
}
