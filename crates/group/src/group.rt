ghost use Rattle.std.specs.Prelude.{◌≡◌, ◌≤◌, true, vec_len, vec_capacity};
ghost use Rattle.terms.specs.Tests.{all_below};

use crate::job::Job;
use crate::replica::Replica;
use crate::waiting::WaitingList;

mod change;
mod hear;
mod new;
mod notice;
mod propose;
mod query;
mod reads;
mod receive;
mod sync;

// A group of boxes over a book and a log. All its memory is taken when it is made.
#[derive(Drop)]
pub struct Group<B, L> {
    fast: bool,
    leader: u32,
    epoch: u32,
    waiting: WaitingList,
    jobs: Vec<Job>,
    boxes: Vec<Replica>,
    book: B,
    log: L,
    ghost few_boxes: { vec_len boxes ≤ 9 },
    ghost few_jobs: { vec_len jobs ≤ 256 },
    ghost roomy: { 256 ≤ vec_capacity jobs },
    ghost known: { all_below (vec_len jobs) waiting.jobs.items ≡ true },
}
