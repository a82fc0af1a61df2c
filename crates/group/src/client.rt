ghost use Rattle.std.specs.Prelude.{◌≡◌, ℕ, ◌≤◌, length, slice_index_or};
ghost use Rattle.terms.specs.declared.answers.Answer.TheVariants.{Empty};
ghost use Rattle.protocol.specs.Answers.{agrees, heard, declined, agreeing, declining, decide};

use protocol::{blocking, fast_quorum};
use terms::{Answer, Phase, Reply};

// What a job's client makes of the answers it has heard, box by box.

fn agrees_in(answer: Answer, epoch: u32) -> bool
    ensures { result ≡ agrees epoch (heard answer) }
{
    match answer {
        Answer::Heard(Reply::Yes { epoch: e } | Reply::Told { epoch: e, .. }) => e == epoch,
        _ => false,
    }
}

fn declines(answer: Answer) -> bool
    ensures { result ≡ declined answer }
{
    matches!(answer, Answer::Heard(Reply::No { .. }))
}

// How many answers agree in the epoch.
fn count_agreeing(answers: &[Answer], epoch: u32) -> usize
    ensures { result ≡ agreeing (length answers.now) (λ b. slice_index_or answers.now b Empty) epoch }
{
    answers
        .iter()
        .filter(|answer| agrees_in(**answer, epoch))
        .count()
}

// How many answers are no.
fn count_declining(answers: &[Answer]) -> usize
    ensures { result ≡ declining (length answers.now) (λ b. slice_index_or answers.now b Empty) }
{
    answers.iter().filter(|answer| declines(**answer)).count()
}

// The phase after what was heard; a settled one stays.
// A told result is confirmed where enough answers of its epoch agree; of several the last counts.
pub(crate) fn decision(answers: &[Answer], now: Phase) -> Phase
    requires { length answers.now ≤ 9 }
    ensures { result ≡ decide (length answers.now) (λ b. slice_index_or answers.now b Empty) now }
{
    let Phase::Waiting = now else {
        return now;
    };
    let size = answers.len() as u32;
    let mut phase = Phase::Waiting;
    if count_declining(answers) >= blocking(size) as usize {
        phase = Phase::Slow;
    }
    for answer in answers {
        if let Answer::Heard(Reply::Told { epoch, result }) = *answer {
            if count_agreeing(answers, epoch) >= fast_quorum(size) as usize {
                phase = Phase::Fast { result, epoch };
            }
        }
    }
    phase
}
