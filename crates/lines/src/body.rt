ghost use Rattle.std.specs.Prelude.{◌≡◌, ◌≤◌, true, false, length, MatchResult};
ghost use Rattle.base.specs.declared.fault.Refusal.TheVariants.{BadLine};
ghost use Rattle.lines.specs.Faults.{refused as refused_of};
ghost use Rattle.lines.specs.Forms.{allowed as allowed_of, fits, body as body_of};
ghost use Rattle.lines.specs.Limits.{longest};

use crate::fault::refused;
use crate::limits::LONGEST;
use base::{Fault, Refusal};

// A byte that a line may have before its end.
fn allowed(b: u8) -> bool
    ensures { result ≡ allowed_of b }
{
    matches!(b, b'\t' | b'0'..=b'9' | b'A'..=b'Z')
}

// The line without its end.
pub(crate) fn body(line: &[u8]) -> Result<&[u8], Fault>
    ensures { MatchResult result (λ b. (fits line.now ≡ true) × (b.now ≡ body_of line.now) × (length b.now ≤ longest)) (λ e. (fits line.now ≡ false) × (e ≡ refused_of BadLine)) }
{
    if line.len() > LONGEST {
        return Err(refused(Refusal::BadLine));
    }
    // By a rule of this project each byte of a line is looked at in one loop with its index.
    for (i, b) in line.iter().enumerate() {
        if *b == b'\n' {
            return if i + 1 == line.len() {
                Ok(&line[..i])
            } else {
                Err(refused(Refusal::BadLine))
            };
        }
        if !allowed(*b) {
            return Err(refused(Refusal::BadLine));
        }
    }
    Err(refused(Refusal::BadLine))
}
