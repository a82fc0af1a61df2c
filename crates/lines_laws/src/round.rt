ghost use Rattle.std.specs.Prelude.{◌≡◌, length};
ghost use Rattle.lines.specs.Reading.{parse};
ghost use Rattle.lines_laws.specs.Laws.{OneStep, ReadsBack, Sound, WritesBack};
ghost use Rattle.lines_laws.specs.Rounds.{copied, copied_buffer, echoed};

use crate::theorem::laws;
use base::Fault;
use lines::{Step, read_line, write_line};

fn write_and_read(step: Step, out: &mut [u8]) -> Result<Step, Fault>
    ensures { Sound step → result ≡ echoed step (length out.old) }
{
    let n = write_line(step, out)?;
    read_line(&out[0..n])
}

fn read_and_write(line: &[u8], out: &mut [u8]) -> Result<usize, Fault>
    ensures told { result ≡ copied (parse line.now) line.now (length out.old) }
    ensures buffer { out.new ≡ copied_buffer result line.now out.old }
{
    write_line(read_line(line)?, out)
}

// Writes a step and reads what was written: that very step, or the writer's fault.
// Every step that can be written is read back, and no two of them have one line.
pub fn echo(step: Step, out: &mut [u8]) -> Result<Step, Fault>
    ensures back { ReadsBack }
    ensures one { OneStep }
    ensures same { Sound step → result ≡ echoed step (length out.old) }
{
    laws();
    write_and_read(step, out)
}

// Reads a line and writes the step that it is: that very line, or the fault.
// Every line that is read as a step is the line that is written for it.
pub fn copy_line(line: &[u8], out: &mut [u8]) -> Result<usize, Fault>
    ensures back { WritesBack }
    ensures told { result ≡ copied (parse line.now) line.now (length out.old) }
    ensures buffer { out.new ≡ copied_buffer result line.now out.old }
{
    laws();
    read_and_write(line, out)
}
