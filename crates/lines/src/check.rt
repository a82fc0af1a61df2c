ghost use Rattle.std.specs.Prelude.{◌≡◌};
ghost use Rattle.lines.specs.Reading.{answer, parse};

use crate::read::read_line;

// For a host written in C, by the crate lines_c: 0 where the line is a step's, else the refusal's number, 11 to 14.
pub fn lidvauma_check_line(line: &[u8]) -> u32
    ensures { result ≡ answer (parse line.now) }
{
    match read_line(line) {
        Ok(_) => 0,
        Err(fault) => u32::from(fault.number),
    }
}
