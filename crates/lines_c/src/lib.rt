// The line check as a library for a host written in C.
#![tactic(auto)]

ghost use Rattle.std.specs.Prelude.{◌≡◌};
ghost use Rattle.lines.specs.Reading.{answer, parse};

// A slice is a pointer and then a length to C. 0 where the line is a step's, else the refusal's number, 11 to 14.
#[unsafe(no_mangle)]
pub extern "C" fn lidvauma_check_line(line: &[u8]) -> u32
    ensures { result ≡ answer (parse line.now) }
{
    lines::lidvauma_check_line(line)
}
