ghost use Rattle.std.specs.Prelude.{◌≡◌, ◌≤◌, map, length};
ghost use Rattle.week.specs.Texts.{written};
ghost use Rattle.week.specs.Reports.{or_dash, row};

use arrayvec::ArrayString;
use itoa::Buffer;

// Room for six numbers of ten digits, a byte after each.
const ROOM: usize = 66;

// A line of a report, in fixed memory.
pub(crate) type Text = ArrayString<ROOM>;

// A field of a report line.
#[derive(Clone, Copy)]
pub(crate) enum Cell {
    Sign(char),
    Number(u32),
}

// A number, or `-` where there is none.
impl From<Option<u32>> for Cell {
    ghost from_gives = { λ n cell. written cell ≡ or_dash n };

    fn from(n: Option<u32>) -> Cell {
        n.map_or(Cell::Sign('-'), Cell::Number)
    }
}

// The line of these fields, after its number.
pub(crate) fn row(number: u32, cells: &[Cell]) -> Text
    requires { length cells.now ≤ 5 }
    ensures { result.bytes ≡ row number (map written cells.now) }
{
    let mut text = Text::new();
    text.push_str(Buffer::new().format(number));
    for cell in cells {
        text.push('\t');
        match *cell {
            Cell::Sign(c) => text.push(c),
            Cell::Number(n) => text.push_str(Buffer::new().format(n)),
        }
    }
    text.push('\n');
    text
}
