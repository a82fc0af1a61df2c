// One job as five whole numbers. What they mean is the book's to say.
#[derive(Clone, Copy, PartialEq, Eq, Debug, Default)]
pub struct Record {
    pub book: u32,
    pub act: u32,
    pub x: u32,
    pub y: u32,
    pub z: u32,
}

// The place of each number in a written job, where the job's letter is at place 1: a number and no kind,
// since lines have fields at these places too.
impl Record {
    pub const BOOK: u8 = 2;

    pub const ACT: u8 = 3;

    pub const X: u8 = 4;

    pub const Y: u8 = 5;

    pub const Z: u8 = 6;
}
