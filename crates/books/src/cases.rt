ghost use Rattle.books.specs.Cases.{ClashCases};

use crate::ShippedBooks;
use crate::book::Book;
use base::Record;

const SLOT_7: Record = Record {
    book: 0,
    act: 1,
    x: 7,
    y: 1,
    z: 0,
};

const SLOT_8: Record = Record { x: 8, ..SLOT_7 };

const FROM_8_TO_10: Record = Record {
    book: 1,
    act: 0,
    x: 3,
    y: 8,
    z: 10,
};

const FROM_10_TO_12: Record = Record {
    y: 10,
    z: 12,
    ..FROM_8_TO_10
};

const FROM_9_TO_12: Record = Record {
    y: 9,
    z: 12,
    ..FROM_8_TO_10
};

const OTHER_VEHICLE: Record = Record {
    x: 4,
    ..FROM_8_TO_10
};

// Which of five pairs of records clash: one slot, two slots; hours in a row, with one in common, of two vehicles.
pub fn clash_cases() -> [bool; 5]
    ensures { ClashCases result }
{
    [
        ShippedBooks::clash(SLOT_7, SLOT_7),
        ShippedBooks::clash(SLOT_7, SLOT_8),
        ShippedBooks::clash(FROM_8_TO_10, FROM_10_TO_12),
        ShippedBooks::clash(FROM_8_TO_10, FROM_9_TO_12),
        ShippedBooks::clash(FROM_8_TO_10, OTHER_VEHICLE),
    ]
}
