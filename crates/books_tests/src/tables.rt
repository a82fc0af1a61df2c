use base::Record;
use books::Book;
use std::process::Abort;

// A record by its five numbers: book, act, x, y, z.
fn record(numbers: [u32; 5]) -> Record {
    let [book, act, x, y, z] = numbers;
    Record { book, act, x, y, z }
}

// Each row: a record and its first wrong field, which is also the fault's.
pub(crate) fn fits_as<B: Book>(rt: &impl Abort, rows: &[([u32; 5], Option<u8>)]) {
    for (numbers, wrong) in rows {
        let job = record(*numbers);
        assert_eq!(rt; B::fits(job), *wrong);
        match B::check(job) {
            Ok(()) => assert_eq!(rt; *wrong, None),
            Err(fault) => {
                assert_eq!(rt; fault.field, *wrong);
                assert_eq!(rt; u32::from(fault.number), 3);
                assert_eq!(rt; fault.layer.name(), "book");
            }
        }
    }
}

// Each row: two records and whether they clash, in both orders.
pub(crate) fn clash_as<B: Book>(rt: &impl Abort, rows: &[([u32; 5], [u32; 5], bool)]) {
    for (a, b, clash) in rows {
        assert_eq!(rt; B::clash(record(*a), record(*b)), *clash);
        assert_eq!(rt; B::clash(record(*b), record(*a)), *clash);
    }
}

// Each row: a record applied to one book in turn, and its result.
pub(crate) fn runs_as<B: Book + Drop>(rt: &impl Abort, rows: &[([u32; 5], u32)]) {
    let mut book = B::fresh();
    for (numbers, result) in rows {
        let job = record(*numbers);
        assert_eq!(rt; book.look(job), *result);
        assert_eq!(rt; book.apply(job), *result);
    }
}
