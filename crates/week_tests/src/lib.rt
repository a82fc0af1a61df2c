#![tactic(auto)]

use base::{Fault, Layer, Refusal};
use books::ShippedBooks;
use logs::ShippedLog;
use std::process::Abort;
use std::test::Fail;
use terms::{Call, Phase, Status};
use week::{Event, Outcome, report_line, run_week};

// The file must give the report.
#[cfg(test)]
fn gives(rt: &(impl Abort + AllocGlobal), file: &[u8], report: &[u8]) -> Result<(), Fail> {
    let told = run_week::<ShippedBooks, ShippedLog>(rt.alloc(), file)?;
    assert!(rt; told.as_slice() == report);
    Ok(())
}

// One job from its proposal to the log; then nothing waits.
#[test]
fn one_job(rt: HostRuntime) -> Result<(), Fail> {
    gives(
        &rt,
        b"W\t3\t0\t1\nP\t0\t1\t7\t55\t0\nR\t0\t0\nR\t1\t0\nR\t2\t0\nH\t0\t0\nH\t1\t0\nH\t2\t0\nY\nQ\t0\nY\n",
        b"1\tW\t3\t2\t1\n2\tP\t0\n3\tR\ty\n4\tR\ty\n5\tR\ty\n6\tH\tw\n7\tH\tw\n8\tH\tf\n9\tY\t0\t0\n10\tQ\tf\t0\t1\t0\n11\tY\t!\t8\n",
    )
}

// A notice, a change, and a job of which nothing is known yet; a misfit has its field.
#[test]
fn other_calls(rt: HostRuntime) -> Result<(), Fail> {
    gives(
        &rt,
        b"W\t3\t0\t1\nP\t0\t0\t7\t0\t0\nQ\t0\nR\t0\t0\nY\nN\t0\t0\nL\t1\t02\nP\t0\t0\t256\t0\t0\nR\t9\t0\n",
        b"1\tW\t3\t2\t1\n2\tP\t0\n3\tQ\tw\t-\t-\t-\n4\tR\ty\n5\tY\t0\t0\n6\tN\t0\n7\tL\t2\t0\n8\tP\t!\t3\t4\n9\tR\t!\t5\n",
    )
}

// The fast way is off; a request after the notice is dropped; what the group refuses lets the run go on.
#[test]
fn slow_and_refused(rt: HostRuntime) -> Result<(), Fail> {
    gives(
        &rt,
        b"W\t3\t0\t0\nP\t0\t1\t7\t5\t0\nR\t0\t0\nH\t0\t0\nY\nN\t1\t0\nR\t1\t0\nR\t1\t0\nQ\t1\nL\t1\t0\nL\t3\t01\nY\t1\n",
        b"1\tW\t3\t2\t1\n2\tP\t0\n3\tR\tn\n4\tH\ts\n5\tY\t0\t0\n6\tN\t0\n7\tR\td\n8\tR\t!\t7\n9\tQ\t!\t6\n10\tL\t!\t9\n11\tL\t!\t2\n12\t#\t13\t0\n",
    )
}

// What ends a run; nothing after it is looked at.
#[test]
fn ends(rt: HostRuntime) -> Result<(), Fail> {
    gives(&rt, b"", b"1\t#\t15\t0\n")?;
    gives(&rt, b"Y\nY\n", b"1\t#\t15\t0\n")?;
    gives(&rt, b"W\t4\t0\t1\nY\n", b"1\t#\t1\t0\n")?;
    gives(&rt, b"W\t3\t3\t1\nY\n", b"1\t#\t2\t0\n")?;
    gives(
        &rt,
        b"W\t3\t0\t1\nW\t4\t0\t1\nY\n",
        b"1\tW\t3\t2\t1\n2\t#\t15\t0\n",
    )?;
    gives(
        &rt,
        b"W\t3\t0\t1\nQ\t01\nY\n",
        b"1\tW\t3\t2\t1\n2\t#\t14\t2\n",
    )?;
    gives(&rt, b"W\t3\t0\t1\n\nY\n", b"1\tW\t3\t2\t1\n2\t#\t12\t0\n")?;
    gives(&rt, b"W\t3\t0\t1\nY", b"1\tW\t3\t2\t1\n2\t#\t11\t0\n")
}

// A file of the longest length is run, one byte more is not.
#[test]
fn longest(rt: HostRuntime) -> Result<(), Fail> {
    let file = [b'\n'; 60_001];
    gives(&rt, &file[0..60_000], b"1\t#\t12\t0\n")?;
    gives(&rt, &file, b"0\t#\t17\t0\n")
}

// Forty bytes take a line of a run, fewer take none, and what follows the line stays.
#[test]
fn buffers(rt: HostRuntime) {
    let status = Status {
        phase: Phase::Fast {
            result: 4_294_967_295,
            epoch: 1,
        },
        told: Some(4_294_967_295),
        place: Some(4096),
        given: Some(4_294_967_295),
    };
    let event = Event::Told(Outcome::Queried(status));
    let short = Err(Fault::of(Refusal::ShortBuffer, Layer::Text));
    let mut small = [b'x'; 39];
    assert_eq!(rt; report_line(60_000, event, &mut small), short);
    assert!(rt; small == [b'x'; 39]);
    let mut out = [b'x'; 40];
    assert_eq!(rt; report_line(60_000, event, &mut out), Ok(37));
    assert!(rt; out == *b"60000\tQ\tf\t4294967295\t4096\t4294967295\nxxx");
    let fault = Fault::of(Refusal::NothingWaits, Layer::Group);
    assert_eq!(rt;
        report_line(11, Event::Refused(Call::Sync, fault), &mut out),
        Ok(9)
    );
    assert!(rt; out == *b"11\tY\t!\t8\n\t4294967295\t4096\t4294967295\nxxx");
}
