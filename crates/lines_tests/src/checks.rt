use lines::lidvauma_check_line;
use std::process::Abort;

// Each line must get the answer.
fn all_answer(rt: &impl Abort, lines: &[&[u8]], answer: u32) {
    for line in lines {
        assert_eq!(rt; lidvauma_check_line(line), answer);
    }
}

#[test]
fn steps_pass(rt: HostRuntime) {
    let lines: [&[u8]; 12] = [
        b"W\t5\t0\t1\n",
        b"W\t4\t9\t0\n",
        b"P\t1\t2\t3\t4\t999999\n",
        b"P\t0\t0\t0\t0\t0\n",
        b"R\t1\t2\n",
        b"H\t1\t2\n",
        b"N\t1\t2\n",
        b"Y\n",
        b"L\t1\t0139\n",
        b"L\t1\t01\n",
        b"L\t999999\t0123456789\n",
        b"Q\t0\n",
    ];
    all_answer(&rt, &lines, 0);
}

#[test]
fn bad_lines(rt: HostRuntime) {
    let lines: [&[u8]; 14] = [
        b"",
        b"Y",
        b"Q\t1",
        b"Y\n\n",
        b"\nY\n",
        b"y\n",
        b"Q\t-1\n",
        b"Q 1\n",
        b"Q\t1\r\n",
        b"Q\t\x00\n",
        b"Q\t\xff\n",
        b"Q\t1\n\x00",
        b"Z\xff\n",
        b"Q\t12345678901234567890123456789012345678\n",
    ];
    all_answer(&rt, &lines, 11);
}

#[test]
fn unknown_letters(rt: HostRuntime) {
    let lines: [&[u8]; 8] = [
        b"\n", b"\tQ\n", b"Z\n", b"QQ\t1\n", b"5\n", b"Z\t01\n", b"A\t\t\n", b"YY\n",
    ];
    all_answer(&rt, &lines, 12);
}

#[test]
fn wrong_counts(rt: HostRuntime) {
    let lines: [&[u8]; 11] = [
        b"W\t5\t0\n",
        b"W\t5\t0\t1\t1\n",
        b"P\t1\t2\t3\t4\n",
        b"R\t01\n",
        b"R\t1\t2\t3\n",
        b"H\t\n",
        b"N\n",
        b"Y\t\n",
        b"L\t1\n",
        b"Q\n",
        b"Q\t1\t\n",
    ];
    all_answer(&rt, &lines, 13);
}

#[test]
fn bad_fields(rt: HostRuntime) {
    let lines: [&[u8]; 16] = [
        b"Q\t\n",
        b"Q\t00\n",
        b"Q\t01\n",
        b"Q\t1000000\n",
        b"Q\t9999999\n",
        b"Q\t4294967296\n",
        b"Q\tA\n",
        b"Q\t1A\n",
        b"Q\t1234567890123456789012345678901234567\n",
        b"W\t5\t0\t2\n",
        b"W\t5\t0\t\n",
        b"W\t5\t0\t01\n",
        b"L\t1\t\n",
        b"L\t1\t10\n",
        b"L\t1\t11\n",
        b"L\t1\t0A\n",
    ];
    all_answer(&rt, &lines, 14);
}
