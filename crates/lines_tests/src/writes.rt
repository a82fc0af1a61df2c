use base::{Fault, Layer, Record, Refusal};
use lines::{LARGEST, Step, write_line};
use protocol::Setting;
use std::process::Abort;
use terms::{Call, Voters};

// The step is written at the front, and every other byte stays a dot.
fn writes(rt: &impl Abort, step: Step, line: &[u8]) {
    let mut out = [b'.'; 40];
    assert_eq!(rt; write_line(step, &mut out), Ok(line.len()));
    assert!(rt; out.starts_with(line));
    assert!(rt; out.iter().skip(line.len()).all(|b| *b == b'.'));
}

// The step is refused, and every byte stays a dot.
fn refuses(rt: &impl Abort, step: Step, out: &mut [u8], number: Refusal, field: Option<u8>) {
    let fault = Fault {
        number,
        field,
        layer: Layer::Text,
    };
    out.fill(b'.');
    assert_eq!(rt; write_line(step, out), Err(fault));
    assert!(rt; out.iter().all(|b| *b == b'.'));
}

fn bad_field(rt: &impl Abort, step: Step, field: u8) {
    refuses(rt, step, &mut [0; 40], Refusal::BadField, Some(field));
}

fn proposal(x: u32, z: u32) -> Step {
    Step::Call(Call::Propose(Record {
        book: 1,
        act: 2,
        x,
        y: 40,
        z,
    }))
}

fn start(size: u32, leader: u32) -> Step {
    Step::Start(Setting {
        size,
        leader,
        fast: false,
    })
}

#[test]
fn each_letter(rt: HostRuntime) {
    let voters = Voters::none().with(0).with(3).with(9);
    let (replica, job) = (1, 20);
    writes(&rt, start(5, 3), b"W\t5\t3\t0\n");
    writes(&rt, proposal(3, LARGEST), b"P\t1\t2\t3\t40\t999999\n");
    writes(
        &rt,
        Step::Call(Call::Receive { replica, job }),
        b"R\t1\t20\n",
    );
    writes(&rt, Step::Call(Call::Hear { replica, job }), b"H\t1\t20\n");
    writes(
        &rt,
        Step::Call(Call::Notice { replica, job }),
        b"N\t1\t20\n",
    );
    writes(&rt, Step::Call(Call::Sync), b"Y\n");
    writes(
        &rt,
        Step::Call(Call::Change { leader: 30, voters }),
        b"L\t30\t039\n",
    );
    writes(&rt, Step::Call(Call::Query { job: 0 }), b"Q\t0\n");
}

#[test]
fn room(rt: HostRuntime) {
    refuses(&rt, start(5, 3), &mut [0; 39], Refusal::ShortBuffer, None);
    refuses(
        &rt,
        start(LARGEST + 1, 3),
        &mut [0; 39],
        Refusal::ShortBuffer,
        None,
    );
    refuses(&rt, start(5, 3), &mut [], Refusal::ShortBuffer, None);
}

#[test]
fn first_bad_field(rt: HostRuntime) {
    let voters = Voters::none();
    bad_field(&rt, start(LARGEST + 1, LARGEST + 1), 2);
    bad_field(&rt, start(5, LARGEST + 1), 3);
    bad_field(&rt, proposal(LARGEST + 1, LARGEST + 1), 4);
    bad_field(&rt, proposal(3, LARGEST + 1), 6);
    bad_field(
        &rt,
        Step::Call(Call::Receive {
            replica: 1,
            job: LARGEST + 1,
        }),
        3,
    );
    bad_field(&rt, Step::Call(Call::Query { job: u32::MAX }), 2);
    bad_field(
        &rt,
        Step::Call(Call::Change {
            leader: LARGEST + 1,
            voters,
        }),
        2,
    );
    bad_field(&rt, Step::Call(Call::Change { leader: 1, voters }), 3);
}
