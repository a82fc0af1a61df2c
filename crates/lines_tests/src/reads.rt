use base::{Fault, Layer, Record, Refusal};
use lines::{Step, read_line};
use protocol::Setting;
use std::process::Abort;
use terms::{Call, Voters};

fn gives(rt: &impl Abort, line: &[u8], step: Step) {
    assert_eq!(rt; read_line(line), Ok(step));
}

fn refuses(rt: &impl Abort, line: &[u8], number: Refusal, field: Option<u8>) {
    let fault = Fault {
        number,
        field,
        layer: Layer::Text,
    };
    assert_eq!(rt; read_line(line), Err(fault));
}

#[test]
fn each_letter(rt: HostRuntime) {
    let setting = Setting {
        size: 5,
        leader: 3,
        fast: true,
    };
    let record = Record {
        book: 1,
        act: 2,
        x: 3,
        y: 40,
        z: 999_999,
    };
    let (replica, job) = (1, 20);
    gives(&rt, b"W\t5\t3\t1\n", Step::Start(setting));
    gives(
        &rt,
        b"P\t1\t2\t3\t40\t999999\n",
        Step::Call(Call::Propose(record)),
    );
    gives(
        &rt,
        b"R\t1\t20\n",
        Step::Call(Call::Receive { replica, job }),
    );
    gives(&rt, b"H\t1\t20\n", Step::Call(Call::Hear { replica, job }));
    gives(
        &rt,
        b"N\t1\t20\n",
        Step::Call(Call::Notice { replica, job }),
    );
    gives(&rt, b"Y\n", Step::Call(Call::Sync));
    gives(&rt, b"Q\t0\n", Step::Call(Call::Query { job: 0 }));
}

#[test]
fn voters(rt: HostRuntime) {
    let two = Voters::none().with(0).with(9);
    gives(
        &rt,
        b"L\t4\t09\n",
        Step::Call(Call::Change {
            leader: 4,
            voters: two,
        }),
    );
    let all = (0..10).fold(Voters::none(), Voters::with);
    gives(
        &rt,
        b"L\t4\t0123456789\n",
        Step::Call(Call::Change {
            leader: 4,
            voters: all,
        }),
    );
}

#[test]
fn first_wrong_field(rt: HostRuntime) {
    refuses(&rt, b"W\tA\t02\t7\n", Refusal::BadField, Some(2));
    refuses(&rt, b"W\t1\t02\t7\n", Refusal::BadField, Some(3));
    refuses(&rt, b"W\t1\t2\t7\n", Refusal::BadField, Some(4));
    refuses(&rt, b"P\t1\t2\t3\t\t1000000\n", Refusal::BadField, Some(5));
    refuses(&rt, b"P\t1\t2\t3\t4\t1000000\n", Refusal::BadField, Some(6));
    refuses(&rt, b"L\t01\t10\n", Refusal::BadField, Some(2));
    refuses(&rt, b"L\t1\t10\n", Refusal::BadField, Some(3));
}

#[test]
fn lowest_number_wins(rt: HostRuntime) {
    refuses(&rt, b"z\t01\n", Refusal::BadLine, None);
    refuses(&rt, b"Z\t01\n", Refusal::UnknownLetter, None);
    refuses(&rt, b"R\t01\n", Refusal::WrongFieldCount, None);
    refuses(&rt, b"R\t01\t2\n", Refusal::BadField, Some(2));
}
