#![tactic(auto)]

use logs::{ArrayLog, Continued, LineLog, Log, ShippedLog};
use std::process::Abort;
use std::test::Fail;

type Log512 = Continued<ShippedLog, ShippedLog>;

type Log1024 = Continued<Log512, Log512>;

type Log2048 = Continued<Log1024, Log1024>;

type Log3072 = Continued<Log2048, Log1024>;

type Log4096 = Continued<Log2048, Log2048>;

// Takes as many numbers as its capacity; then it refuses, and holds what it held.
#[cfg(test)]
fn fills_up<L: Log + Drop>(rt: &impl Abort, capacity: u16) -> Result<(), Fail> {
    assert_eq!(rt; L::capacity(), usize::from(capacity));
    let mut log = L::fresh();
    for number in 0..capacity {
        assert!(rt; log.add(number).is_ok());
    }
    let Err(fault) = log.add(7) else {
        return Err(Fail::new("a full log took a number"));
    };
    assert_eq!(rt; u32::from(fault.number), 4);
    assert_eq!(rt; fault.field, None);
    assert_eq!(rt; fault.layer.name(), "log");
    assert_eq!(rt; log.length(), usize::from(capacity));
    for number in 0..capacity {
        assert_eq!(rt; log.get(usize::from(number) + 1), Some(number));
    }
    assert_eq!(rt; log.get(0), None);
    assert_eq!(rt; log.get(usize::from(capacity) + 1), None);
    assert_eq!(rt; log.get(usize::MAX), None);
    Ok(())
}

#[test]
fn array_log(rt: HostRuntime) -> Result<(), Fail> {
    fills_up::<ArrayLog>(&rt, 128)
}

#[test]
fn line_log(rt: HostRuntime) -> Result<(), Fail> {
    fills_up::<LineLog>(&rt, 100)
}

#[test]
fn shipped_log(rt: HostRuntime) -> Result<(), Fail> {
    fills_up::<ShippedLog>(&rt, 256)
}

#[test]
fn lines_then_an_array(rt: HostRuntime) -> Result<(), Fail> {
    fills_up::<Continued<LineLog, ArrayLog>>(&rt, 228)
}

#[test]
fn an_array_then_lines(rt: HostRuntime) -> Result<(), Fail> {
    fills_up::<Continued<ArrayLog, LineLog>>(&rt, 228)
}

// The most that any log holds is reached within the second log.
#[test]
fn most_within_the_second(rt: HostRuntime) -> Result<(), Fail> {
    fills_up::<Continued<Log3072, Log2048>>(&rt, 4096)
}

// It is reached where the first log is full.
#[test]
fn most_at_the_border(rt: HostRuntime) -> Result<(), Fail> {
    fills_up::<Continued<Log4096, Log4096>>(&rt, 4096)
}

// The i-th of a hundred numbers from 65,535 down.
fn numbered(i: u16) -> u16 {
    65_535 - 661 * i.min(99)
}

#[test]
fn lines(rt: HostRuntime) -> Result<(), Fail> {
    let mut log = LineLog::fresh();
    let mut expected = String::new(rt.alloc());
    for i in 0..100 {
        assert!(rt; log.add(numbered(i)).is_ok());
        let number = numbered(i);
        expected.push_str(&format!(in rt.alloc(); "{number}\n")?)?;
    }
    assert_eq!(rt; log.text(), expected.as_bytes());
    for i in 0..100 {
        assert_eq!(rt; log.get(usize::from(i) + 1), Some(numbered(i)));
    }
    Ok(())
}

#[test]
fn few_lines(rt: HostRuntime) {
    let mut log = LineLog::fresh();
    assert_eq!(rt; log.text(), b"".as_slice());
    assert_eq!(rt; log.get(1), None);
    for number in [0, 10, 65_535, 7] {
        assert!(rt; log.add(number).is_ok());
    }
    assert_eq!(rt; log.text(), b"0\n10\n65535\n7\n".as_slice());
    assert_eq!(rt; log.length(), 4);
    assert_eq!(rt; log.get(3), Some(65_535));
    assert_eq!(rt; log.get(4), Some(7));
    assert_eq!(rt; log.get(5), None);
}
