// What the program prints.
use replies::report::{Report, respond};
use std::alloc::Global;
use std::process::Abort;
use std::test::Fail;

// The like stands in conformance, for what is accepted: a crate for these lines alone is no plainer.
fn prints(rt: &impl Abort, heap: Global, input: &[u8], line: &str) -> Result<(), Fail> {
    let report = Report {
        found: respond(input),
    };
    let text = format!(in heap; "{report}")?;
    assert!(rt; text.as_str() == line);
    Ok(())
}

// The amplitudes are worked by hand: for a Bell pair 1/√2 at equal outputs and nothing at others; for H its four
// entries; for S a quarter turn at 1.
#[test]
fn answered(rt: HostRuntime) -> Result<(), Fail> {
    let heap = rt.alloc();
    prints(&rt, heap, b"0011\nn 2\nh 0\nc 0 1\n", "-1 0 4")?;
    prints(&rt, heap, b"0010\nn 2\nh 0\nc 0 1\n", "nought 4")?;
    prints(&rt, heap, b"11\nn 1\nh 0\n", "-1 4 2")?;
    prints(&rt, heap, b"11\nn 1\ns 0\n", "0 2 3")
}

// The circuit is read first, and then the row is judged: its length, and then its characters, of which all but 0
// and 1 count as 2.
#[test]
fn rows(rt: HostRuntime) -> Result<(), Fail> {
    let heap = rt.alloc();
    prints(&rt, heap, b"\nn 1\n", "refused 32 0 asking")?;
    prints(&rt, heap, b"001\nn 1\n", "refused 32 0 asking")?;
    prints(&rt, heap, b"02\nn 1\n", "refused 33 1 asking")?;
    prints(&rt, heap, b"a \nn 1\n", "refused 33 0 asking")?;
    prints(&rt, heap, b"no row\nn 17\n", "refused 23 2 reading")
}

// The place is one in the circuit, not in the input.
#[test]
fn refused(rt: HostRuntime) -> Result<(), Fail> {
    let heap = rt.alloc();
    prints(&rt, heap, b"", "refused 21 0 reading")?;
    prints(&rt, heap, b"0011", "refused 21 0 reading")?;
    prints(&rt, heap, b"n 1\n", "refused 21 0 reading")?;
    prints(&rt, heap, b"0011\nn 17\n", "refused 23 2 reading")?;
    prints(&rt, heap, b"0\nn 2\nc 1 1\n", "refused 24 8 reading")?;
    prints(&rt, heap, b"0\nn 2\nc 1\n", "refused 22 7 reading")?;
    prints(&rt, heap, b"0\nn 2\nh 0 1\n", "refused 25 7 reading")
}

// A row of many bytes, and no circuit.
#[test]
fn long(rt: HostRuntime) -> Result<(), Fail> {
    let heap = rt.alloc();
    let mut input = vec![in heap; b'0'; 60_000]?;
    prints(&rt, heap, input.as_slice(), "refused 21 0 reading")?;
    input.push(b'0')?;
    prints(&rt, heap, input.as_slice(), "long")
}
