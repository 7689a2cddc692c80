// What the program prints.
use deposits::report::{Report, examine};
use std::alloc::Global;
use std::process::Abort;
use std::test::Fail;

// The like stands in amplitude_tests, for answers: a crate that both could use, for these lines alone, is no plainer.
fn prints(rt: &impl Abort, heap: Global, input: &[u8], line: &str) -> Result<(), Fail> {
    let report = Report {
        found: examine(input),
    };
    let text = format!(in heap; "{report}")?;
    assert!(rt; text.as_str() == line);
    Ok(())
}

#[test]
fn accepted(rt: HostRuntime) -> Result<(), Fail> {
    let heap = rt.alloc();
    prints(
        &rt,
        heap,
        b"0011\nn 2\nh 0\nc 0 1\n",
        "accepted 2 qubits, 5 spiders, 4 wires, 4 legs",
    )?;
    prints(
        &rt,
        heap,
        b"\nn 1\n",
        "accepted 1 qubits, 1 spiders, 0 wires, 2 legs",
    )?;
    prints(
        &rt,
        heap,
        b"no row\nn 16\n",
        "accepted 16 qubits, 16 spiders, 0 wires, 32 legs",
    )?;
    prints(
        &rt,
        heap,
        b"00\nn 3\ne 2 0\nd 1\nx 1\n",
        "accepted 3 qubits, 7 spiders, 5 wires, 6 legs",
    )
}

// The place is one in the circuit, not in the input.
#[test]
fn refused(rt: HostRuntime) -> Result<(), Fail> {
    let heap = rt.alloc();
    prints(&rt, heap, b"", "refused 21 0 reading")?;
    prints(&rt, heap, b"0011", "refused 21 0 reading")?;
    prints(&rt, heap, b"n 1\n", "refused 21 0 reading")?;
    prints(&rt, heap, b"0011\nn 17\n", "refused 23 2 reading")?;
    prints(&rt, heap, b"0\nn 2\nc 1 1\n", "refused 24 8 reading")?;
    prints(&rt, heap, b"0\nn 2\nc 1\n", "refused 22 7 reading")?;
    prints(&rt, heap, b"0\nn 2\nh 0 1\n", "refused 25 7 reading")
}

// A row of many bytes, and no circuit.
#[test]
fn long(rt: HostRuntime) -> Result<(), Fail> {
    let heap = rt.alloc();
    let mut input = vec![in heap; b'0'; 60_000]?;
    prints(&rt, heap, input.as_slice(), "refused 21 0 reading")?;
    input.push(b'0')?;
    prints(&rt, heap, input.as_slice(), "long")
}
