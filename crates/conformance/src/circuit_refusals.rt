// Every refusal of circuit text, with its place.
use circuits::text::CircuitText;
use deposits::tally::tally_all;
use diagrams::source::Source;
use refusals::Fault;
use refusals::reason::Reason;
use std::alloc::{AllocError, Global};
use std::process::Abort;
use std::test::Fail;

// Asks up to the end or the fault, and once more, which gives the same again.
fn fault_of(text: &[u8]) -> Option<Fault> {
    let mut source = CircuitText::new(text);
    let fault = tally_all(&mut source).err()?;
    (source.next() == Err(fault)).then_some(fault)
}

fn refused(rt: &impl Abort, text: &[u8], number: u8, place: usize) -> Result<(), Fail> {
    let fault = fault_of(text).ok_or("accepted")?;
    assert_eq!(rt; fault.number(), number);
    assert_eq!(rt; fault.place(), place);
    Ok(())
}

fn accepted(rt: &impl Abort, text: &[u8]) {
    assert!(rt; fault_of(text).is_none());
}

#[test]
fn ends_early(rt: HostRuntime) -> Result<(), Fail> {
    refused(&rt, b"", 21, 0)?;
    refused(&rt, b"n", 22, 1)?;
    refused(&rt, b"n ", 22, 2)?;
    refused(&rt, b"n 2", 25, 3)?;
    accepted(&rt, b"n 2\n");
    refused(&rt, b"n 2\nc", 22, 5)?;
    refused(&rt, b"n 2\nc ", 22, 6)?;
    refused(&rt, b"n 2\nc 0", 22, 7)?;
    refused(&rt, b"n 2\nc 0 ", 22, 8)?;
    refused(&rt, b"n 2\nc 0 1", 25, 9)?;
    accepted(&rt, b"n 2\nc 0 1\n");
    refused(&rt, b"n 12", 25, 4)?;
    refused(&rt, b"n 12\nx 1", 25, 8)?;
    refused(&rt, b"n 12\nx 11", 25, 9)
}

#[test]
fn wrong_letters(rt: HostRuntime) -> Result<(), Fail> {
    refused(&rt, b"\n", 21, 0)?;
    refused(&rt, b"m 2\n", 21, 0)?;
    refused(&rt, b"N 2\n", 21, 0)?;
    refused(&rt, b"h 0\n", 21, 0)?;
    refused(&rt, b"n 2\nn 2\n", 21, 4)?;
    refused(&rt, b"n 2\nq 0\n", 21, 4)?;
    refused(&rt, b"n 2\nH 0\n", 21, 4)?;
    refused(&rt, b"n 2\n\n", 21, 4)?;
    refused(&rt, b"n 2\n ", 21, 4)?;
    refused(&rt, b"n 2\nh 0\n0", 21, 8)
}

#[test]
fn wrong_numbers(rt: HostRuntime) -> Result<(), Fail> {
    refused(&rt, b"n2\n", 22, 1)?;
    refused(&rt, b"n\n", 22, 1)?;
    refused(&rt, b"n  2\n", 22, 2)?;
    refused(&rt, b"n -1\n", 22, 2)?;
    refused(&rt, b"n x\n", 22, 2)?;
    refused(&rt, b"n 2\nc 0\n", 22, 7)?;
    refused(&rt, b"n 2\nc 0,1\n", 22, 7)?;
    refused(&rt, b"n 2\nc 0  1\n", 22, 8)?;
    refused(&rt, b"n 2\nc 0 :\n", 22, 8)?;
    refused(&rt, b"n 2\ne 0 /\n", 22, 8)
}

#[test]
fn out_of_range(rt: HostRuntime) -> Result<(), Fail> {
    refused(&rt, b"n 0\n", 23, 2)?;
    refused(&rt, b"n 00\n", 23, 2)?;
    accepted(&rt, b"n 1\n");
    accepted(&rt, b"n 16\n");
    refused(&rt, b"n 17\n", 23, 2)?;
    refused(&rt, b"n 99\n", 23, 2)?;
    refused(&rt, b"n 171\n", 23, 2)?;
    refused(&rt, b"n 1\nh 1\n", 23, 6)?;
    accepted(&rt, b"n 16\nh 15\n");
    refused(&rt, b"n 16\nh 16\n", 23, 7)?;
    refused(&rt, b"n 16\nh 99x", 23, 7)?;
    refused(&rt, b"n 2\nc 2 2\n", 23, 6)?;
    refused(&rt, b"n 2\nc 1 2\n", 23, 8)
}

#[test]
fn equal_qubits(rt: HostRuntime) -> Result<(), Fail> {
    refused(&rt, b"n 2\nc 0 0\n", 24, 8)?;
    refused(&rt, b"n 2\ne 1 1x", 24, 8)?;
    refused(&rt, b"n 16\nc 12 12\n", 24, 10)?;
    accepted(&rt, b"n 16\nc 12 1\n");
    accepted(&rt, b"n 16\ne 1 12\n");
    Ok(())
}

#[test]
fn line_goes_on(rt: HostRuntime) -> Result<(), Fail> {
    refused(&rt, b"n 2 \n", 25, 3)?;
    refused(&rt, b"n 2\r\n", 25, 3)?;
    refused(&rt, b"n 2x\n", 25, 3)?;
    refused(&rt, b"n 100\n", 25, 4)?;
    refused(&rt, b"n 1\nh 00\n", 25, 7)?;
    refused(&rt, b"n 1\nh 01\n", 25, 7)?;
    refused(&rt, b"n 1\nh 0 \n", 25, 7)?;
    refused(&rt, b"n 1\nh 0 0\n", 25, 7)?;
    refused(&rt, b"n 2\nc 0 1 \n", 25, 9)?;
    refused(&rt, b"n 12\nh 101\n", 25, 9)
}

// What is wanted at each byte of a text, by the number of the refusal for want of it.
const WHOLE: [u8; 14] = *b"n 2\nc 0 1\nh 1\n";

const WANTED: [u8; 14] = [21, 22, 22, 25, 21, 22, 22, 22, 22, 25, 21, 22, 22, 25];

#[test]
fn strange_bytes(rt: HostRuntime) -> Result<(), Fail> {
    accepted(&rt, &WHOLE);
    for (place, wanted) in WANTED.iter().enumerate() {
        for strange in [0x00, 0xff, 0x80, 0x7f] {
            let mut text = WHOLE;
            text[place] = strange;
            refused(&rt, &text, *wanted, place)?;
        }
    }
    Ok(())
}

// One qubit and that many gates: four bytes for each line.
fn long_text(heap: Global, gates: usize) -> Result<Vec<u8>, AllocError> {
    let mut text = b"n 1\n".to_vec(heap)?;
    text.extend_from_slice(b"s 0\n".repeat(heap, gates)?.as_slice())?;
    Ok(text)
}

#[test]
fn too_long(rt: HostRuntime) -> Result<(), Fail> {
    let mut text = long_text(rt.alloc(), 16_383)?;
    assert_eq!(rt; text.len(), 65_536);
    accepted(&rt, text.as_slice());
    text.push(b's')?;
    refused(&rt, text.as_slice(), 26, 65_536)?;
    // the length is tested first
    text[0] = b'x';
    refused(&rt, text.as_slice(), 26, 65_536)
}
