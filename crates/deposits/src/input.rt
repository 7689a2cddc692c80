// A deposit's bytes: the first line is the row, and the rest is the circuit.
ghost use Rattle.std.specs.Prelude.{◌≡◌, ◌≤◌, ◌==◌, length, position};
ghost use Rattle.deposits.specs.Input.{row_length, line_of, circuit_of};

// The most bytes that the program takes.
pub const INPUT_LIMIT: usize = 60_000;

// The place of the first line end.
fn first_line_end(bytes: &[u8]) -> Option<usize>
    ensures { result ≡ position (λ b. b == 10) bytes.now }
{
    bytes.iter().position(|byte| *byte == b'\n')
}

// How many bytes stand before the first line end, or all where there is none.
fn row_length(bytes: &[u8]) -> usize
    ensures value { result ≡ row_length bytes.now }
    ensures bound { result ≤ length bytes.now }
{
    first_line_end(bytes).unwrap_or(bytes.len())
}

// What stands before the first line end, or all where there is none.
pub fn row_part(bytes: &[u8]) -> &[u8]
    ensures { result.now ≡ line_of bytes.now }
{
    &bytes[..row_length(bytes)]
}

// What follows the first line end, or nothing where there is none.
pub fn circuit_part(bytes: &[u8]) -> &[u8]
    ensures { result.now ≡ circuit_of bytes.now }
{
    bytes.get(row_length(bytes) + 1..).unwrap_or(&[])
}
