// The tokens of circuit text: a letter, and a space with a number after it. They borrow the text.
ghost use Rattle.std.specs.Prelude.{◌≡◌, length};
ghost use Rattle.std.specs.List.{slice_get};
ghost use Rattle.circuits.specs.Tokens.{text_of, place_of, decimal};

// A letter or a number: its bytes, and the place of the first of them in the text. (An enum that
// borrows its span, and no struct: a rule of the project.)
#[derive(Clone, Copy)]
pub enum Token<'a> {
    Letter(&'a [u8], usize),
    Number(&'a [u8], usize),
}

impl<'a> Token<'a> {
    fn bytes(self) -> &'a [u8]
        ensures { result.now ≡ text_of self.entry }
    {
        match self {
            Token::Letter(bytes, _) | Token::Number(bytes, _) => bytes,
        }
    }

    // The place of its first byte in the text.
    pub(crate) fn place(self) -> usize
        ensures { result ≡ place_of self.entry }
    {
        match self {
            Token::Letter(_, place) | Token::Number(_, place) => place,
        }
    }

    // How many bytes it has.
    pub(crate) fn len(self) -> usize
        ensures { result ≡ length (text_of self.entry) }
    {
        self.bytes().len()
    }

    // Its first byte, as a character.
    pub(crate) fn letter(self) -> Option<char>
        ensures { result ≡ slice_get (text_of self.entry) 0 }
    {
        self.bytes().first().map(|b| char::from(*b))
    }

    // What its digits stand for: no number has more than two.
    pub(crate) fn value(self) -> u16
        ensures { result ≡ decimal (text_of self.entry) }
    {
        match self.bytes() {
            [d] => u16::from(d.saturating_sub(b'0')),
            [d, e] => 10 * u16::from(d.saturating_sub(b'0')) + u16::from(e.saturating_sub(b'0')),
            _ => 0,
        }
    }
}
