// How far a text is read, and what is read there: a letter, a number, the end of a line.
ghost use Rattle.std.specs.Prelude.{◌≡◌, ◌+◌, ◌<◌, ◌≤◌, [], ◌∷◌, length, IfOk, MatchBool, MatchOption, MatchResult, Ok, slice_index};
ghost use Rattle.refusals.specs.Refusals.{text_limit};
ghost use Rattle.refusals.specs.declared.Fault.TheVariants.{NotALetter};
ghost use Rattle.circuits.specs.Tokens.{text_of, place_of, digits_at, number_at};
ghost use Rattle.circuits.specs.Lines.{onward, in_range, tested_at, end_at};

use crate::tokens::Token;
use refusals::Fault;
use refusals::reason::TEXT_LIMIT;
use std::ops::Range;

// A place in a text that is not too long.
#[derive(Clone, Copy)]
pub(crate) struct Cursor<'a> {
    text: &'a [u8],
    pub(crate) at: usize,
    ghost within: { at ≤ length text.now },
    ghost short: { length text.now ≤ text_limit },
}

impl<'a> Cursor<'a> {
    ghost use Rattle.circuits.specs.Reads.{Reads};

    // The start of a text, unless the text is too long.
    pub(crate) fn new(text: &'a [u8]) -> Option<Cursor<'a>>
        ensures { MatchOption result (text_limit < length text.now) (λ c. (c.text.now ≡ text.now) × (c.at ≡ 0)) }
    {
        if text.len() > TEXT_LIMIT {
            return None;
        }
        Some(Cursor { text, at: 0 })
    }

    // Whether nothing is left.
    pub(crate) fn is_at_end(&self) -> bool
        ensures { MatchBool result (length self.now.text.now ≤ self.now.at) (self.now.at < length self.now.text.now) }
    {
        self.at >= self.text.len()
    }

    // The letter there, where the text goes on so far.
    pub(crate) fn letter(&self) -> Result<Token<'a>, Fault>
        ensures { MatchResult result (λ t. (text_of t ≡ slice_index self.now.text.now self.now.at ∷ []) × (place_of t ≡ self.now.at) × (self.now.at < length self.now.text.now)) (λ f. (f ≡ NotALetter self.now.at) × (slice_index self.now.text.now self.now.at ≡ 0)) }
    {
        if self.is_at_end() {
            return Err(Fault::NotALetter(self.at));
        }
        Ok(Token::Letter(&self.text[self.at..self.at + 1], self.at))
    }

    // How many bytes the number at that place has, 1 or 2, if one begins there.
    fn digits(&self, place: usize) -> Option<usize>
        requires { place ≤ length self.now.text.now }
        ensures { MatchOption result (digits_at self.now.text.now place ≡ 0) (λ n. (digits_at self.now.text.now place ≡ n) × (0 < n) × (place + n ≤ length self.now.text.now)) }
    {
        let first = *self.text.get(place)?;
        if first == b'0' {
            Some(1)
        } else if !first.is_ascii_digit() {
            None
        } else if self.text.get(place + 1).is_some_and(|b| b.is_ascii_digit()) {
            Some(2)
        } else {
            Some(1)
        }
    }

    // The number after a space there.
    fn number(&self) -> Result<Token<'a>, Fault>
        ensures value { onward result (λ t. Ok (text_of t, place_of t)) ≡ number_at self.now.text.now self.now.at }
        ensures within { IfOk result (λ t. place_of t + length (text_of t) ≤ length self.now.text.now) }
    {
        if self.text.get(self.at) != Some(&b' ') {
            return Err(Fault::NotANumber(self.at));
        }
        let place = self.at + 1;
        let count = self.digits(place).ok_or(Fault::NotANumber(place))?;
        Ok(Token::Number(&self.text[place..place + count], place))
    }

    // A number in the range.
    pub(crate) fn number_in(&mut self, range: Range<u8>) -> Result<u8, Fault>
        ensures { Reads (tested_at (in_range range.start range.end)) self.old result self.new }
    {
        let token = self.number()?;
        match u8::try_from(token.value()) {
            Ok(value) if range.contains(&value) => {
                self.at = token.place() + token.len();
                Ok(value)
            }
            _ => Err(Fault::NoSuchQubit(token.place())),
        }
    }

    // Goes past the end of a line.
    pub(crate) fn end_line(&mut self) -> Result<(), Fault>
        ensures { Reads end_at self.old result self.new }
    {
        if self.text.get(self.at) != Some(&b'\n') {
            return Err(Fault::NoLineEnd(self.at));
        }
        self.at += 1;
        Ok(())
    }
}
