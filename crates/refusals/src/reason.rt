// What every refusal can tell: its number, its place and its layer.
ghost use Rattle.std.specs.Prelude.{◌≡◌, ℕ};
ghost use Rattle.refusals.specs.declared.Layer.{Layer};
ghost use Rattle.refusals.specs.Refusals.{fault_number, fault_place, fault_layer, load_number, load_place, load_layer};
ghost use Rattle.refusals.specs.Refusals.{ask_number, ask_place, ask_layer, write_number, write_place, write_layer};

use super::{AskRefusal, Fault, Layer, LoadRefusal, WriteRefusal};

// The most bytes that a circuit text may have.
pub const TEXT_LIMIT: usize = 65_536;

pub trait Reason {
    ghost numbered: { Self → ℕ };

    ghost placed: { Self → ℕ };

    ghost layered: { Self → Layer };

    fn number(&self) -> u8
        ensures { result ≡ numbered self.now };

    fn place(&self) -> usize
        ensures { result ≡ placed self.now };

    fn layer(&self) -> Layer
        ensures { result ≡ layered self.now };
}

impl Reason for Fault {
    ghost numbered = { fault_number };

    ghost placed = { fault_place };

    ghost layered = { fault_layer };

    fn number(&self) -> u8 {
        match *self {
            Fault::ByteMissing(_) => 1,
            Fault::ForbiddenBit(_) => 2,
            Fault::AbsentValue(_) => 3,
            Fault::OutOfRange(_) => 4,
            Fault::BytesFollow(_) => 5,
            Fault::NotALetter(_) => 21,
            Fault::NotANumber(_) => 22,
            Fault::NoSuchQubit(_) => 23,
            Fault::EqualQubits(_) => 24,
            Fault::NoLineEnd(_) => 25,
            Fault::TextTooLong => 26,
        }
    }

    fn place(&self) -> usize {
        match *self {
            Fault::ByteMissing(place)
            | Fault::ForbiddenBit(place)
            | Fault::AbsentValue(place)
            | Fault::OutOfRange(place)
            | Fault::BytesFollow(place)
            | Fault::NotALetter(place)
            | Fault::NotANumber(place)
            | Fault::NoSuchQubit(place)
            | Fault::EqualQubits(place)
            | Fault::NoLineEnd(place) => place,
            Fault::TextTooLong => TEXT_LIMIT,
        }
    }

    fn layer(&self) -> Layer {
        Layer::Reading
    }
}

impl Reason for LoadRefusal {
    ghost numbered = { load_number };

    ghost placed = { load_place };

    ghost layered = { load_layer };

    fn number(&self) -> u8 {
        match *self {
            LoadRefusal::Unreadable(fault, _) => fault.number(),
            LoadRefusal::UnknownSpider(_) => 11,
            LoadRefusal::TooManySpiders(_) => 12,
            LoadRefusal::TooManyLegs(_) => 13,
            LoadRefusal::ScalarOutOfRange(_) => 14,
        }
    }

    fn place(&self) -> usize {
        match *self {
            LoadRefusal::Unreadable(fault, _) => fault.place(),
            // the library has no `From<u32>` for `usize`
            LoadRefusal::UnknownSpider(item)
            | LoadRefusal::TooManySpiders(item)
            | LoadRefusal::TooManyLegs(item)
            | LoadRefusal::ScalarOutOfRange(item) => item as usize,
        }
    }

    fn layer(&self) -> Layer {
        match *self {
            LoadRefusal::Unreadable(fault, _) => fault.layer(),
            LoadRefusal::UnknownSpider(_)
            | LoadRefusal::TooManySpiders(_)
            | LoadRefusal::TooManyLegs(_)
            | LoadRefusal::ScalarOutOfRange(_) => Layer::Loading,
        }
    }
}

impl Reason for AskRefusal {
    ghost numbered = { ask_number };

    ghost placed = { ask_place };

    ghost layered = { ask_layer };

    fn number(&self) -> u8 {
        match *self {
            AskRefusal::NoFit => 31,
            AskRefusal::RowLength => 32,
            AskRefusal::RowByte(_) => 33,
            AskRefusal::HoldSetting(_) => 51,
        }
    }

    fn place(&self) -> usize {
        match *self {
            AskRefusal::NoFit | AskRefusal::RowLength => 0,
            AskRefusal::RowByte(place) | AskRefusal::HoldSetting(place) => place,
        }
    }

    fn layer(&self) -> Layer {
        Layer::Asking
    }
}

impl Reason for WriteRefusal {
    ghost numbered = { write_number };

    ghost placed = { write_place };

    ghost layered = { write_layer };

    fn number(&self) -> u8 {
        match *self {
            WriteRefusal::BufferShort => 41,
            WriteRefusal::FactorOutOfRange => 42,
            WriteRefusal::TooManySpiders => 43,
            WriteRefusal::WrongCount => 44,
        }
    }

    fn place(&self) -> usize {
        0
    }

    fn layer(&self) -> Layer {
        Layer::Writing
    }
}
