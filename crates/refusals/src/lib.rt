// Why a call refuses: an enum for each layer, and for every case a number, a place and a layer.
#![tactic(auto)]

pub mod line;
pub mod reason;

// The part of the archive that refused.
#[derive(Clone, Copy, Debug, PartialEq, Eq)]
pub enum Layer {
    Reading,
    Loading,
    Asking,
    Writing,
}

// What a source can find wrong with what it reads, and at which byte.
#[derive(Clone, Copy, Debug, PartialEq, Eq)]
pub enum Fault {
    // a record ends too early, here
    ByteMissing(usize),
    // a map byte has a bit that it may not have
    ForbiddenBit(usize),
    // a field holds the value that its absence stands for
    AbsentValue(usize),
    // a field of a record is out of range
    OutOfRange(usize),
    // bytes follow a record's last part
    BytesFollow(usize),
    // no letter that may begin a line
    NotALetter(usize),
    // no space and number
    NotANumber(usize),
    // a count of qubits that is not 1 to 16, or a qubit that is not below it
    NoSuchQubit(usize),
    // the second qubit of a gate is the first
    EqualQubits(usize),
    // a line goes on where it should end
    NoLineEnd(usize),
    // a text of more bytes than are read
    TextTooLong,
}

// Why a loading is refused, and at which item.
#[derive(Clone, Copy, Debug, PartialEq, Eq)]
pub enum LoadRefusal {
    // the source had this fault when it was asked for that item
    Unreadable(Fault, u32),
    // a wire or leg names a spider that has not been given
    UnknownSpider(u32),
    TooManySpiders(u32),
    TooManyLegs(u32),
    // the exponent of the scalar went beyond the limit
    ScalarOutOfRange(u32),
}

// Why a question, a step or a row of settings is refused.
#[derive(Clone, Copy, Debug, PartialEq, Eq)]
pub enum AskRefusal {
    // the rule does not fit at this spot
    NoFit,
    // the row has not one byte for each open leg
    RowLength,
    // a byte of the row is no bit
    RowByte(usize),
    // a setting past the sixty-fourth, or one that is none
    HoldSetting(usize),
}

// Why a record is not written.
#[derive(Clone, Copy, Debug, PartialEq, Eq)]
pub enum WriteRefusal {
    BufferShort,
    // the exponent of the factor is beyond the limit
    FactorOutOfRange,
    TooManySpiders,
    // more parts than the record was begun with, or fewer
    WrongCount,
}
