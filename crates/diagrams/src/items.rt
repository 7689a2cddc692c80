// What a diagram is made of. No value here can hold anything but what a diagram allows.
use crate::power::Power;
use angles::{Phase, Turn};

pub mod making;
pub mod settings;

// A spider is green, Z, or red, X.
#[derive(Clone, Copy, Debug, PartialEq, Eq)]
pub enum Colour {
    Z,
    X,
}

#[derive(Clone, Copy, Debug, PartialEq, Eq)]
pub struct Spider {
    pub colour: Colour,
    pub phase: Phase,
}

// How a wire or a leg goes: straight, or through a Hadamard box.
#[derive(Clone, Copy, Debug, PartialEq, Eq)]
pub enum Kind {
    Plain,
    Hadamard,
}

// A wire joins two spiders, by their numbers, equal or not.
#[derive(Clone, Copy, Debug, PartialEq, Eq)]
pub struct Wire {
    pub first: u16,
    pub second: u16,
    pub kind: Kind,
}

#[derive(Clone, Copy, Debug, PartialEq, Eq)]
pub enum Side {
    Input,
    Output,
}

// A leg is open, so that a row gives its bit, or held at a bit of its own.
#[derive(Clone, Copy, Debug, PartialEq, Eq)]
pub enum Setting {
    Open,
    HeldZero,
    HeldOne,
}

#[derive(Clone, Copy, Debug, PartialEq, Eq)]
pub struct Leg {
    pub side: Side,
    pub spider: u16,
    pub kind: Kind,
    pub setting: Setting,
}

// A factor of the whole: a power of the root of two, and eighth turns.
#[derive(Clone, Copy, Debug, PartialEq, Eq)]
pub struct Factor {
    pub k: Power,
    pub m: Turn,
}

// One item of a diagram. Spiders are numbered from 0 in the order in which they come.
#[derive(Clone, Copy, Debug, PartialEq, Eq)]
pub enum Item {
    Spider(Spider),
    Wire(Wire),
    Leg(Leg),
    Factor(Factor),
    // makes the whole zero
    Zero,
}
