// How a refusal is said: on one line, with its number, its place and its layer.
ghost use Rattle.std.specs.Prelude.{Some};
ghost use Rattle.std.specs.Fmt.{DisplaysOnOk};
ghost use Rattle.refusals.specs.Refusals.{layer_word};
ghost use Rattle.refusals.specs.Lines.{refusal_line, fault_line, load_line, ask_line, write_line};

use crate::reason::Reason;
use crate::{AskRefusal, Fault, Layer, LoadRefusal, WriteRefusal};
use std::fmt;

impl fmt::Display for Layer {
    ghost output = { λ layer. Some (layer_word layer) };

    fn fmt<W: fmt::Write>(&self, f: &mut fmt::Formatter<W>) -> fmt::Result {
        match *self {
            Layer::Reading => f.write_str("reading"),
            Layer::Loading => f.write_str("loading"),
            Layer::Asking => f.write_str("asking"),
            Layer::Writing => f.write_str("writing"),
        }
    }
}

// The line of any refusal. One `Display` for every `Reason` is not allowed, since a type may have one of its own.
fn write_refusal<R: Reason, W: fmt::Write>(refusal: &R, f: &mut fmt::Formatter<W>) -> fmt::Result
    ensures { DisplaysOnOk W.write_str_gives f.old result (Some (refusal_line (R.numbered refusal.now) (R.placed refusal.now) (R.layered refusal.now))) f.new }
{
    let number = refusal.number();
    let place = refusal.place();
    let layer = refusal.layer();
    write!(f, "refused {number} {place} {layer}")
}

impl fmt::Display for Fault {
    ghost output = { λ refusal. Some (fault_line refusal) };

    fn fmt<W: fmt::Write>(&self, f: &mut fmt::Formatter<W>) -> fmt::Result {
        write_refusal(self, f)
    }
}

impl fmt::Display for LoadRefusal {
    ghost output = { λ refusal. Some (load_line refusal) };

    fn fmt<W: fmt::Write>(&self, f: &mut fmt::Formatter<W>) -> fmt::Result {
        write_refusal(self, f)
    }
}

impl fmt::Display for AskRefusal {
    ghost output = { λ refusal. Some (ask_line refusal) };

    fn fmt<W: fmt::Write>(&self, f: &mut fmt::Formatter<W>) -> fmt::Result {
        write_refusal(self, f)
    }
}

impl fmt::Display for WriteRefusal {
    ghost output = { λ refusal. Some (write_line refusal) };

    fn fmt<W: fmt::Write>(&self, f: &mut fmt::Formatter<W>) -> fmt::Result {
        write_refusal(self, f)
    }
}
