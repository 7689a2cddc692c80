// Taking items one by one. A refused item leaves a loading as it was.
ghost use Rattle.std.specs.Prelude.{◌≡◌, true, false, if◌then◌else◌, Ok, Err, ◌==◌, ◌≢◌, MatchResult, OnOk};
ghost use Rattle.refusals.specs.declared.LoadRefusal.TheVariants.{UnknownSpider, ScalarOutOfRange};
ghost use Rattle.diagrams.specs.declared.items.Item.{Item};
ghost use Rattle.diagrams.specs.declared.items.Kind.TheVariants.{Plain};
ghost use Rattle.models.specs.Edits.{product, gained, only_slot, toggled, can_join};
ghost use Rattle.loadings.specs.Loadings.{beginning, given, next_number, paid, taken, with_wire, within};
ghost use Rattle.parts.specs.Scales.{scale_of};
ghost use Rattle.parts.specs.Tables.{open_leg};
ghost use Rattle.graphlike.specs.Diagrams.{model};
ghost use Rattle.loader.specs.States.{state, Comes, ComesNext, Known, IsTaken};
ghost use Rattle.loader.specs.Legs.{cost_of, leg_put, leg_set, LegGuards};

use super::Loading;
use crate::given::{Given, relabel};
use angles::{Phase, Turn};
use arrayvec::ArrayVec;
use diagrams::items::{Factor, Item, Kind, Leg, Setting, Spider, Wire};
use diagrams::power::LIMIT;
use graphlike::Diagram;
use parts::leg::{LegNumber, OpenLeg};
use parts::scalar::Scalar;
use refusals::LoadRefusal;
use rows::row::Row;
use rows::slot::Slot;

// Whether the power of the root of two lies within the limit of a loading.
fn is_within(scalar: Scalar) -> bool
    ensures { result ≡ within (scale_of scalar) }
{
    scalar.size() <= LIMIT.unsigned_abs()
}

// Whether that holds of a scalar times √2^k·w^m.
fn stays_within(scalar: Scalar, k: i32, m: Turn) -> bool
    ensures { result ≡ within (product k m.parts (scale_of scalar)) }
{
    scalar.times(k, m).is_some_and(is_within)
}

// A Hadamard wire between two slots, or within one.
fn join(diagram: &mut Diagram, a: Slot, b: Slot)
    requires { (a.number ≢ b.number) → can_join a.number b.number (model diagram.old) ≡ true }
    ensures { model diagram.new ≡ elim (a.number == b.number) [ true ↦ gained (only_slot a.number) 2 (model diagram.old) | false ↦ toggled a.number b.number (model diagram.old) ] }
{
    if a == b {
        diagram.turn(&Row::only(a), Phase::of(2));
    } else {
        let _ = diagram.toggle(a, b);
    }
}

// What a leg costs, as a power of the root of two: a Hadamard box a root, and a leg held straight half the amount.
fn leg_cost(setting: Setting, kind: Kind) -> i32
    ensures { result ≡ cost_of setting kind }
{
    match (setting, kind) {
        (_, Kind::Hadamard) => -1,
        (Setting::Open, Kind::Plain) => 0,
        (_, Kind::Plain) => -2,
    }
}

// Puts a leg of an effective kind on its slot, open or held.
fn set_leg(diagram: &mut Diagram, leg: LegNumber, open: OpenLeg, setting: Setting)
    requires guards { LegGuards leg.number (open_leg «open») (model diagram.old) }
    requires within { within (leg_put leg.number (open_leg «open») setting (model diagram.old)).scalar ≡ true }
    ensures { model diagram.new ≡ leg_set leg.number (open_leg «open») setting (model diagram.old) }
{
    let _ = match setting {
        Setting::Open => diagram.attach(leg, open),
        Setting::HeldZero => diagram.hold(open.slot, open.kind, leg, false),
        Setting::HeldOne => diagram.hold(open.slot, open.kind, leg, true),
    };
}

// Pays for a wire or a leg of an effective kind.
fn pay(diagram: &mut Diagram, kind: Kind)
    requires { within (paid kind (model diagram.old)).scalar ≡ true }
    ensures { model diagram.new ≡ paid kind (model diagram.old) }
{
    if kind == Kind::Hadamard {
        let _ = diagram.scale(-1, Turn::of(0));
    }
}

impl Loading {
    pub(crate) fn new() -> Loading
        ensures start { state result ≡ beginning }
        ensures first { result.item ≡ 0 }
    {
        Loading {
            diagram: Diagram::new(),
            spiders: ArrayVec::new(),
            legs: 0,
            item: 0,
        }
    }

    // A spider by its number, if it has been given.
    fn given(&self, spider: u16) -> Result<Given, LoadRefusal>
        ensures { MatchResult result (λ g. Known (state self.now) spider g) (λ e. (given (state self.now) spider ≡ false) × (e ≡ UnknownSpider self.now.item)) }
    {
        self.spiders
            .get(usize::from(spider))
            .copied()
            .ok_or(LoadRefusal::UnknownSpider(self.item))
    }

    // Refuses a factor √2^k·w^m that would bring the power beyond the limit.
    fn afford(&self, k: i32, m: Turn) -> Result<(), LoadRefusal>
        ensures { result ≡ (if within (product k m.parts (state self.now).model.scalar) then Ok tt else Err (ScalarOutOfRange self.now.item)) }
    {
        if !stays_within(self.diagram.scalar(), k, m) {
            return Err(LoadRefusal::ScalarOutOfRange(self.item));
        }
        Ok(())
    }

    fn take_spider(&mut self, spider: Spider) -> Result<(), LoadRefusal>
        ensures { Comes (taken (state self.old) (Item.Spider spider)) self.old.item result self.new }
    {
        let slot = Slot::of(self.spiders.len());
        let given = Given {
            colour: spider.colour,
            slot,
        };
        let full = LoadRefusal::TooManySpiders(self.item);
        self.spiders.try_push(given).map_err(|_| full)?;
        let _ = self.diagram.place(slot, spider.phase);
        Ok(())
    }

    // A plain wire between two slots fuses into the lower; within one it does nothing.
    fn fuse(&mut self, a: Slot, b: Slot)
        requires a_given { IsTaken (state self.old) a.number }
        requires b_given { IsTaken (state self.old) b.number }
        ensures after { state self.new ≡ with_wire Plain a.number b.number (state self.old) }
        ensures number { self.new.item ≡ self.old.item }
    {
        if a == b {
            return;
        }
        let lower = Slot::of(a.number().min(b.number()));
        let upper = Slot::of(a.number().max(b.number()));
        let _ = self.diagram.fuse(lower, upper);
        relabel(&mut self.spiders, lower, upper);
    }

    fn take_wire(&mut self, wire: Wire) -> Result<(), LoadRefusal>
        ensures { Comes (taken (state self.old) (Item.Wire wire)) self.old.item result self.new }
    {
        let first = self.given(wire.first)?;
        let second = self.given(wire.second)?;
        match first.at_end(second.at_end(wire.kind)) {
            Kind::Plain => {
                self.fuse(first.slot, second.slot);
                Ok(())
            }
            Kind::Hadamard => {
                self.afford(-1, Turn::of(0))?;
                join(&mut self.diagram, first.slot, second.slot);
                pay(&mut self.diagram, Kind::Hadamard);
                Ok(())
            }
        }
    }

    fn take_leg(&mut self, leg: Leg) -> Result<(), LoadRefusal>
        ensures { Comes (taken (state self.old) (Item.Leg leg)) self.old.item result self.new }
    {
        let given = self.given(leg.spider)?;
        let name = LegNumber::new(self.legs).ok_or(LoadRefusal::TooManyLegs(self.item))?;
        let kind = given.at_end(leg.kind);
        self.afford(leg_cost(leg.setting, kind), Turn::of(0))?;
        let open = OpenLeg {
            side: leg.side,
            slot: given.slot,
            kind,
        };
        set_leg(&mut self.diagram, name, open, leg.setting);
        pay(&mut self.diagram, kind);
        self.legs += 1;
        Ok(())
    }

    fn take_factor(&mut self, factor: Factor) -> Result<(), LoadRefusal>
        ensures { Comes (taken (state self.old) (Item.Factor factor)) self.old.item result self.new }
    {
        let k = factor.k.exponent();
        self.afford(k, factor.m)?;
        let _ = self.diagram.scale(k, factor.m);
        Ok(())
    }

    fn take_item(&mut self, item: Item) -> Result<(), LoadRefusal>
        ensures { Comes (taken (state self.old) item) self.old.item result self.new }
    {
        match item {
            Item::Spider(spider) => self.take_spider(spider),
            Item::Wire(wire) => self.take_wire(wire),
            Item::Leg(leg) => self.take_leg(leg),
            Item::Factor(factor) => self.take_factor(factor),
            Item::Zero => {
                self.diagram.make_zero();
                Ok(())
            }
        }
    }

    // Takes the next item, or says why not. The item number stops at the largest `u32`, so a range cannot count it.
    pub(crate) fn take(&mut self, item: Item) -> Result<(), LoadRefusal>
        ensures { ComesNext (taken (state self.old) item) self.old.item result self.new }
    {
        self.take_item(item)?;
        self.item = self.item.saturating_add(1);
        Ok(())
    }
}
