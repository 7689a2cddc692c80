// The working diagram, which is sound at all times.
ghost use Rattle.std.specs.Prelude.{◌≡◌, ℕ, ◌+◌, ◌<◌, ◌≤◌, true, false, Some};
ghost use Rattle.models.specs.Models.{ModelLeg, slots, spider_limit, leg_limit, reach, reach_limit};
ghost use Rattle.graphlike.specs.Shapes.{shape};

use super::Table;

pub mod methods;

#[derive(Clone, Copy)]
pub struct Diagram {
    table: Table,
    // edges go both ways, never from a slot to itself, and only between spiders
    ghost symmetric: { (s t : ℕ) → (shape table).graph.edge s t ≡ (shape table).graph.edge t s },
    ghost loopless: { (s : ℕ) → (shape table).graph.edge s s ≡ false },
    ghost standing: { (s t : ℕ) → (shape table).graph.edge s t ≡ true → (shape table).graph.stands s ≡ true },
    // spiders are in slots, and an empty slot has phase 0
    ghost inside: { (s : ℕ) → (shape table).graph.stands s ≡ true → s < slots },
    ghost blank: { (s : ℕ) → (shape table).graph.stands s ≡ false → (shape table).graph.phase s ≡ 0 },
    // an open leg has a number of its own, is on a spider, and keeps its holder's slot free
    ghost few: { (l : ℕ) (o : ModelLeg) → (shape table).leg l ≡ Some o → l < leg_limit },
    ghost held: { (l : ℕ) (o : ModelLeg) → (shape table).leg l ≡ Some o → (shape table).graph.stands o.slot ≡ true },
    ghost free: { (l : ℕ) (o : ModelLeg) → (shape table).leg l ≡ Some o → (shape table).graph.stands (spider_limit + l) ≡ false },
    // whatever rule is applied, the power of the root of two stays in reach
    ghost range: { reach (shape table) ≤ reach_limit },
}
