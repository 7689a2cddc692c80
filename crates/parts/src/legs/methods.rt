// What can be done with the open legs of a diagram.
ghost use Rattle.std.specs.Prelude.{◌≡◌, ℕ, ◌≤◌, if◌then◌else◌, Some, None, nat_eq};
ghost use Rattle.models.specs.Models.{carried, leg_limit};
ghost use Rattle.models.specs.Edits.{led};
ghost use Rattle.rows.specs.Rows.{has};
ghost use Rattle.parts.specs.Tables.{maybe_leg, leg_in, opened};

use super::Legs;
use crate::leg::{LEGS, LegNumber, OpenLeg};
use rows::row::Row;
use rows::slot::Slot;

// A leg on one slot is led to another.
fn led(leg: Option<OpenLeg>, to: Slot, from: Slot) -> Option<OpenLeg>
    ensures { maybe_leg result ≡ led to.number from.number (maybe_leg leg) }
{
    let leg = leg?;
    let slot = if leg.slot == from { to } else { leg.slot };
    Some(OpenLeg { slot, ..leg })
}

// The legs on one slot are led to another.
fn lead_all(table: &mut [Option<OpenLeg>; LEGS], to: Slot, from: Slot)
    ensures { (k : ℕ) → leg_in table.new k ≡ led to.number from.number (leg_in table.old k) }
{
    for leg in table.iter_mut() {
        *leg = led(*leg, to, from);
    }
}

// The table with one leg another.
fn replaced(
    table: [Option<OpenLeg>; LEGS],
    leg: LegNumber,
    now_open: Option<OpenLeg>,
) -> [Option<OpenLeg>; LEGS]
    ensures { (k : ℕ) → leg_in result k ≡ (if nat_eq k leg.number then maybe_leg now_open else leg_in table k) }
{
    let mut table = table;
    table[leg.number()] = now_open;
    table
}

impl Legs {
    // No leg is open.
    pub fn none() -> Legs
        ensures { (k : ℕ) → leg_in result.table k ≡ None }
    {
        Legs {
            table: [None; LEGS],
            count: 0,
        }
    }

    // The leg of that number, if it is open.
    pub fn get(&self, leg: LegNumber) -> Option<OpenLeg>
        ensures { maybe_leg result ≡ leg_in self.now.table leg.number }
    {
        self.table[leg.number()]
    }

    // How many are open.
    pub fn count(&self) -> usize
        ensures value { result ≡ opened self.now.table }
        ensures bound { result ≤ leg_limit }
    {
        self.count
    }

    // Puts a leg under a number, or none.
    pub fn set(&mut self, leg: LegNumber, now_open: Option<OpenLeg>)
        ensures { (k : ℕ) → leg_in self.new.table k ≡ (if nat_eq k leg.number then maybe_leg now_open else leg_in self.old.table k) }
    {
        let before = self.get(leg).is_some();
        let after = now_open.is_some();
        let count = self.count + usize::from(after) - usize::from(before);
        let table = replaced(self.table, leg, now_open);
        *self = Legs { table, count };
    }

    // The legs of one slot are led to another.
    pub fn lead(&mut self, to: Slot, from: Slot)
        ensures { (k : ℕ) → leg_in self.new.table k ≡ led to.number from.number (leg_in self.old.table k) }
    {
        lead_all(&mut self.table, to, from);
    }

    // The slots that have an open leg.
    pub fn boundary(&self) -> Row
        ensures { (s : ℕ) → has result s ≡ carried leg_limit (leg_in self.now.table) s }
    {
        let mut row = Row::empty();
        if self.count == 0 {
            return row;
        }
        for leg in self.table.iter() {
            if let Some(open) = leg {
                row.insert(open.slot);
            }
        }
        row
    }
}
