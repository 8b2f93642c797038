//! How many numbered calls a body holds, and whether its first one may go unnoted.

ghost use Rattle.std.specs.Prelude.{◌≡◌, ◌≤◌, ◌+◌, min, true};
ghost use Rattle.guard_form.specs.Guarded.{leaves_first};
ghost use Rattle.guard_form.specs.Pieces.{no_unit, numbers_in};
ghost use Rattle.flow_rewrite.specs.Counting.{IsCounted, loop_alone, row_alone};
ghost use Rattle.flow_rewrite.specs.UnitView.{unit_in_front, units_of};

use crate::pieces::{Pieces, Unit};

/// What is told of units: how many numbered calls they hold, or 2 where they hold more, and whether no loop holds the first of all
/// together with another, where the first of these is that.
#[derive(Clone, Copy)]
pub(crate) struct Counted {
    pub calls: u32,
    pub first_alone: bool,
}

/// What is told of units behind others.
fn joined(front: Counted, behind: Counted) -> Counted
    requires front { front.calls ≤ 2 }
    requires behind { behind.calls ≤ 2 }
    ensures calls { result.calls ≡ min (front.calls + behind.calls) 2 }
    ensures alone { result.first_alone ≡ row_alone front.calls front.first_alone behind.first_alone }
{
    let calls = (front.calls + behind.calls).min(2);
    if front.calls > 0 {
        return Counted {
            calls,
            first_alone: front.first_alone,
        };
    }
    Counted {
        calls,
        first_alone: front.first_alone && behind.first_alone,
    }
}

/// What is told of a loop with this body.
fn in_a_loop(body: Counted) -> Counted
    ensures calls { result.calls ≡ body.calls }
    ensures alone { result.first_alone ≡ loop_alone body.calls body.first_alone }
{
    Counted {
        calls: body.calls,
        first_alone: body.calls < 2 && body.first_alone,
    }
}

/// What is told of these units.
#[cycle(count)]
fn count_among(units: &[Unit]) -> Counted
    ensures { IsCounted (units_of units.now) result }
{
    let mut found = Counted {
        calls: 0,
        first_alone: true,
    };
    for unit in units {
        found = joined(found, count_inside(unit));
    }
    found
}

/// What is told of one unit.
#[cycle(count)]
fn count_inside(unit: &Unit) -> Counted
    ensures { IsCounted (unit_in_front unit.now no_unit) result }
{
    match unit {
        Unit::Call { .. } => Counted {
            calls: 1,
            first_alone: true,
        },
        Unit::Block { body, .. } => count_among(body),
        Unit::Loop { body, .. } => in_a_loop(count_among(body)),
        Unit::If {
            then_units,
            else_units,
            ..
        } => joined(count_among(then_units), count_among(else_units)),
    }
}

/// Whether a body's first numbered call isn't noted: no loop holds it together with another. Takes time linear in the units.
pub fn leaves_first(pieces: &Pieces) -> bool
    ensures { result ≡ leaves_first true (units_of pieces.now.units.items) }
{
    count_among(&pieces.units).first_alone
}
