//! Where runs go that have passed a sequence's calls.

ghost use Rattle.std.specs.Prelude.{◌≡◌, ◌^◌, false};
ghost use Rattle.wa_types.specs.Syntax.{a_block, a_loop};
ghost use Rattle.guard_form.specs.Guarded.{exit_inside};
ghost use Rattle.flow_rewrite.specs.Exits.{exit_at, exit_of, LabelBelow};

/// Where a run in a state that isn't 0 goes that has passed the calls of a sequence: to its end, or out by a label. Or no such run passes
/// it; such a one is a function's own sequence, which returns at its end.
#[derive(Clone, Copy)]
pub(crate) enum ExitTo {
    End,
    Label(u32),
    Nowhere,
    FunctionEnd,
}

/// Where a sequence or a unit of one stands: where runs go that have passed its calls, inside how many constructs it is, and the number
/// of its first numbered call.
#[derive(Clone, Copy)]
pub(crate) struct Spot {
    pub exit: ExitTo,
    pub depth: u32,
    pub number: u32,
}

/// The exit at a unit, with more units behind it or none.
#[inline(never)]
pub(crate) fn at_unit(exit: ExitTo, more: bool) -> ExitTo
    ensures { exit_of result ≡ exit_at (exit_of exit) more }
{
    if more {
        return ExitTo::End;
    }
    exit
}

/// The exit inside a block or an arm with this exit.
#[inline(never)]
pub(crate) fn inside_block(exit: ExitTo) -> ExitTo
    requires { LabelBelow (2 ^ 31) (exit_of exit) }
    ensures { exit_of result ≡ exit_inside (exit_of exit) a_block false }
{
    match exit {
        ExitTo::End => ExitTo::Label(0),
        ExitTo::Label(label) => ExitTo::Label(label + 1),
        ExitTo::Nowhere => ExitTo::Nowhere,
        ExitTo::FunctionEnd => ExitTo::Nowhere,
    }
}

/// The exit inside a loop.
#[inline(never)]
pub(crate) fn inside_loop(exit: ExitTo) -> ExitTo
    requires { LabelBelow (2 ^ 31) (exit_of exit) }
    ensures { exit_of result ≡ exit_inside (exit_of exit) a_loop false }
{
    match exit {
        ExitTo::End => ExitTo::End,
        ExitTo::Label(label) => ExitTo::Label(label + 1),
        ExitTo::Nowhere => ExitTo::Nowhere,
        ExitTo::FunctionEnd => ExitTo::Nowhere,
    }
}
