//! The law of the small module: a function that does nothing has it as its contract.

ghost use Rattle.std.specs.Prelude.{[], ◌∷◌};
ghost use Rattle.wa_model.specs.Protocol.{exports_of};
ghost use Rattle.wa_model.specs.Step.{entered};
ghost use Rattle.guard_runs.specs.Alike.{Paired, sides_of};
ghost use Rattle.guard_runs.specs.Beside.{Near};
ghost use Rattle.frame_laws.specs.Stack.{AllFit};
ghost use Rattle.guard_runs.specs.Pause.{AreaReady, PausesAt, RuntimeAt};
ghost use Rattle.guard_runs.specs.SmallModule.{ComesBack, answer, entry, flat_function, left, level, plan, setting, store, written_function};

/// A flat module with one function that may pause and the written one belong together; a call of the host begins on both
/// sides; the function's activation at its call can be saved; the import's answer pauses the program, with its frame in
/// the area; and behind the pause the activation comes back.
pub fn small_module_pauses()
    ensures paired { Paired setting }
    ensures begins { Near (sides_of setting) 9 (entered store [] [] 1 flat_function) (entered store [] [] 1 written_function) }
    ensures runtime { RuntimeAt setting.written (exports_of setting.written) 0 1 }
    ensures ready { AreaReady 0 0 1 plan.area store }
    ensures fits { AllFit 0 plan.area setting.written 0 1 (level ∷ []) }
    ensures pauses { PausesAt 0 0 1 setting.written (exports_of setting.written) plan entry 0 answer left store level [] }
    ensures answers { ComesBack }
{}
