//! Laws of the emitted module. Each is the contract of a function that does nothing.

ghost use Rattle.emitted_form.specs.Rewritten.{EmittedIsRewritten, EmittedIsValid};
ghost use Rattle.emitted_form.specs.Sizes.{EmittedKeepsSizes};

/// The emitted module of a valid one without a reserved name is valid. Where the functions that may pause are written it is the
/// original, rewritten, in every part but its runs.
pub fn emitted_module_is_rewritten()
    ensures valid { EmittedIsValid }
    ensures rewritten { EmittedIsRewritten }
{}

/// The emitted module of one that keeps the strict size rule keeps the size rule, where written functions have at most 50,000
/// locals.
pub fn emitted_module_keeps_sizes()
    ensures { EmittedKeepsSizes }
{}
