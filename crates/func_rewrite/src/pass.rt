//! What the functions of a module are rewritten by.

use call_graph::Settings;
use local_spill::RuntimeIds;
use wasm_validate::Valid;

/// What the functions of a module are rewritten by: the settings, and what was found of the module once: which functions may pause,
/// which imports may, and what the runtime adds.
#[derive(Clone, Copy)]
pub struct Pass<'m> {
    pub valid: &'m Valid,
    pub settings: &'m Settings,
    pub which: &'m [bool],
    pub listed: &'m [bool],
    pub ids: &'m RuntimeIds,
}
