//! The call graph turned round: the callers of each function, and which functions pause by a call of their own.

ghost use Rattle.std.specs.Prelude.{◌≡◌, ◌<◌, ◌+◌, ◌↔◌, ℕ, ◌++◌, ◌∷◌, [], All, Contains, IfOk, OnOk, length, map, replicate, false};
ghost use Rattle.std.specs.List.{list_any};
ghost use Rattle.call_graph.specs.Calls.{IsThere, callee_of, pauses_alone};
ghost use Rattle.call_graph.specs.Callers.{CallsGathered, GatheredBelow, Puts};
ghost use Rattle.call_graph.specs.Graph.{callers_at};
ghost use Rattle.wa_types.specs.Modules.{func_imports};
ghost use Rattle.wa_types.specs.Pausing.{direct};
ghost use Rattle.wa_types.specs.Validity.{Valid};
ghost use Rattle.wa_types.specs.Sizes.{SizeRule};
ghost use Rattle.wa_types.specs.View.{module_of};

use crate::calls::{Callee, body_calls};
use std::alloc::{AllocError, Global};
use wa_types::Module;

/// The functions of a module, imports first.
#[derive(Drop)]
pub(crate) struct Graph {
    /// Who calls each function, once for each call.
    pub(crate) callers: Vec<Vec<u32>>,
    /// Whether each function pauses by a call of its own.
    pub(crate) pauses: Vec<bool>,
}

impl Graph {
    /// The graph of a module of which these imports are listed. Takes time linear in the module.
    pub(crate) fn of(
        alloc: Global,
        module: &Module,
        listed: &[bool],
        ignore_indirect: bool,
    ) -> Result<Graph, AllocError>
        requires valid { Valid (module_of «module».now) }
        requires sizes { SizeRule (module_of «module».now) }
        requires imports { length listed.now ≡ func_imports (module_of «module».now) }
        ensures { IfOk result (λ g. CallsGathered (module_of «module».now) listed.now ignore_indirect g.callers.items g.pauses.items) }
    {
        let mut callers = no_callers(alloc, listed.len() + module.funcs.len())?;
        let mut pauses = vec![in alloc; false; listed.len()]?;
        gather(
            alloc,
            &mut callers,
            &mut pauses,
            module,
            listed,
            ignore_indirect,
        )?;
        Ok(Graph { callers, pauses })
    }
}

/// Puts the calls of a module's functions to those that they call, and behind the imports whether they pause.
fn gather(
    alloc: Global,
    callers: &mut [Vec<u32>],
    pauses: &mut Vec<bool>,
    module: &Module,
    listed: &[bool],
    ignore_indirect: bool,
) -> Result<(), AllocError>
    requires valid { Valid (module_of «module».now) }
    requires sizes { SizeRule (module_of «module».now) }
    requires calls { GatheredBelow (module_of «module».now) (func_imports (module_of «module».now)) callers.old }
    requires own { pauses.old.items ≡ replicate (func_imports (module_of «module».now)) false }
    ensures { OnOk result (CallsGathered (module_of «module».now) listed.now ignore_indirect callers.new pauses.new.items) }
{
    for func in &module.funcs {
        let calls = body_calls(alloc, &func.body)?;
        put_caller(callers, &calls, pauses.len() as u32)?;
        pauses.push(any_pauses(&calls, listed, ignore_indirect))?;
    }
    Ok(())
}

/// So many functions that nobody calls.
fn no_callers(alloc: Global, count: usize) -> Result<Vec<Vec<u32>>, AllocError>
    ensures { IfOk result (λ v. (length v.items ≡ count) × ((y : ℕ) → callers_at v.items y ≡ [])) }
{
    let mut callers = Vec::with_capacity(alloc, count)?;
    while callers.len() < count {
        callers.push(Vec::new(alloc))?;
    }
    Ok(callers)
}

/// Puts a function to the callers of those that it calls by these calls.
fn put_caller(callers: &mut [Vec<u32>], calls: &[Callee], caller: u32) -> Result<(), AllocError>
    requires { All (λ call. IsThere (length callers.old) (callee_of call)) calls.now }
    ensures { OnOk result (Puts (map callee_of calls.now) caller callers.old callers.new) }
{
    for call in calls {
        let Callee::Direct(func) = call else {
            continue;
        };
        callers[*func as usize].push(caller)?;
    }
    Ok(())
}

/// Whether one of the calls pauses by itself.
fn any_pauses(calls: &[Callee], listed: &[bool], ignore_indirect: bool) -> bool
    ensures { result ≡ list_any (λ call. pauses_alone listed.now ignore_indirect (callee_of call)) calls.now }
{
    calls
        .iter()
        .any(|call| pauses(*call, listed, ignore_indirect))
}

/// Whether a call goes to a listed import, or to the table where that isn't ignored.
fn pauses(call: Callee, listed: &[bool], ignore_indirect: bool) -> bool
    ensures { result ≡ pauses_alone listed.now ignore_indirect (callee_of call) }
{
    match call {
        Callee::Direct(func) => match listed.get(func as usize).copied() {
            Some(is_listed) => is_listed,
            None => false,
        },
        Callee::Indirect(_) => !ignore_indirect,
    }
}
