//! Programs with strands in a host, and the names of their strands' lines.

ghost use Rattle.std.specs.Prelude.{◌≤◌, List, IfOk, length};
ghost use Rattle.strand_host.specs.StrandStanding.{AreInRange};
ghost use Rattle.script_command.specs.StrandParts.{BeginsStrands};
ghost use Rattle.script_command.specs.StrandStages.{AreStrandsStaged};
ghost use Rattle.script_command.specs.StrandWorldsTold.{NamedStrands};

use crate::strand_parting::{PartedStrands, part_strands};
use crate::strand_starts::StagedStrands;
use std::alloc::{AllocError, Global};
use strand_host::StrandHost;
use transcript::Names;
use wa_model::Detach;

/// A host of programs with strands, and the names of each strand's lines.
#[derive(Drop)]
pub(crate) struct StrandHosting<'m> {
    pub host: StrandHost<'m>,
    pub names: Vec<Vec<Names>>,
}

/// Programs that are set up, from the first event on.
pub(crate) fn host_strands<'m>(
    alloc: Global,
    staged: Vec<StagedStrands<'m>>,
    detaches: Vec<Detach>,
) -> Result<StrandHosting<'m>, AllocError>
    requires { length staged.items ≤ 16 }
    ensures range { IfOk result (λ h. AreInRange h.host.turns) }
    ensures begins { (programs : List NamedStrands) → AreStrandsStaged programs staged.entry.items
        → IfOk result (λ h. BeginsStrands programs detaches.items h.host h.names.items) }
{
    let PartedStrands {
        programs,
        names,
        shows,
    } = part_strands(alloc, staged)?;
    let host = StrandHost::new(alloc, programs, detaches, shows)?;
    Ok(StrandHosting { host, names })
}
