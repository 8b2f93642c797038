//! A program with strands, as its host meets it.

use crate::program::StrandProgram;
use crate::strands::StrandEvent;
use crate::weaver::Weaver;
use device_port::Devices;
use std::alloc::AllocError;

impl<'m> Weaver for StrandProgram<'m> {
    ghost use Rattle.strand_host.specs.StrandHosts.{due_in, follows};
    ghost use Rattle.strand_host.specs.StrandPrograms.{memory_of};

    ghost follows = { λ x g t. follows x g t };

    ghost due_at = { λ x. due_in x };

    ghost memory = { λ x. memory_of x };

    fn advance(&mut self, devices: &mut Devices<'_>) -> Result<StrandEvent, AllocError> {
        StrandProgram::advance(self, devices)
    }

    fn due(&self) -> Option<u64> {
        StrandProgram::due(self)
    }

    fn show(&self, at: u32, len: u32) -> Option<&[u8]> {
        StrandProgram::show(self, at, len)
    }

    ghost told_so = { λ x g t f. f.1 };
}
