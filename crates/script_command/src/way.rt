//! How the programs of a script are taken: as they are, or rewritten first.

ghost use Rattle.std.specs.Prelude.{◌≡◌};
ghost use Rattle.script_command.specs.Playing.{asks_all};

/// How the programs of a script are taken.
#[derive(Clone, Copy)]
pub enum Way {
    /// Prepared modules, as they are.
    Host,
    /// Original modules, which are rewritten first.
    Run,
}

impl Way {
    /// Whether all set-up rules are asked: that no shown memory overlaps the area is asked of originals alone.
    pub(crate) fn asks_all(self) -> bool
        ensures { result ≡ asks_all self }
    {
        match self {
            Way::Host => false,
            Way::Run => true,
        }
    }
}
