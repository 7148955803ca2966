use ft_base::{Line, Memory};

/// Why a selection isn't compiled.
#[derive(Drop)]
pub enum CompileFault {
    /// The selection names a stop list or a thesaurus that isn't there. The name is the first such one in its printed form.
    NoSuchList { name: Line },
    Memory,
}

impl From<Memory> for CompileFault {
    ghost use Rattle.std.specs.Prelude.{◌≡◌};
    ghost use Rattle.plan_compiler.specs.declared.fault.CompileFault.TheVariants as Fault;

    ghost from_gives = { λ _ fault. fault ≡ Fault.Memory };

    fn from(_memory: Memory) -> CompileFault {
        CompileFault::Memory
    }
}
