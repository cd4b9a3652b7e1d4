use std::alloc::AllocError;

/// Why no tree is built.
#[derive(Clone, Copy, Debug, PartialEq, Eq)]
pub enum TreeError {
    /// The least class with a parent or an interface that is no class.
    UnknownParent { class: u32 },
    /// The least class that is reached from itself by one or more steps to parents and interfaces.
    /// Each parent and interface is a class.
    Cyclic { class: u32 },
    /// Memory ran out.
    NoMemory,
}

impl From<AllocError> for TreeError {
    ghost use Rattle.std.specs.Prelude.{◌≡◌};
    ghost use Rattle.class_tree.specs.declared.errors.TreeError.TheVariants.{NoMemory};

    ghost from_gives = { λ _ e. e ≡ NoMemory };

    fn from(_error: AllocError) -> Self {
        TreeError::NoMemory
    }
}
