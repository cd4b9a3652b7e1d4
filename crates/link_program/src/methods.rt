//! The methods of a linked program, as they are put together.
ghost use Rattle.std.specs.Prelude.{◌≡◌, ◌++◌, [], ◌∷◌, OnOk};
ghost use Rattle.link_program.specs.Methods.{AreMethods, IsHead, linked_method, methods_in};

use super::method::MethodHead;
use link_indexes::MethodCode;
use lists::NoMemory;
use std::alloc::{AllocError, Global};

/// The methods of a linked program in order, fewer than 4,294,967,296.
#[derive(Drop)]
pub struct Methods {
    pub(crate) heads: Vec<MethodHead>,
    pub(crate) bodies: Vec<MethodCode>,
}

impl Methods {
    /// No method. Takes no memory.
    pub fn new(alloc: Global) -> Self
        ensures are { AreMethods result }
        ensures none { methods_in result ≡ [] }
    {
        Methods {
            heads: Vec::new(alloc),
            bodies: Vec::new(alloc),
        }
    }

    /// Puts a method last. There is room for 4,294,967,295 methods.
    pub fn push(&mut self, head: MethodHead, body: MethodCode) -> Result<(), NoMemory>
        requires head { IsHead head }
        requires are { AreMethods self.old }
        ensures are { OnOk result (AreMethods self.new) }
        ensures put { OnOk result (methods_in self.new ≡ methods_in self.old ++ linked_method head body ∷ []) }
    {
        if self.heads.len() >= u32::MAX as usize {
            return Err(AllocError);
        }
        self.heads.push(head)?;
        self.bodies.push(body)?;
        Ok(())
    }
}
