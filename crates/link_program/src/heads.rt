//! The methods of a linked program without their code, which narrowed programs share.
ghost use Rattle.std.specs.Prelude.{◌≡◌, ◌<◌, ℕ, List, IfNone, IfSome, Some, length, slice_get};
ghost use Rattle.lists.specs.Lists.{Has};
ghost use Rattle.link_indexes.specs.declared.method.MethodCode.{MethodCode as ACode};
ghost use Rattle.link_rules.specs.Linked.{LinkedMethod};
ghost use Rattle.link_program.specs.Methods.{AreMethodsWith, IsHeadOf, methods_with, texts_of};
ghost use Rattle.link_rules.specs.Accessed.{IsFirstPlace};

use super::method::MethodHead;

/// What methods are besides their code, in order.
#[derive(Drop)]
pub struct Heads {
    pub(crate) heads: Vec<MethodHead>,
}

impl Heads {
    /// The method with this number, without its code.
    pub fn head(&self, method: u32) -> &MethodHead
        requires { method < length self.now.heads.items }
        ensures { (bodies : List ACode) (m : LinkedMethod) → AreMethodsWith self.now bodies
            → slice_get (methods_with self.now bodies) method ≡ Some m → IsHeadOf m result.now }
    {
        &self.heads[method as usize]
    }

    /// The first method with this text, looked for one by one: a query names one or two.
    pub fn find(&self, text: &str) -> Option<u32>
        requires { (bodies : List ACode) × AreMethodsWith self.now bodies }
        ensures some { (bodies : List ACode) → AreMethodsWith self.now bodies
            → IfSome result (IsFirstPlace (texts_of (methods_with self.now bodies)) text.now) }
        ensures none { (bodies : List ACode) → AreMethodsWith self.now bodies
            → IfNone result (Has (texts_of (methods_with self.now bodies)) text.now → ⊥) }
    {
        for (at, head) in self.heads.iter().enumerate() {
            if head.text.as_str() == text {
                return Some(at as u32);
            }
        }
        None
    }
}
