//! A place in a list of tokens.
ghost use Rattle.std.specs.Prelude.{◌≡◌, ◌<◌, ◌≤◌, ℕ, List, [], ◌∷◌, length, IsTrue, ◌↔◌};
ghost use Rattle.jim_signs.specs.declared.seen.Sign.{Sign};
ghost use Rattle.jim_stmts.specs.Leads.{lead_at, second_at, third_at};
ghost use Rattle.jim_stmts.specs.Meanings.{id};

use jim_ast::NameId;
use jim_signs::{Lead, Sign};
use std::marker::Model;

/// The tokens that are left, which contracts see as the list of them.
#[derive(Drop)]
pub struct Reader<'a> {
    signs: &'a [Sign],
    at: usize,
}

impl<'a> Model for Reader<'a> {
    ghost use Rattle.std.specs.Prelude.{drop, length, List, ◌≤◌};
    ghost use Rattle.jim_signs.specs.declared.seen.Sign.{Sign};

    ghost Value = { List Sign };

    ghost view = { λ p. drop p.at p.signs.now };

    ghost invariant = { λ p. p.at ≤ length p.signs.now };
}

impl<'a> Reader<'a> {
    /// A reader in front of all these tokens. Takes no memory.
    pub fn new(signs: &'a [Sign]) -> Self
        ensures { result ≡ signs.now }
    {
        Reader { signs, at: 0 }
    }
}

impl Reader<'_> {
    /// Whether no token is left.
    pub fn is_empty(&self) -> bool
        ensures { IsTrue result ↔ (length self.now ≡ 0) }
    {
        self.at == self.signs.len()
    }

    /// The class of the next token, `Other` where none is left.
    pub fn lead(&self) -> Lead
        ensures { result ≡ lead_at self.now }
    {
        if self.at < self.signs.len() {
            return self.signs[self.at].lead;
        }
        Lead::Other
    }

    /// Whether the next token is of this class. Where no token is left, it is of the class `Other`.
    pub fn is_at(&self, lead: Lead) -> bool
        ensures { IsTrue result ↔ (lead_at self.now ≡ lead) }
    {
        self.lead() == lead
    }

    /// The class of the token behind the next one, `Other` where there is none.
    pub fn second(&self) -> Lead
        ensures { result ≡ second_at self.now }
    {
        if self.at + 1 < self.signs.len() {
            return self.signs[self.at + 1].lead;
        }
        Lead::Other
    }

    /// The class of the second token behind the next one, `Other` where there is none.
    pub fn third(&self) -> Lead
        ensures { result ≡ third_at self.now }
    {
        if self.at + 2 < self.signs.len() {
            return self.signs[self.at + 2].lead;
        }
        Lead::Other
    }

    /// Goes over a token, if one is left.
    pub fn skip(&mut self)
        ensures rest { (s : Sign) (r : List Sign) → self.old ≡ s ∷ r → self.new ≡ r }
        ensures no_longer { length self.new ≤ length self.old }
        ensures shorter { 0 < length self.old → length self.new < length self.old }
    {
        if self.at < self.signs.len() {
            self.at += 1;
        }
    }

    /// Goes over a token, if one is left, and gives its number, 0 where none is left.
    pub fn number(&mut self) -> u32
        ensures number { (s : Sign) (r : List Sign) → self.old ≡ s ∷ r → result ≡ s.text }
        ensures none { length self.old ≡ 0 → result ≡ 0 }
        ensures rest { (s : Sign) (r : List Sign) → self.old ≡ s ∷ r → self.new ≡ r }
        ensures no_longer { length self.new ≤ length self.old }
        ensures shorter { 0 < length self.old → length self.new < length self.old }
    {
        if self.at < self.signs.len() {
            self.at += 1;
            return self.signs[self.at - 1].text;
        }
        0
    }

    /// Goes over a name or a text, and gives it.
    pub fn name(&mut self) -> NameId
        ensures name { (s : Sign) (r : List Sign) → self.old ≡ s ∷ r → result ≡ id s.text }
        ensures rest { (s : Sign) (r : List Sign) → self.old ≡ s ∷ r → self.new ≡ r }
        ensures no_longer { length self.new ≤ length self.old }
        ensures shorter { 0 < length self.old → length self.new < length self.old }
    {
        NameId(self.number())
    }
}
