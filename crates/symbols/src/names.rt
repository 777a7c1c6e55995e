ghost use Rattle.std.specs.Prelude.{◌≡◌, [], IfOk, OnErr, OnOk, length, map, not};
ghost use Rattle.symbols.specs.Names.{with_name};
ghost use Rattle.symbols.specs.Words.{among};

use indexmap::IndexSet;
use py_tree::expression::Texts;
use py_tree::text::Text;
use std::alloc::{AllocError, Global};
use std::marker::Model;

/// Names, each once, in the order in which they came.
#[derive(Drop)]
pub struct Names<'a> {
    set: IndexSet<&'a [char]>,
}

impl<'a> Model for Names<'a> {
    ghost use Rattle.std.specs.Prelude.{ℕ, List, map};

    ghost Value = { List (List ℕ) };

    ghost view = { λ names. map (λ key. key.now) names.set.keys };
}

impl<'a> Names<'a> {
    /// No names.
    pub fn new(alloc: Global) -> Names<'a>
        ensures { result ≡ [] }
    {
        Names {
            set: IndexSet::new(alloc),
        }
    }

    /// Puts a name behind the others, where it isn't among them. Answers whether it is new.
    pub fn add(&mut self, name: &'a Text) -> Result<bool, AllocError>
        ensures names { OnOk result (self.new ≡ with_name self.old name.now) }
        ensures new { IfOk result (λ new. new ≡ not (among name.now self.old)) }
        ensures err { OnErr result (self.new ≡ self.old) }
    {
        Ok(self.set.insert(name.as_slice())?)
    }

    /// Whether a name is among them.
    pub fn has(&self, name: &Text) -> bool
        ensures { result ≡ among name.now self.now }
    {
        self.set.contains(name.as_slice())
    }

    /// The number of names.
    #[tactic(auto, using(crate::proofs::Sets::length_pointed))]
    pub fn len(&self) -> usize
        ensures { result ≡ length self.now }
    {
        self.set.len()
    }

    /// The names.
    pub(crate) fn as_slice(&self) -> &[&'a [char]]
        ensures { map (λ name. name.now) result.now ≡ self.now }
    {
        self.set.as_slice()
    }

    /// They as texts.
    pub fn texts(&self, alloc: Global) -> Result<Texts, AllocError>
        ensures { IfOk result (λ texts. texts ≡ self.now) }
    {
        let mut texts = Texts::from_vec(Vec::with_capacity(alloc, self.set.len())?);
        for name in self.set.as_slice() {
            texts.push(Text::from_slice(alloc, name)?)?;
        }
        Ok(texts)
    }
}
