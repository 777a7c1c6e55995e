use crate::name_places::places_of;
use py_tree::expression::Texts;
use py_tree::text::Text;
use std::alloc::{AllocError, Global};
use std::marker::Model;
use symbols::name_map::NameMap;

/// The names of a function by their numbers. Contracts see their list.
#[derive(Drop)]
pub(crate) struct Locals<'a> {
    names: &'a Texts,
    places: NameMap<'a, u32>,
}

impl<'a> Model for Locals<'a> {
    ghost use Rattle.std.specs.Prelude.{ℕ, List};
    ghost use Rattle.compile_plain.specs.Tables.{ArePlaces};

    ghost Value = { List (List ℕ) };

    ghost view = { λ locals. locals.names.now };

    ghost invariant = { λ locals. ArePlaces locals.names.now locals.places };
}

impl<'a> Locals<'a> {
    ghost use Rattle.std.specs.Prelude.{◌≡◌, IfOk};
    ghost use Rattle.symbols.specs.Words.{among};
    ghost use Rattle.compile_plain.specs.Names.{place_in};

    pub fn of(alloc: Global, names: &'a Texts) -> Result<Locals<'a>, AllocError>
        ensures { IfOk result (λ locals. locals ≡ names.now) }
    {
        Ok(Locals {
            names,
            places: places_of(alloc, names.as_slice())?,
        })
    }

    pub fn place(&self, name: &Text) -> Option<u32>
        ensures { result ≡ place_in self.now name.now }
    {
        self.places.get(name)
    }

    #[tactic(auto, using(crate::proofs::Positions::among_is))]
    pub fn has(&self, name: &Text) -> bool
        ensures { result ≡ among name.now self.now }
    {
        self.place(name).is_some()
    }
}
