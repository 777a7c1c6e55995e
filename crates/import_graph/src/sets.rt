ghost use Rattle.std.specs.Prelude.{◌≡◌, ◌||◌, ◌==◌, ◌<◌, ◌≤◌, ◌/◌, ◌*◌, ◌^◌, ℕ, IfOk, length, replicate};
ghost use Rattle.import_graph.specs.Sets.{is_in, words_for};
ghost use Rattle.import_graph.specs.Closure.{those};

use lists::Items;
use std::alloc::{AllocError, Global};
use std::marker::Model;

/// A set of numbers below a bound, as the bits of words. Contracts see it as its words.
#[derive(Drop)]
pub(crate) struct NumberSet {
    words: Vec<u64>,
}

impl Model for NumberSet {
    ghost use Rattle.std.specs.Prelude.{List, ℕ};

    ghost Value = { List ℕ };

    ghost view = { λ set. set.words.items };
}

impl NumberSet {
    /// The empty set, with room for the numbers below the bound.
    pub(crate) fn empty(alloc: Global, bound: usize) -> Result<NumberSet, AllocError>
        ensures { IfOk result (λ made. made ≡ replicate (words_for bound) 0) }
    {
        Ok(NumberSet {
            words: vec![in alloc; 0; bound / 64 + 1]?,
        })
    }

    /// An equal set.
    pub(crate) fn copy(&self, alloc: Global) -> Result<NumberSet, AllocError>
        ensures { IfOk result (λ made. made ≡ self.now) }
    {
        Ok(NumberSet {
            words: Vec::from_slice(alloc, self.words.as_slice())?,
        })
    }

    pub(crate) fn has(&self, number: usize) -> bool
        requires { number / 64 < length self.now }
        ensures { result ≡ is_in self.now number }
    {
        (self.words[number / 64] >> (number % 64)) & 1 == 1
    }

    pub(crate) fn insert(&mut self, number: usize)
        requires { number / 64 < length self.old }
        ensures marks { (n : ℕ) → is_in self.new n ≡ (number == n) || is_in self.old n }
        ensures room { length self.new ≡ length self.old }
    {
        self.words[number / 64] |= 1 << (number % 64);
    }

    /// Inserts what the other set has.
    pub(crate) fn join(&mut self, other: &NumberSet)
        requires { length self.old ≡ length other.now }
        ensures marks { (n : ℕ) → is_in self.new n ≡ is_in self.old n || is_in other.now n }
        ensures room { length self.new ≡ length self.old }
    {
        for at in 0..self.words.len() {
            self.words[at] |= other.words[at];
        }
    }

    /// Its numbers below the bound, ascending.
    pub(crate) fn numbers(&self, alloc: Global, bound: u32) -> Result<Items<u32>, AllocError>
        requires { words_for bound ≤ length self.now }
        ensures { IfOk result (λ made. made ≡ those (is_in self.now) bound) }
    {
        let mut numbers = Items::new(alloc);
        for number in 0..bound {
            if self.has(number as usize) {
                numbers.push(number)?;
            }
        }
        Ok(numbers)
    }
}
