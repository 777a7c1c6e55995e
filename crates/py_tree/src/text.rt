ghost use Rattle.std.specs.Prelude.{◌≡◌, ℕ, List, ◌++◌, IfOk, OnOk, OnErr, IsTrue, ◌↔◌, length};
ghost use Rattle.std.specs.Str.{chars};

use std::alloc::{AllocError, Global};
use std::marker::Model;

/// A text: its code points, in order. Contracts see it as their list.
#[derive(Debug, Drop)]
pub struct Text {
    points: Vec<char>,
}

impl Model for Text {
    ghost Value = { List ℕ };

    ghost view = { λ text. text.points.items };
}

impl Text {
    /// The code points of a string.
    #[tactic(auto, using(std::proofs::lemmas::Str::chars_from_encodes))]
    pub fn from_str(alloc: Global, text: &str) -> Result<Text, AllocError>
        ensures points { IfOk result (λ made. made ≡ chars text.now) }
    {
        Ok(Text {
            points: text.chars().collect(alloc)?,
        })
    }

    /// The text of these code points.
    pub fn from_slice(alloc: Global, points: &[char]) -> Result<Text, AllocError>
        ensures points { IfOk result (λ made. made ≡ points.now) }
    {
        Ok(Text {
            points: Vec::from_slice(alloc, points)?,
        })
    }

    /// The text of these code points. Takes no memory.
    pub fn from_vec(points: Vec<char>) -> Text
        ensures points { result ≡ points.items }
    {
        Text { points }
    }

    /// The code points.
    pub fn as_slice(&self) -> &[char]
        ensures points { result.now ≡ self.now }
    {
        self.points.as_slice()
    }

    /// An equal text.
    pub fn copy(&self, alloc: Global) -> Result<Text, AllocError>
        ensures equal { IfOk result (λ copy. copy ≡ self.now) }
    {
        Text::from_slice(alloc, self.as_slice())
    }

    /// Puts another text behind it.
    pub fn append(&mut self, more: &Text) -> Result<(), AllocError>
        ensures ok { OnOk result (self.new ≡ self.old ++ more.now) }
        ensures err { OnErr result (self.new ≡ self.old) }
    {
        self.points.extend_from_slice(more.as_slice())
    }

    /// Whether both are the same code points. Takes no memory.
    pub fn same(&self, other: &Text) -> bool
        ensures equal { IsTrue result ↔ (self.now ≡ other.now) }
    {
        self.points.as_slice() == other.points.as_slice()
    }

    /// The number of code points.
    pub fn len(&self) -> usize
        ensures count { result ≡ length self.now }
    {
        self.points.len()
    }
}
