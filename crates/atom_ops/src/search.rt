ghost use Rattle.std.specs.Prelude.{◌≡◌, ◌≤◌, ◌<◌, ◌+◌, ◌^◌, IfOk, MatchOption, drop, length};
ghost use Rattle.atom_ops.specs.Operators as spec;
ghost use Rattle.atom_ops.specs.Search.{IsNextPlace, IsNowhere};
ghost use Rattle.atom_ops.specs.Shared as common;
ghost use Rattle.atom_ops.specs.Shared.{AreLengths, IsWindow};

use std::alloc::{AllocError, Global};
use std::cmp::min;

/// A part that is looked for in texts. A search takes time in proportion to what it goes over, whatever the part is: it goes on
/// from what it has seen, by how far the part begins like itself at each of its places.
#[derive(Drop)]
pub struct Pattern<'a> {
    pub part: &'a [char],
    lengths: Vec<usize>,
    ghost lengths_are: { AreLengths part.now lengths.items },
}

impl<'a> Pattern<'a> {
    /// The pattern of a part.
    pub fn new(alloc: Global, part: &'a [char]) -> Result<Pattern<'a>, AllocError>
        ensures part { IfOk result (λ pattern. pattern.part.now ≡ part.now) }
    {
        let lengths = own_lengths(alloc, part)?;
        Ok(Pattern { part, lengths })
    }

    /// The least place, from there on, at which the part stands in the text. Takes no memory.
    pub fn find(&self, text: &[char], from: usize) -> Option<usize>
        requires within { from ≤ length text.now }
        ensures place { MatchOption result (IsNowhere self.now.part.now text.now from) (λ place. IsNextPlace self.now.part.now text.now from place) }
    {
        if self.part.is_empty() {
            return Some(from);
        }
        let mut window = Window {
            start: from,
            end: from,
        };
        for place in from..text.len() {
            let count = shared_at(self.part, self.lengths.as_slice(), text, window, place);
            if count == self.part.len() {
                return Some(place);
            }
            window = window.or_further(place, count);
        }
        None
    }
}

/// Whether the part stands in the text.
pub fn contains(alloc: Global, part: &[char], text: &[char]) -> Result<bool, AllocError>
    ensures found { IfOk result (λ found. found ≡ spec.contains part.now text.now) }
{
    if text.len() < part.len() {
        return Ok(false);
    }
    let pattern = Pattern::new(alloc, part)?;
    Ok(pattern.find(text, 0).is_some())
}

/// A stretch of a text whose code points are the first of the part.
#[derive(Clone, Copy)]
struct Window {
    start: usize,
    end: usize,
}

impl Window {
    /// The one that reaches further: this one, or the next code points from a place on.
    fn or_further(self, place: usize, count: usize) -> Window
        requires { place + count < 2 ^ 64 }
        ensures { result ≡ common.or_further self place count }
    {
        if self.end < place + count {
            Window {
                start: place,
                end: place + count,
            }
        } else {
            self
        }
    }
}

/// How far the part begins like itself from each of its places on.
fn own_lengths(alloc: Global, part: &[char]) -> Result<Vec<usize>, AllocError>
    ensures { IfOk result (λ lengths. AreLengths part.now lengths.items) }
{
    let mut lengths = Vec::new(alloc);
    lengths.push(part.len())?;
    let mut window = Window { start: 0, end: 0 };
    for place in 1..part.len() {
        let count = shared_at(part, lengths.as_slice(), part, window, place);
        lengths.push(count)?;
        window = window.or_further(place, count);
    }
    Ok(lengths)
}

/// How far the text, from a place on, begins like the part.
fn shared_at(part: &[char], lengths: &[usize], text: &[char], window: Window, place: usize) -> usize
    requires place { place ≤ length text.now }
    requires behind { window.start ≤ place }
    requires lengths { AreLengths part.now lengths.now }
    requires window { IsWindow part.now text.now window }
    ensures count { result ≡ common.shared (drop place text.now) part.now }
    ensures within { place + result ≤ length text.now }
{
    let known = known_at(lengths, window, place);
    shared_from(part, text, place, known)
}

/// The same, where so many code points are known to be shared.
fn shared_from(part: &[char], text: &[char], place: usize, known: usize) -> usize
    requires place { place ≤ length text.now }
    requires known { known ≤ common.shared (drop place text.now) part.now }
    ensures count { result ≡ common.shared (drop place text.now) part.now }
    ensures within { place + result ≤ length text.now }
{
    let (_, text) = text.split_at(place);
    let (_, text) = text.split_at(known);
    let (_, part) = part.split_at(known);
    known + shared(text, part)
}

/// What is known of it from the window.
fn known_at(lengths: &[usize], window: Window, place: usize) -> usize
    requires behind { window.start ≤ place }
    ensures { result ≡ common.known lengths.now window place }
{
    if window.end <= place {
        return 0;
    }
    match lengths.get(place - window.start) {
        Some(length) => min(*length, window.end - place),
        None => 0,
    }
}

/// The number of code points that both begin with.
fn shared(a: &[char], b: &[char]) -> usize
    ensures { result ≡ common.shared a.now b.now }
{
    for (place, point) in a.iter().enumerate() {
        if b.len() <= place || *point != b[place] {
            return place;
        }
    }
    a.len()
}
