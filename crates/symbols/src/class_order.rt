ghost use Rattle.std.specs.Prelude.{◌≡◌, IfOk, length};
ghost use Rattle.symbols.specs.ClassOrders.{IsOrder};

use crate::class::{BasePlace, OwnClass};
use crate::class_list::FoundClasses;
use std::alloc::{AllocError, Global};

/// The numbers of the classes, each followed by those of the classes below it.
pub(crate) fn order_of(alloc: Global, classes: &FoundClasses) -> Result<Vec<usize>, AllocError>
    ensures { IfOk result (λ order. IsOrder (length classes.now.own) order.items) }
{
    let places = places_of(alloc, classes)?;
    let mut order = numbers(alloc, classes.own.len())?;
    order.sort_by_key(|number| places.get(*number).copied())?;
    Ok(order)
}

fn numbers(alloc: Global, count: usize) -> Result<Vec<usize>, AllocError>
    ensures { IfOk result (λ all. IsOrder count all.items) }
{
    let mut all = Vec::new(alloc);
    for number in 0..count {
        all.push(number)?;
    }
    Ok(all)
}

/// The places of the classes in an order in which all that are below a class stand directly behind it. Only the time of a search depends
/// on it.
fn places_of(alloc: Global, classes: &FoundClasses) -> Result<Vec<usize>, AllocError> {
    let own = classes.own.as_slice();
    let mut forest = Forest {
        next: sizes_of(alloc, classes)?,
        sizes: sizes_of(alloc, classes)?,
        free: 0,
    };
    for other in 0..classes.others.len() {
        forest.place(own.len().saturating_add(other), None);
    }
    let mut places = Vec::new(alloc);
    for (number, class) in own.iter().enumerate() {
        places.push(forest.place(number, base_node(class, own.len())))?;
    }
    Ok(places)
}

/// How many classes there are at and below each, those of other modules behind those of the module.
fn sizes_of(alloc: Global, classes: &FoundClasses) -> Result<Vec<usize>, AllocError> {
    let own = classes.own.as_slice();
    let mut sizes = vec![in alloc; 1; own.len().saturating_add(classes.others.len())]?;
    for behind in 0..own.len() {
        let number = own.len() - 1 - behind;
        if let Some(base) = base_node(&own[number], own.len()) {
            let size = at(&sizes, base).saturating_add(at(&sizes, number));
            put(&mut sizes, base, size);
        }
    }
    Ok(sizes)
}

/// The number of the base of a class, where those of other modules have the numbers behind those of the module.
fn base_node(class: &OwnClass, own: usize) -> Option<usize> {
    match class.base {
        BasePlace::Earlier(number) => Some(number),
        BasePlace::Imported(number) => Some(own.saturating_add(number)),
        _ => None,
    }
}

fn at(sizes: &Vec<usize>, number: usize) -> usize {
    sizes.get(number).copied().unwrap_or(0)
}

fn put(sizes: &mut Vec<usize>, number: usize, size: usize) {
    if number < sizes.len() {
        sizes[number] = size;
    }
}

/// Classes that are given their places, bases first.
#[derive(Drop)]
struct Forest {
    sizes: Vec<usize>,
    /// The next place below each class.
    next: Vec<usize>,
    /// The next place below none.
    free: usize,
}

impl Forest {
    /// Gives a class the next place below its base.
    fn place(&mut self, number: usize, base: Option<usize>) -> usize {
        let size = at(&self.sizes, number);
        let place = match base {
            Some(base) => at(&self.next, base),
            None => self.free,
        };
        let behind = place.saturating_add(size);
        match base {
            Some(base) => put(&mut self.next, base, behind),
            None => self.free = behind,
        }
        put(&mut self.next, number, place.saturating_add(1));
        place
    }
}
