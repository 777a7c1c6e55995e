use lists::Items;

/// What a graph tells of one module.
#[derive(Drop)]
pub(crate) struct Links {
    pub(crate) direct: Items<u32>,
    pub(crate) reached: Items<u32>,
    pub(crate) need: Items<u32>,
    pub(crate) cyclic: Option<u32>,
}
