/// What a loader passes after it has claimed a module, and before it loads it, with the lock free. It promises nothing.
pub trait Gate {
    /// Called with the number of the loader and that of the module.
    fn pass(&self, loader: u32, module: u32);
}

/// A gate that lets everyone pass at once.
#[derive(Drop)]
pub struct OpenGate;

impl Gate for OpenGate {
    fn pass(&self, _loader: u32, _module: u32) {}
}
