use bytecode::instr::Handler;

/// Where `break`, `continue` and an exception go, and out of how many clauses: those inside the loop for the first two, those
/// inside the block for `return`.
#[derive(Clone, Copy, Debug, PartialEq, Eq)]
pub struct Targets {
    pub broke: u32,
    pub continued: u32,
    pub in_loop: u32,
    pub in_block: u32,
    pub raised: Handler,
}
