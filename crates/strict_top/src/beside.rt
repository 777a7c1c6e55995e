ghost use Rattle.std.specs.Prelude.{◌≡◌, ◌≤◌, IfOk, length, map};
ghost use Rattle.module_load.specs.Folders.{file_of};
ghost use Rattle.strict_top.specs.Steps.{AreDecided};

use loader_gate::gate::Gate;
use loader_gate::loading::load_all;
use module_load::folder::{ModuleFile, sources_of};
use module_load::strict_python::StrictPython;
use registry_core::world::World;
use std::alloc::{AllocError, Global};
use std::sync::{Arc, Wait};
use std::thread::Threads;

/// What is right to decide of the modules of these files, found by so many loaders beside each other.
pub(crate) fn decide_beside<G: Gate + Sync, R: Threads + Wait + Sync>(
    rt: &R,
    alloc: Global,
    files: &[ModuleFile],
    loaders: u32,
    gate: &G,
) -> Result<World<StrictPython>, AllocError>
    requires few { length files.now ≤ 1024 }
    requires least { 1 ≤ loaders }
    requires most { loaders ≤ 64 }
    ensures { IfOk result (λ world. AreDecided (map file_of files.now) world) }
{
    let all = sources_of(alloc, files)?;
    let all = Arc::new(alloc, all)?;
    load_all(rt, alloc, all, &StrictPython, loaders, gate)
}
