ghost use Rattle.std.specs.Prelude.{◌≡◌, ◌<◌, ℕ, Some, true, IfOk, slice_get};
ghost use Rattle.import_graph.specs.Closure.{count};
ghost use Rattle.py_tree.specs.Joined.{module_of};
ghost use Rattle.py_tree.specs.Lawful.{lawful};
ghost use Rattle.registry_core.specs.declared.imports.Import.{Import as Row};
ghost use Rattle.module_load.specs.Folders.{names_of};
ghost use Rattle.module_load.specs.Needs.{rows_of};
ghost use Rattle.module_load.specs.Right.{known_in};
ghost use Rattle.module_load.specs.RightDecisions.{IsRight};
ghost use Rattle.module_load.specs.declared.verdict.Verdict.{Verdict as Decision};

use crate::deciding::decide;
use crate::folder::numbers_of;
use crate::needed::{Needed, NoneNeeded, by_number};
use crate::source::{Source, SourceState};
use crate::verdict::Verdict;
use lists::{ElementAt, Items};
use py_tree::code::Code;
use py_tree::fault::Fault;
use py_tree::statement::Module;
use py_tree::text::Text;
use registry_core::imports::Imports;
use registry_core::loads::Loads;
use registry_core::sources::Sources;
use std::alloc::{AllocError, Global};

/// How the modules of a folder are loaded: which is plain, which is refused at which line by which code, and which is published.
#[derive(Clone, Copy)]
pub struct StrictPython;

impl Loads for StrictPython {
    type Source = Source;

    type Verdict = Verdict;

    type Data = Verdict;

    ghost use Rattle.std.specs.Prelude.{◌≡◌};
    ghost use Rattle.module_load.specs.Right.{is_refused, right};

    ghost verdict_data = { λ verdict. verdict };

    ghost right = { λ loads all m list. right all m list };

    ghost is_right = { λ loads all m list verdict. verdict ≡ right all m list };

    ghost is_refused = { λ verdict. is_refused verdict };

    ghost right_data = { λ loads all m list verdict h. h };

    fn load(
        &self,
        alloc: Global,
        all: &Sources<Source>,
        module: u32,
        imports: &Imports<Verdict>,
    ) -> Result<Verdict, AllocError> {
        if let Some(line) = all.graph.cyclic(module) {
            let code = Code::ImportCycle;
            return Ok(Verdict::Refused(Fault { line, code }));
        }
        let source = all.list.at(module as usize);
        match &source.state {
            SourceState::Plain => Ok(Verdict::Plain),
            SourceState::Faulty(fault) => Ok(Verdict::Refused(*fault)),
            SourceState::Tree(tree) => load_tree(alloc, all, module, &source.name, tree, imports),
        }
    }

    fn refuses(&self, verdict: &Verdict) -> bool {
        verdict.is_refused()
    }
}

/// The verdict of a module that stands on no cycle of imports.
fn load_tree(
    alloc: Global,
    all: &Sources<Source>,
    module: u32,
    name: &Text,
    tree: &Module,
    imports: &Imports<Verdict>,
) -> Result<Verdict, AllocError>
    requires lawful { lawful (module_of tree.now) ≡ true }
    requires within { (k : ℕ) (row : Row Decision) → slice_get imports.now.rows k ≡ Some row → row.module < count all.now.graph }
    ensures { IfOk result (λ verdict. (decision : Decision) → IsRight (known_in (names_of all.now.list) (rows_of imports.now.rows)) name.now «module» (module_of tree.now) decision → decision ≡ verdict) }
{
    if imports.as_slice().is_empty() {
        return decide(alloc, tree, name, module, &NoneNeeded { all });
    }
    let numbers = numbers_of(alloc, all.list.as_slice())?;
    let table = by_number(alloc, imports, all.graph.count())?;
    let needed = Needed {
        all,
        imports,
        numbers: &numbers,
        table: table.as_slice(),
    };
    decide(alloc, tree, name, module, &needed)
}
