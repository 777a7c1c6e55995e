ghost use Rattle.std.specs.Prelude.{◌≡◌};
ghost use Rattle.std.specs.Option.{option_copied};
ghost use Rattle.module_load.specs.Decisions.{Decisions};

use crate::verdict::Verdict;
use py_tree::text::Text;

/// What is decided of the modules of a folder.
pub trait Known {
    /// What is decided of the modules of a folder, by their names.
    ghost decisions: { Self → Decisions };

    /// What is decided of the module of that name: none where the folder has none.
    fn verdict(&self, name: &Text) -> Option<&Verdict>
        ensures { option_copied result ≡ decisions self.now name.now };
}
