ghost use Rattle.py_tree.specs.Joined.{module_of};
ghost use Rattle.compile_plain.specs.Tables.{AreNames};

use py_tree::statement::Module;
use py_tree::text::Text;
use symbols::binding::StaticName;
use symbols::name_map::NameMap;

/// The names of a module by their numbers.
#[derive(Drop)]
pub(crate) struct ModuleNames<'a> {
    pub tree: &'a Module,
    pub globals: NameMap<'a, u32>,
    pub statics: NameMap<'a, StaticName>,
    pub classes: NameMap<'a, u32>,
    pub defs: NameMap<'a, u32>,
    /// Of each class.
    pub methods: Vec<NameMap<'a, u32>>,
    pub ghost placed: { AreNames (module_of tree.now) globals statics classes defs methods.items },
}

impl<'a> ModuleNames<'a> {
    ghost use Rattle.std.specs.Prelude.{◌≡◌};
    ghost use Rattle.std.specs.List.{position};
    ghost use Rattle.symbols.specs.Bindings.{globals as spec_globals};
    ghost use Rattle.symbols.specs.SpecialNames.{module_context};
    ghost use Rattle.py_meaning.specs.Definitions.{is_function};
    ghost use Rattle.py_meaning.specs.Modules.{functions};
    ghost use Rattle.compile_plain.specs.Names.{place_in};
    ghost use Rattle.compile_plain.specs.Scopes.{tree_of};
    ghost use Rattle.compile_plain.specs.Tables.{class_names};

    pub fn global(&self, name: &Text) -> Option<u32>
        ensures { result ≡ place_in (spec_globals (tree_of self.now)) name.now }
    {
        self.globals.get(name)
    }

    pub fn static_name(&self, name: &Text) -> Option<StaticName>
        ensures { result ≡ (module_context (tree_of self.now)).statics name.now }
    {
        self.statics.get(name)
    }

    pub fn class(&self, name: &Text) -> Option<u32>
        ensures { result ≡ place_in (class_names (tree_of self.now)) name.now }
    {
        self.classes.get(name)
    }

    /// The number of the function of that name, in that class or in none.
    pub fn function(&self, class: Option<u32>, name: &Text) -> Option<u32>
        ensures { result ≡ position (is_function class name.now) (functions (tree_of self.now)) }
    {
        match class {
            None => self.defs.get(name),
            Some(class) => self.methods.get(class as usize)?.get(name),
        }
    }
}
