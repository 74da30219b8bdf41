//! The names in scope.

ghost use Rattle.std.specs.Prelude.{
  ◌≡◌,
  ◌++◌,
  ◌<◌,
  ◌≤◌,
  ◌-◌,
  ℕ,
  List,
  ◌∷◌,
  [],
  length,
  take,
  OnOk,
  OnErr,
  option_map,
  Option,
};
ghost use Rattle.c_tree.specs.Checking.Scopes as scope;
ghost use Rattle.c_names.specs.Tables.{known, last_binding, IsTable, Rebinds, entity_view, known_as};

use c_tree::{NoMemory, Ty, Var};
use std::alloc::Global;
use std::collections::BTreeMap;
use std::marker::Model;

/// What a name stands for (C11 6.2.1): a variable, whether it is an array and whether it is `const`; or the function
/// of a number, its number of parameters and its result.
#[derive(Clone, Copy)]
pub enum Entity {
    Variable {
        var: Var,
        array: bool,
        constant: bool,
    },
    Function {
        number: u32,
        params: usize,
        result: Option<Ty>,
    },
}

// What a name stands for, and the depth of the scope that declares it.
#[derive(Clone, Copy)]
pub(crate) struct Binding {
    pub(crate) depth: usize,
    pub(crate) entity: Entity,
}

// A declared name, and the binding of the same name that it hides.
#[derive(Clone, Copy)]
pub(crate) struct Declaration<'a> {
    pub(crate) name: &'a [u8],
    pub(crate) binding: Binding,
    pub(crate) hidden: Option<Binding>,
}

/// The names in scope in the order of their declarations, hidden ones among them, with the last binding of each at
/// hand. Bytes of names are compared. A look-up takes the logarithm of how many names there are.
#[derive(Drop)]
pub struct Names<'a> {
    latest: BTreeMap<&'a [u8], Binding>,
    declared: Vec<Declaration<'a>>,
}

impl<'a> Model for Names<'a> {
    ghost Value = { List scope.Known };

    ghost view = { λ n. known n.declared.items };

    ghost invariant = { λ n. IsTable n.latest n.declared.items };
}

impl Entity {
    /// The variable, if it is one; else any.
    pub fn variable(entity: Option<Entity>) -> Var
        ensures { result ≡ scope.variable (option_map entity_view entity) }
    {
        match entity {
            Some(Entity::Variable { var, .. }) => var,
            Some(Entity::Function { .. }) => Var::Local(0),
            None => Var::Local(0),
        }
    }

    /// The function's number, if it is one; else any.
    pub fn function_number(entity: Option<Entity>) -> u32
        ensures { result ≡ scope.function_number (option_map entity_view entity) }
    {
        match entity {
            Some(Entity::Function { number, .. }) => number,
            Some(Entity::Variable { .. }) => 0,
            None => 0,
        }
    }
}

impl<'a> Names<'a> {
    /// No names.
    pub fn new(alloc: Global) -> Self
        ensures { result ≡ [] }
    {
        Names {
            latest: BTreeMap::new(alloc),
            declared: Vec::new(alloc),
        }
    }

    /// How many names are in scope, hidden ones among them.
    pub fn count(&self) -> usize
        ensures { result ≡ length self.now }
    {
        self.declared.len()
    }

    // The last binding of a name.
    fn latest(&self, name: &[u8]) -> Option<Binding>
        ensures { option_map (known_as name.now) result ≡ scope.latest self.now name.now }
    {
        self.latest.get(name).copied()
    }

    /// What a name stands for, if it is in scope.
    pub fn entity(&self, name: &[u8]) -> Option<Entity>
        ensures { option_map entity_view result ≡ scope.entity_of self.now name.now }
    {
        match self.latest(name) {
            None => None,
            Some(binding) => Some(binding.entity),
        }
    }

    /// Whether the scope of this depth, the innermost one, has the name already.
    pub fn is_known_at(&self, depth: usize, name: &[u8]) -> bool
        ensures { result ≡ scope.is_known_at self.now depth name.now }
    {
        match self.latest(name) {
            None => false,
            Some(binding) => binding.depth == depth,
        }
    }

    /// Declares a name in the scope of this depth. At want of memory the names are as before.
    pub fn declare(&mut self, name: &'a [u8], depth: usize, entity: Entity) -> Result<(), NoMemory>
        ensures declared { OnOk result (self.new ≡ self.old
            ++ (record { name = name.now; depth = depth; entity = entity_view entity }) ∷ []) }
        ensures same { OnErr result (self.new ≡ self.old) }
    {
        let binding = Binding { depth, entity };
        let hidden = self.latest.get(name).copied();
        let declaration = Declaration {
            name,
            binding,
            hidden,
        };
        match self.declared.push(declaration) {
            Ok(()) => {}
            Err(_) => return Err(NoMemory),
        }
        match rebind(&mut self.latest, name, Some(binding)) {
            Ok(()) => Ok(()),
            Err(e) => {
                let _ = self.declared.pop();
                Err(e)
            }
        }
    }

    // Takes back the last declaration. At want of memory the names are as before.
    fn undo(&mut self) -> Result<(), NoMemory>
        requires { 0 < length self.old }
        ensures one { OnOk result (self.new ≡ take (length self.old - 1) self.old) }
        ensures same { OnErr result (self.new ≡ self.old) }
    {
        let Some(last) = self.declared.last() else {
            return Ok(());
        };
        let last = *last;
        rebind(&mut self.latest, last.name, last.hidden)?;
        let _ = self.declared.pop();
        Ok(())
    }

    /// Takes back all declarations but the first `count`. At want of memory some of the later ones may be left.
    pub fn close(&mut self, count: usize) -> Result<(), NoMemory>
        ensures { OnOk result (self.new ≡ take count self.old) }
    {
        while self.count() > count {
            self.undo()?;
        }
        Ok(())
    }
}

// Lets a name stand for this, or for nothing. At want of memory each stands for what it did.
fn rebind<'a>(
    latest: &mut BTreeMap<&'a [u8], Binding>,
    name: &'a [u8],
    binding: Option<Binding>,
) -> Result<(), NoMemory>
    ensures rebound { OnOk result (Rebinds latest.old latest.new name.now binding) }
    ensures same { OnErr result (latest.new.entries ≡ latest.old.entries) }
{
    match binding {
        Some(binding) => match latest.insert(name, binding) {
            Ok(_) => Ok(()),
            Err(_) => Err(NoMemory),
        },
        None => {
            latest.remove(name);
            Ok(())
        }
    }
}
