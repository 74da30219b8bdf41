//! What is wrong with a unit, as far as it has been looked at.

ghost use Rattle.std.specs.Prelude.{◌≡◌, None, Some, option_map};
ghost use Rattle.c_tree.specs.Checking.Uses as uses;
ghost use Rattle.c_tree.specs.Checking.Refusals.{where_true, placed_fault, is_misread, is_constant};
ghost use Rattle.c_names.specs.Tables.{entity_view};
ghost use Rattle.c_faults.specs.Verdicts.{fault_kind, after_one, after_all, after_use, refusal_of};

use crate::fault::{CheckRefusal, Fault};
use c_names::Entity;
use c_tree::{RawBound, Value};
use std::marker::Model;

/// The greatest bound of a loop.
pub const MAX_BOUND: u64 = 1_048_576;
/// The greatest length of an array.
const MAX_LENGTH: u32 = 64;

/// Of the refusals so far the one that is told: the first by its fault's number, and then by its place.
#[derive(Drop)]
pub struct Verdict {
    first: Option<CheckRefusal>,
}

impl Model for Verdict {
    ghost use Rattle.std.specs.Prelude.{Option, option_map};
    ghost use Rattle.c_tree.specs.Checking.Refusals as spec;
    ghost use Rattle.c_faults.specs.Verdicts.{refusal_of};

    ghost Value = { Option spec.PlacedFault };

    ghost view = { λ v. option_map refusal_of v.first };
}

impl Verdict {
    /// Nothing is wrong so far.
    pub fn new() -> Verdict
        ensures { result ≡ None }
    {
        Verdict { first: None }
    }

    /// The refusal that is told, if anything is wrong.
    pub fn first(&self) -> Option<CheckRefusal>
        ensures { option_map refusal_of result ≡ self.now }
    {
        self.first
    }

    /// Hears of a fault.
    pub fn refuse(&mut self, fault: Fault, at: u32)
        ensures { self.new ≡ after_one self.old (placed_fault (fault_kind fault) at) }
    {
        let refusal = CheckRefusal { fault, at };
        match self.first {
            None => self.first = Some(refusal),
            Some(first) => {
                if refusal.precedes(first) {
                    self.first = Some(refusal);
                }
            }
        }
    }

    /// Hears of a fault where there is one.
    pub fn refuse_if(&mut self, is_wrong: bool, fault: Fault, at: u32)
        ensures { self.new ≡ after_all self.old (where_true is_wrong (fault_kind fault) at) }
    {
        if is_wrong {
            self.refuse(fault, at);
        }
    }

    /// A name that is read, and whether an index follows it.
    #[tactic(auto, unfolding(crate::specs::Verdicts::after_use))]
    pub fn read(&mut self, at: u32, entity: Option<Entity>, indexed: bool)
        ensures { self.new ≡ after_use self.old (uses.Read at (option_map entity_view entity) indexed) }
    {
        match entity {
            None => self.refuse(Fault::NoName, at),
            Some(entity) => self.refuse_if(is_misread(indexed, entity), Fault::Kind, at),
        }
    }

    /// A name that is assigned to, and whether an index follows it.
    #[tactic(auto, unfolding(crate::specs::Verdicts::after_use))]
    pub fn assigned(&mut self, at: u32, entity: Option<Entity>, indexed: bool)
        ensures { self.new ≡ after_use self.old (uses.Assigned at (option_map entity_view entity) indexed) }
    {
        match entity {
            None => self.refuse(Fault::NoName, at),
            Some(entity) => {
                let is_wrong = is_misread(indexed, entity) || is_constant(entity);
                self.refuse_if(is_wrong, Fault::Kind, at);
            }
        }
    }

    /// A called name, the number of arguments, whether the result goes somewhere, and the calling function.
    #[tactic(auto, unfolding(crate::specs::Verdicts::after_use))]
    pub fn called(
        &mut self,
        at: u32,
        entity: Option<Entity>,
        arguments: usize,
        is_used: bool,
        caller: u32,
    )
        ensures { self.new ≡ after_use self.old (uses.Called at (option_map entity_view entity) arguments is_used
            caller) }
    {
        match entity {
            None => self.refuse(Fault::NoName, at),
            Some(Entity::Variable { .. }) => self.refuse(Fault::Kind, at),
            Some(
                Entity::Function {
                    number,
                    params,
                    result: returns,
                },
            ) => {
                self.refuse_if(arguments != params, Fault::Arity, at);
                self.refuse_if(is_used && returns.is_none(), Fault::NoValue, at);
                self.refuse_if(caller <= number, Fault::LaterCall, at);
            }
        }
    }

    /// A declared name, and whether its scope has it already.
    #[tactic(auto, unfolding(crate::specs::Verdicts::after_use))]
    pub fn declared(&mut self, at: u32, again: bool)
        ensures { self.new ≡ after_use self.old (uses.Declared at again) }
    {
        self.refuse_if(again, Fault::Twice, at);
    }

    /// An array's length and how long its list is, and whether it is a local.
    #[tactic(auto, unfolding(crate::specs::Verdicts::after_use))]
    pub fn sized(&mut self, at: u32, length: u32, list: Option<usize>, local: bool)
        ensures { self.new ≡ after_use self.old (uses.Sized at length list local) }
    {
        let too_long = match list {
            None => false,
            Some(n) => (length as usize) < n,
        };
        let is_length = 1 <= length && length <= MAX_LENGTH;
        self.refuse_if(!is_length || too_long, Fault::ArrayLength, at);
        self.refuse_if(local && list.is_none(), Fault::NoInit, at);
    }

    /// The value of an expression that is to be a constant.
    #[tactic(auto, unfolding(crate::specs::Verdicts::after_use))]
    pub fn constant(&mut self, at: u32, value: Option<Value>)
        ensures { self.new ≡ after_use self.old (uses.Constant at value) }
    {
        self.refuse_if(value.is_none(), Fault::Const, at);
    }

    /// `return`, whether it has a value, and whether the function has a result.
    #[tactic(auto, unfolding(crate::specs::Verdicts::after_use))]
    pub fn returned(&mut self, at: u32, value: bool, has_result: bool)
        ensures { self.new ≡ after_use self.old (uses.Returned at value has_result) }
    {
        let is_wrong = if value { !has_result } else { has_result };
        self.refuse_if(is_wrong, Fault::NoValue, at);
    }

    /// `break` or `continue`, and whether a loop is around it.
    #[tactic(auto, unfolding(crate::specs::Verdicts::after_use))]
    pub fn left(&mut self, at: u32, looped: bool)
        ensures { self.new ≡ after_use self.old (uses.Left at looped) }
    {
        self.refuse_if(!looped, Fault::Stray, at);
    }

    /// The first word of a loop, and its bound.
    #[tactic(auto, unfolding(crate::specs::Verdicts::after_use))]
    pub fn looped(&mut self, at: u32, bound: Option<RawBound>)
        ensures { self.new ≡ after_use self.old (uses.Looped at bound) }
    {
        match bound {
            None => self.refuse(Fault::NoBound, at),
            Some(bound) => {
                let is_bound = 1 <= bound.value && bound.value <= MAX_BOUND;
                self.refuse_if(!is_bound, Fault::BoundRange, bound.at);
            }
        }
    }
}

// An array without index, an index on a scalar, or a function that is not called.
fn is_misread(indexed: bool, entity: Entity) -> bool
    ensures { result ≡ is_misread indexed (Some (entity_view entity)) }
{
    match entity {
        Entity::Variable { array, .. } => { if array { !indexed } else { indexed } }
        Entity::Function { .. } => true,
    }
}

fn is_constant(entity: Entity) -> bool
    ensures { result ≡ is_constant (Some (entity_view entity)) }
{
    match entity {
        Entity::Variable { constant, .. } => constant,
        Entity::Function { .. } => false,
    }
}
