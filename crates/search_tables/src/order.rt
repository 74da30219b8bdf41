//! Which variable a search decides next. This is a matter of speed alone: nothing is promised of the answers, and the
//! search tests each of them.

ghost use Rattle.std.specs.Prelude.{◌<◌, ◌/◌};

use std::alloc::{AllocError, Global};

// Where a variable stands that is not in the heap.
const NOWHERE: usize = 18_446_744_073_709_551_615;
// The first step by which activities grow, and the step at which all of them are divided by `SCALE`.
const FIRST_STEP: u128 = 4_294_967_296;

const LAST_STEP: u128 = 1_267_650_600_228_229_401_496_703_205_376;

const SCALE: u128 = 295_147_905_179_352_825_856;

/// How active each variable is in conflicts, the later ones counting more; the sign that each variable had last; and a
/// heap of variables, the most active one on top. Tables have the entry of a variable at its number.
#[derive(Drop)]
pub struct Order {
    activities: Vec<u128>,
    signs: Vec<bool>,
    heap: Vec<u32>,
    spots: Vec<usize>,
    step: u128,
}

impl Order {
    /// All variables are in the heap, and none is more active than another.
    pub fn new(alloc: Global, variables: u32) -> Result<Order, AllocError> {
        let mut order = Order {
            activities: vec![in alloc; 0; variables as usize + 1]?,
            signs: vec![in alloc; false; variables as usize + 1]?,
            heap: Vec::new(alloc),
            spots: vec![in alloc; NOWHERE; variables as usize + 1]?,
            step: FIRST_STEP,
        };
        for variable in 0..variables {
            order.insert(variable + 1)?;
        }
        Ok(order)
    }

    /// The variable is in the heap from now on.
    fn insert(&mut self, variable: u32) -> Result<(), AllocError> {
        if self.spot(variable) == NOWHERE {
            let last = self.heap.len();
            self.heap.push(variable)?;
            self.rise(last, variable);
        }
        Ok(())
    }

    /// Takes the top out of the heap.
    pub fn pop(&mut self) -> Option<u32> {
        let top = self.at(0);
        let last = self.heap.pop()?;
        if !self.heap.is_empty() {
            self.sink(last);
        }
        if let Some(spot) = self.spots.get_mut(top as usize) {
            *spot = NOWHERE;
        }
        Some(top)
    }

    /// Takes a literal back: its variable is to be decided again, and first with the same sign.
    pub fn take_back(&mut self, literal: i32) -> Result<(), AllocError> {
        let variable = literal.unsigned_abs();
        if let Some(sign) = self.signs.get_mut(variable as usize) {
            *sign = literal > 0;
        }
        self.insert(variable)
    }

    /// Whether the variable was true last.
    pub fn sign(&self, variable: u32) -> bool {
        self.signs.get(variable as usize).copied().unwrap_or(false)
    }

    /// The variable was in a conflict.
    pub fn bump(&mut self, variable: u32) {
        if let Some(activity) = self.activities.get_mut(variable as usize) {
            *activity = activity.saturating_add(self.step);
        }
        let spot = self.spot(variable);
        if spot < self.heap.len() {
            self.rise(spot, variable);
        }
    }

    /// Later conflicts count more from now on.
    pub fn age(&mut self) {
        self.step = self.step.saturating_add(self.step / 19);
        if self.step >= LAST_STEP {
            for activity in self.activities.iter_mut() {
                *activity /= SCALE;
            }
            self.step /= SCALE;
        }
    }

    fn activity(&self, variable: u32) -> u128 {
        self.activities.get(variable as usize).copied().unwrap_or(0)
    }

    fn spot(&self, variable: u32) -> usize {
        self.spots
            .get(variable as usize)
            .copied()
            .unwrap_or(NOWHERE)
    }

    // The variable at a spot of the heap.
    fn at(&self, spot: usize) -> u32 {
        self.heap.get(spot).copied().unwrap_or(0)
    }

    fn put(&mut self, spot: usize, variable: u32) {
        if let Some(entry) = self.heap.get_mut(spot) {
            *entry = variable;
        }
        if let Some(entry) = self.spots.get_mut(variable as usize) {
            *entry = spot;
        }
    }

    // Puts the variable where it belongs, at the spot or above it.
    fn rise(&mut self, spot: usize, variable: u32) {
        let activity = self.activity(variable);
        let mut spot = spot;
        while spot > 0 {
            let parent = self.at((spot - 1) / 2);
            if self.activity(parent) >= activity {
                break;
            }
            self.put(spot, parent);
            spot = (spot - 1) / 2;
        }
        self.put(spot, variable);
    }

    // Puts the variable where it belongs, from the top on.
    fn sink(&mut self, variable: u32) {
        let activity = self.activity(variable);
        let count = self.heap.len();
        let mut spot = 0;
        while spot < count / 2 {
            let child = self.active_child(spot, count);
            let next = self.at(child);
            if self.activity(next) <= activity {
                break;
            }
            self.put(spot, next);
            spot = child;
        }
        self.put(spot, variable);
    }

    // The more active one of the two spots below this one.
    fn active_child(&self, spot: usize, count: usize) -> usize
        requires { spot < count / 2 }
        ensures { spot < result }
    {
        let left = 2 * spot + 1;
        let right = left + 1;
        if right < count && self.activity(self.at(right)) > self.activity(self.at(left)) {
            right
        } else {
            left
        }
    }
}
