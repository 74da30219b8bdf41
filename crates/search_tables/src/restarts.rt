//! When a search begins anew. This is a matter of speed alone.

// How many conflicts the first turn has.
const FIRST_TURN: u32 = 100;

/// Turns that grow by half each: how many conflicts this turn has, and how many are left of it.
#[derive(Drop)]
pub struct Restarts {
    turn: u32,
    left: u32,
}

impl Restarts {
    pub fn new() -> Restarts {
        Restarts {
            turn: FIRST_TURN,
            left: FIRST_TURN,
        }
    }

    /// Counts a conflict. Whether the turn ends with it.
    pub fn is_over(&mut self) -> bool {
        if self.left > 1 {
            self.left -= 1;
            return false;
        }
        self.turn = self.turn.saturating_add(self.turn / 2);
        self.left = self.turn;
        true
    }
}
