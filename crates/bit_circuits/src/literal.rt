//! Literals.

ghost use Rattle.std.specs.Prelude.{◌≡◌, ◌<◌, ◌≤◌, neg_ℤ, pos};
ghost use Rattle.cnf_form.specs.Literals.{most, IsLiteral};

use std::marker::Model;

/// A literal: a variable, counted from 1, or its negation. Contracts see it as the variable's number, or that number
/// negated.
#[derive(Clone, Copy, Debug, PartialEq, Eq)]
pub struct Literal {
    number: i32,
}

impl Model for Literal {
    ghost use Rattle.std.specs.Prelude.{ℤ};
    ghost use Rattle.cnf_form.specs.Literals.{IsLiteral};

    ghost Value = { ℤ };

    ghost view = { λ l. l.number };

    ghost invariant = { λ l. IsLiteral l.number };

    ghost inverse = { λ z. record { number = z } };
}

impl Literal {
    /// The literal of this variable.
    pub fn of_variable(variable: u32) -> Literal
        requires some { 0 < variable }
        requires few { variable ≤ most }
        ensures { result ≡ pos variable }
    {
        Literal {
            number: variable as i32,
        }
    }

    /// The literal of the same variable with the other sign.
    pub fn negated(self) -> Literal
        ensures { result ≡ neg_ℤ self }
    {
        Literal {
            number: -self.number,
        }
    }

    /// Its number.
    pub fn number(self) -> i32
        ensures value { result ≡ self }
        ensures literal { IsLiteral self }
    {
        self.number
    }
}
