//! The law of the texts of inputs.

ghost use Rattle.std.specs.Prelude.{◌≡◌, IsTrue};
ghost use Rattle.c_tree.specs.declared.program.Program.{Program};
ghost use Rattle.c_tree.specs.declared.program.Input.{Input};
ghost use Rattle.c_tree.specs.Meaning.Runs.{fits};
ghost use Rattle.c_input.specs.InputTexts.{input_text};

/// A text is that of one fitting input of a program at most, so the text of a fitting input is read as that input.
pub fn one_input()
    ensures { (p : Program) (i j : Input) → IsTrue (fits p i) → IsTrue (fits p j) → input_text p i ≡ input_text p j → i
        ≡ j }
{}
