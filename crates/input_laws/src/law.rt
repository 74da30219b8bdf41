//! The law of the lines of inputs' texts.

ghost use Rattle.std.specs.Prelude.{IsTrue};
ghost use Rattle.c_tree.specs.declared.program.Input.{Input};
ghost use Rattle.c_tree.specs.Keeping.Programs.{Program};
ghost use Rattle.c_tree.specs.Checking.Checked.{IsProgram};
ghost use Rattle.c_tree.specs.Meaning.Runs.{fits};
ghost use Rattle.c_input.specs.InputTexts.{input_text};
ghost use Rattle.text_lines.specs.Cutting.{HasNoFeed};

/// The text of an input that fits a program has no line feed.
pub fn input_texts_are_of_one_line()
    ensures { (p : Program) (i : Input) → IsProgram p → IsTrue (fits p i) → HasNoFeed (input_text p i) }
{}
