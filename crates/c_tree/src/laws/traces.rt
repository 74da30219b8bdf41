//! Traces.

ghost use Rattle.std.specs.Prelude.{◌≡◌, List};
ghost use Rattle.c_tree.specs.declared.program.BlockName.{BlockName};
ghost use Rattle.c_tree.specs.declared.program.Program.{Program};
ghost use Rattle.c_tree.specs.declared.program.Input.{Input};
ghost use Rattle.c_tree.specs.Meaning.Blocks.{AreBlocksOf};
ghost use Rattle.c_tree.specs.Meaning.Runs.{run, Ended};

/// The trace of a run has only blocks of the program.
pub fn traces_name_blocks()
    ensures { (p : Program) (i : Input) (u : List BlockName) → run p i ≡ Ended u → AreBlocksOf p.funcs u }
{}
