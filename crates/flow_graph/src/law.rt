//! Worked graphs and their limits.

ghost use Rattle.std.specs.Prelude.{◌≡◌, length, Some, None};
ghost use Rattle.c_tree.specs.Meaning.Statements.{block};
ghost use Rattle.c_tree.specs.Meaning.Worked.{two_thresholds, clamp_filter};
ghost use Rattle.flow_laws.specs.Graphs.{graph, edges};
ghost use Rattle.flow_graph.specs.declared.fault.PlanFault.TheVariants.{Cap};
ghost use Rattle.flow_graph.specs.Limits.{block_copies, size_fault};
ghost use Rattle.flow_graph.specs.Worked.{nested_counts};

/// Two choices, a filter with a call in a loop, and nested loops whose inner condition is reached 2^40 times, and more.
pub fn worked_limits()
    ensures nodes { length (graph two_thresholds) ≡ 8 }
    ensures edges { length (edges (graph two_thresholds)) ≡ 9 }
    ensures copies { block_copies (graph two_thresholds) ≡ 6 }
    ensures filter { block_copies (graph clamp_filter) ≡ 15 }
    ensures at_the_cap { size_fault (graph (nested_counts 1048575)) ≡ None }
    ensures past_the_cap { size_fault (graph (nested_counts 1048576)) ≡ Some (Cap (block 0 3)) }
{}
