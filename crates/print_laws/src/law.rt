//! Printed programs are read again, and worked texts.

ghost use Rattle.std.specs.Prelude.{◌≡◌, ℕ, List, ◌++◌, codes};
ghost use Rattle.c_tree.specs.declared.tree.Ty.TheVariants as ty;
ghost use Rattle.c_tree.specs.declared.tree.UnOp.TheVariants as un;
ghost use Rattle.c_tree.specs.declared.tree.BinOp.TheVariants as op;
ghost use Rattle.c_tree.specs.declared.tree.Expr.TheVariants.{Num, Un, Cast, Bin, Cond};
ghost use Rattle.c_tree.specs.declared.program.Program.{Program};
ghost use Rattle.c_tree.specs.declared.unit.Unit.{Unit as Tree};
ghost use Rattle.c_tree.specs.Checking.Checked.{IsSpelled};
ghost use Rattle.c_tree.specs.Checking.Refusals.{Typed};
ghost use Rattle.print_laws.specs.Again.{IsReadAs};
ghost use Rattle.print_laws.specs.Printed.{printed_program};
ghost use Rattle.print_laws.specs.Worked.{named_return_of_zero, each_construct, a, b, c, worked_expr_text};

/// A program that is typed from a unit which the tokens of some text spell is read again from its printed text: it has
/// tokens, they spell a unit, and this is typed with the same entry as the same program.
pub fn printed_programs_are_read_again()
    ensures { (unit : Tree) (entry : List ℕ) (p : Program) → IsSpelled unit → Typed unit entry p
        → IsReadAs (printed_program p) entry p }
{}

/// Programs and their texts.
pub fn worked_programs()
    ensures zero { printed_program named_return_of_zero ≡ codes "int main(void) {\n    return 0;\n}\n" }
    ensures each { printed_program each_construct ≡
        codes "extern unsigned mode;\n"
        ++ codes "extern int sample[4];\n"
        ++ codes "int low = -5;\n"
        ++ codes "unsigned mask = 4294967295u;\n"
        ++ codes "int least = (int)2147483648u;\n"
        ++ codes "int table[3] = {1, -2};\n"
        ++ codes "int last;\n"
        ++ codes "void note(int x) {\n"
        ++ codes "    table[0] = x;\n"
        ++ codes "    return;\n"
        ++ codes "}\n"
        ++ codes "unsigned pick(int a, unsigned b) {\n"
        ++ codes "    return b;\n"
        ++ codes "}\n"
        ++ codes "int main(void) {\n"
        ++ codes "    int r;\n"
        ++ codes "    int list[2] = {1, 2};\n"
        ++ codes "    int q = pick(1, mode);\n"
        ++ codes "    r = pick(1, 2u);\n"
        ++ codes "    note(r);\n"
        ++ codes "#pragma loopbound 4\n"
        ++ codes "    while (q) {\n"
        ++ codes "        if (r) {\n"
        ++ codes "            continue;\n"
        ++ codes "        } else {\n"
        ++ codes "            {\n"
        ++ codes "                q = 0;\n"
        ++ codes "            }\n"
        ++ codes "        }\n"
        ++ codes "    }\n"
        ++ codes "#pragma loopbound 3\n"
        ++ codes "    do {\n"
        ++ codes "#pragma loopbound 2\n"
        ++ codes "        for (int i = 0; i < 2; i += 1) {\n"
        ++ codes "            ;\n"
        ++ codes "        }\n"
        ++ codes "#pragma loopbound 1\n"
        ++ codes "        for (; 1; ) {\n"
        ++ codes "            break;\n"
        ++ codes "        }\n"
        ++ codes "    } while (0);\n"
        ++ codes "    if (r) {\n"
        ++ codes "        return 1;\n"
        ++ codes "    }\n"
        ++ codes "    return list[0];\n"
        ++ codes "}\n" }
{}

/// Expressions: parentheses stand only where the tree needs them, and round a unary operand that is itself unary.
pub fn worked_expressions()
    ensures left { worked_expr_text (Bin op.Sub (Bin op.Sub a b) c) ≡ codes "a - b - c" }
    ensures right { worked_expr_text (Bin op.Sub a (Bin op.Sub b c)) ≡ codes "a - (b - c)" }
    ensures looser { worked_expr_text (Bin op.Mul (Bin op.Add a b) c) ≡ codes "(a + b) * c" }
    ensures tighter { worked_expr_text (Bin op.Add a (Bin op.Mul b c)) ≡ codes "a + b * c" }
    ensures minus { worked_expr_text (Un un.Minus (Un un.Minus a)) ≡ codes "-(-a)" }
    ensures other { worked_expr_text (Un un.Not (Un un.Flip a)) ≡ codes "!(~a)" }
    ensures subtracted { worked_expr_text (Bin op.Sub a (Un un.Minus b)) ≡ codes "a - -b" }
    ensures cast { worked_expr_text (Un un.Minus (Cast ty.Unsigned (Un un.Plus a))) ≡ codes "-(unsigned)+a" }
    ensures twice { worked_expr_text (Cast ty.Int (Cast ty.Unsigned a)) ≡ codes "(int)(unsigned)a" }
    ensures sum { worked_expr_text (Cast ty.Int (Bin op.Add a b)) ≡ codes "(int)(a + b)" }
    ensures chain { worked_expr_text (Cond a b (Cond b c a)) ≡ codes "a ? b : b ? c : a" }
    ensures middle { worked_expr_text (Cond a (Cond b c a) c) ≡ codes "a ? b ? c : a : c" }
    ensures condition { worked_expr_text (Cond (Cond a b c) b c) ≡ codes "(a ? b : c) ? b : c" }
    ensures suffix { worked_expr_text (Bin op.Shl (Num ty.Unsigned 1) a) ≡ codes "1u << a" }
{}
