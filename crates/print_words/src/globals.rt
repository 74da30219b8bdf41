//! The lines of globals, each written at the end of a text.

ghost use Rattle.std.specs.Prelude.{◌≡◌, ◌++◌, OnOk, codes, flat_map};
ghost use Rattle.print_laws.specs.PrintedExpressions.{value_text, comma_list};
ghost use Rattle.print_laws.specs.PrintedStatements.{list_text};
ghost use Rattle.print_laws.specs.Printed.{outer_text, initial_text, global_text};

use crate::parts::{push, push_declared, push_value};
use c_tree::{Global, NoMemory, Ty};

/// The line of a global: `extern` where it is one, its declaration and its initialiser (C11 6.7).
#[tactic(auto, unfolding(print_laws::specs::Printed::global_text, print_laws::specs::Printed::outer_text))]
pub fn push_global(text: &mut Vec<u8>, global: &Global) -> Result<(), NoMemory>
    ensures { OnOk result (text.new.items ≡ text.old.items ++ global_text global.now) }
{
    if global.outer {
        push(text, b"extern ")?;
    }
    push_declared(text, global.ty, global.name.as_slice(), global.length)?;
    push_initial(text, global.ty, global.length, global.values.as_slice())?;
    push(text, b";\n")
}

// The initialiser of a global of this type and length.
#[tactic(auto, unfolding(print_laws::specs::Printed::initial_text, print_laws::specs::PrintedStatements::list_text, print_laws::specs::PrintedExpressions::comma_list))]
fn push_initial(
    text: &mut Vec<u8>,
    ty: Ty,
    length: Option<u32>,
    values: &[i64],
) -> Result<(), NoMemory>
    ensures { OnOk result (text.new.items ≡ text.old.items ++ initial_text ty length values.now) }
{
    let Some((first, rest)) = values.split_first() else {
        return Ok(());
    };
    push(text, b" = ")?;
    match length {
        None => push_value(text, ty, *first),
        Some(_) => {
            push(text, b"{")?;
            push_value(text, ty, *first)?;
            push_more_values(text, ty, rest)?;
            push(text, b"}")
        }
    }
}

fn push_more_values(text: &mut Vec<u8>, ty: Ty, values: &[i64]) -> Result<(), NoMemory>
    ensures { OnOk result (text.new.items ≡ text.old.items ++ flat_map (λ z. codes ", " ++ value_text ty z) values.now) }
{
    for value in values {
        push(text, b", ")?;
        push_value(text, ty, *value)?;
    }
    Ok(())
}
