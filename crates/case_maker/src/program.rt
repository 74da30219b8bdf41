//! The program of a case.

ghost use Rattle.std.specs.Prelude.{◌≡◌, ◌*◌, ◌++◌, ◌≤◌, length, IfOk, OnOk};
ghost use Rattle.std.specs.List.{flat_map, sum_by};
ghost use Rattle.case_maker.specs.Draws.{draw_state};
ghost use Rattle.case_maker.specs.Segments.{segments, segment_blocks, case_blocks};
ghost use Rattle.case_maker.specs.Lines.{joined_lines, segment_lines, program_text};

use crate::draws::Draws;
use crate::lines::{push_bound, push_for, push_if, push_if_else, push_line};
use crate::segment::Segment;
use std::alloc::{AllocError, Global};

/// The next segments, as many as `size` says.
pub(crate) fn draw_segments(
    alloc: Global,
    draws: &mut Draws,
    size: u32,
) -> Result<Vec<Segment>, AllocError>
    ensures segments { IfOk result (λ drawn. drawn.items ≡ segments draws.old.state size) }
    ensures state { OnOk result (draws.new.state ≡ draw_state draws.old.state (3 * size)) }
{
    let mut segments = Vec::new(alloc);
    for _number in 0..size {
        segments.push(Segment::drawn(draws))?;
    }
    Ok(segments)
}

/// The number of blocks of `main`: one of the head's declarations, those of the segments, and one of the `return`.
pub(crate) fn count_blocks(segments: &[Segment]) -> u32
    requires { length segments.now ≤ 64 }
    ensures { result ≡ case_blocks segments.now }
{
    1 + count_inner(segments) + 1
}

fn count_inner(segments: &[Segment]) -> u32
    requires { length segments.now ≤ 64 }
    ensures { result ≡ sum_by segment_blocks segments.now }
{
    segments.iter().map(|segment| segment.blocks()).sum()
}

/// The text of the program with these segments.
pub(crate) fn program(alloc: Global, segments: &[Segment]) -> Result<Vec<u8>, AllocError>
    ensures { IfOk result (λ text. text.items ≡ program_text segments.now) }
{
    let mut text = Vec::new(alloc);
    push_line(&mut text, b"int main(unsigned a, unsigned b) {")?;
    push_line(&mut text, b"    unsigned r = 0u;")?;
    push_line(&mut text, b"    unsigned i = 0u;")?;
    push_segments(&mut text, segments)?;
    push_line(&mut text, b"    return 0;")?;
    push_line(&mut text, b"}")?;
    Ok(text)
}

fn push_segments(text: &mut Vec<u8>, segments: &[Segment]) -> Result<(), AllocError>
    ensures { OnOk result (text.new.items ≡ text.old.items ++ joined_lines (flat_map segment_lines segments.now)) }
{
    for segment in segments {
        push_segment(text, *segment)?;
    }
    Ok(())
}

fn push_segment(text: &mut Vec<u8>, segment: Segment) -> Result<(), AllocError>
    ensures { OnOk result (text.new.items ≡ text.old.items ++ joined_lines (segment_lines segment)) }
{
    match segment {
        Segment::If(variable, constant) => push_if(text, variable, constant),
        Segment::IfElse(variable, constant) => push_if_else(text, variable, constant),
        Segment::For(variable, bound) => {
            push_bound(text, bound)?;
            push_for(text, variable, bound)
        }
    }
}
