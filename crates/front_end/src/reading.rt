//! From a text to its program.

ghost use Rattle.std.specs.Prelude.{◌≡◌, ◌≤◌, List, ℕ, All, length, option_map, IfOk, IfErr};
ghost use Rattle.c_tree.specs.declared.token.Token.{Token};
ghost use Rattle.c_tree.specs.declared.unit.Unit.{Unit as Tree};
ghost use Rattle.c_tree.specs.Tokens.Lexing.{Lexes};
ghost use Rattle.c_tree.specs.Checking.Checked.{IsSpelled};
ghost use Rattle.c_parse.specs.Lexeme.{IsWithin};
ghost use Rattle.c_faults.specs.Verdicts.{refusal_of};
ghost use Rattle.c_check.specs.Answers.{fault_and_place};
ghost use Rattle.front_end.specs.Accepted.{IsRead, IsTextOf};
ghost use Rattle.front_end.specs.Refusing.{RefusesText};
ghost use Rattle.front_end.specs.Halts.{IsStop, token_stop, parse_stop};

use crate::refusal::ProgramRefusal;
use crate::stop::Stop;
use c_check::{CheckFault, check};
use c_faults::{CheckRefusal, Fault};
use c_parse::{ParseFault, ordered_tokens_are_within, parse};
use c_token::{TokenFault, tokens};
use c_tree::{Program, Token, Unit};
use std::alloc::Global;

/// The program of a text, with this entry.
pub(crate) fn program_of(
    alloc: Global,
    text: &[u8],
    entry: &str,
) -> Result<Program, Stop<ProgramRefusal>>
    requires { length text.now ≤ 1048576 }
    ensures program { IfOk result (IsTextOf text.now entry.now) }
    ensures stopped { IfErr result (λ stop. IsStop stop (λ r. RefusesText r text.now entry.now)) }
{
    let unit = unit_of(alloc, text)?;
    match check(alloc, unit, entry) {
        Ok(program) => Ok(program),
        Err(fault) => match first_fault(fault) {
            Some(refusal) => Err(Stop::Refused(ProgramRefusal::Check(refusal))),
            None => Err(Stop::NoMemory),
        },
    }
}

// The fault of a unit; want of memory is none.
fn first_fault(fault: CheckFault) -> Option<CheckRefusal>
    ensures { option_map refusal_of result ≡ fault_and_place fault }
{
    let (fault, at) = match fault {
        CheckFault::NoName { at } => (Fault::NoName, at),
        CheckFault::Twice { at } => (Fault::Twice, at),
        CheckFault::Kind { at } => (Fault::Kind, at),
        CheckFault::Arity { at } => (Fault::Arity, at),
        CheckFault::NoValue { at } => (Fault::NoValue, at),
        CheckFault::Const { at } => (Fault::Const, at),
        CheckFault::Stray { at } => (Fault::Stray, at),
        CheckFault::NoBound { at } => (Fault::NoBound, at),
        CheckFault::BoundRange { at } => (Fault::BoundRange, at),
        CheckFault::NoEntry { at } => (Fault::NoEntry, at),
        CheckFault::LaterCall { at } => (Fault::LaterCall, at),
        CheckFault::ArrayLength { at } => (Fault::ArrayLength, at),
        CheckFault::Inputs { at } => (Fault::Inputs, at),
        CheckFault::NoInit { at } => (Fault::NoInit, at),
        CheckFault::Span { at } => (Fault::Span, at),
        CheckFault::NoMemory => return None,
    };
    Some(CheckRefusal { fault, at })
}

// The unit of a text.
fn unit_of(alloc: Global, text: &[u8]) -> Result<Unit, Stop<ProgramRefusal>>
    requires { length text.now ≤ 1048576 }
    ensures read { IfOk result (IsRead text.now) }
    ensures spelled { IfOk result IsSpelled }
    ensures stopped { (entry : List ℕ) → IfErr result (λ stop. IsStop stop (λ r. RefusesText r text.now entry)) }
{
    let tokens = tokens_of(alloc, text)?;
    match parse(alloc, text, &tokens) {
        Ok(unit) => Ok(unit),
        Err(fault) => Err(parse_stop(fault)),
    }
}

fn parse_stop(fault: ParseFault) -> Stop<ProgramRefusal>
    ensures { result ≡ parse_stop fault }
{
    match fault {
        ParseFault::Syntax { at } => Stop::Refused(ProgramRefusal::Syntax { at }),
        ParseFault::Depth { at } => Stop::Refused(ProgramRefusal::Depth { at }),
        ParseFault::NoMemory => Stop::NoMemory,
    }
}

// The tokens of a text.
fn tokens_of(alloc: Global, text: &[u8]) -> Result<Vec<Token>, Stop<ProgramRefusal>>
    requires { length text.now ≤ 1048576 }
    ensures lexed { IfOk result (λ v. Lexes text.now v.items) }
    ensures within { IfOk result (λ v. All (IsWithin text.now) v.items) }
    ensures stopped { (entry : List ℕ) → IfErr result (λ stop. IsStop stop (λ r. RefusesText r text.now entry)) }
{
    ordered_tokens_are_within();
    match tokens(alloc, text) {
        Ok(tokens) => Ok(tokens),
        Err(fault) => Err(token_stop(fault)),
    }
}

fn token_stop(fault: TokenFault) -> Stop<ProgramRefusal>
    ensures { result ≡ token_stop fault }
{
    match fault {
        TokenFault::Byte { at } => Stop::Refused(ProgramRefusal::Byte { at }),
        TokenFault::Comment { at } => Stop::Refused(ProgramRefusal::Comment { at }),
        TokenFault::Number { at } => Stop::Refused(ProgramRefusal::Number { at }),
        TokenFault::Directive { at } => Stop::Refused(ProgramRefusal::Directive { at }),
        TokenFault::NoMemory => Stop::NoMemory,
    }
}
