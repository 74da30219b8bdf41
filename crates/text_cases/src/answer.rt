//! What is told of a case.

use crate::reading::{tokens_of, unit_of};
use crate::refusal::CaseRefusal;
use crate::shown_tokens::shown_tokens;
use crate::shown_unit::shown;
use c_parse::ParseFault;
use c_token::TokenFault;
use case_lines::{CaseFault, bytes_of};
use std::alloc::{AllocError, Global};

/// The answer to a case on its line, or why the line is no case.
pub fn answer_to(alloc: Global, line: &str) -> Result<String, AllocError> {
    match asked(alloc, line) {
        Ok(answer) => Ok(answer),
        Err(refusal) => refused(alloc, refusal),
    }
}

fn asked(alloc: Global, line: &str) -> Result<String, CaseRefusal> {
    let (kind, part) = line.split_once(" ## ").ok_or(CaseFault::Form)?;
    let text = bytes_of(alloc, part)?;
    Ok(match kind {
        "tokens" => shown_tokens(alloc, &tokens_of(alloc, &text)?)?,
        "count" => format!(in alloc; "{}", tokens_of(alloc, &text)?.len())?,
        "tree" => shown(alloc, &unit_of(alloc, &text)?)?,
        "read" => was_read(alloc, &text)?,
        _ => return Err(CaseRefusal::Case(CaseFault::Form)),
    })
}

// Whether the text has a tree.
fn was_read(alloc: Global, text: &[u8]) -> Result<String, CaseRefusal> {
    let answer = match unit_of(alloc, text) {
        Ok(_) => "read",
        Err(CaseRefusal::Tree(ParseFault::Syntax { .. })) => "refused",
        Err(refusal) => return Err(refusal),
    };
    Ok(String::from_str(alloc, answer)?)
}

fn refused(alloc: Global, refusal: CaseRefusal) -> Result<String, AllocError> {
    match refusal {
        CaseRefusal::Tokens(TokenFault::Byte { at }) => format!(in alloc; "Byte at {at}"),
        CaseRefusal::Tokens(TokenFault::Comment { at }) => format!(in alloc; "Comment at {at}"),
        CaseRefusal::Tokens(TokenFault::Number { at }) => format!(in alloc; "Number at {at}"),
        CaseRefusal::Tokens(TokenFault::Directive { at }) => format!(in alloc; "Directive at {at}"),
        CaseRefusal::Tree(ParseFault::Syntax { at }) => format!(in alloc; "Syntax at {at}"),
        other => format!(in alloc; "{other:?}"),
    }
}
