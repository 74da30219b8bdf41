//! Why nothing is asked of a text, or what was asked does not come.

use c_parse::ParseFault;
use c_token::TokenFault;
use case_lines::CaseFault;
use std::alloc::AllocError;

/// Why nothing is asked of a text, or what was asked does not come.
#[derive(Clone, Copy, Debug, PartialEq, Eq)]
pub enum CaseRefusal {
    /// The line is no case.
    Case(CaseFault),
    /// The text is longer than the tool reads.
    Length,
    /// The text has no tokens.
    Tokens(TokenFault),
    /// The tokens have no tree.
    Tree(ParseFault),
}

impl From<AllocError> for CaseRefusal {
    fn from(_error: AllocError) -> CaseRefusal {
        CaseRefusal::Case(CaseFault::NoMemory)
    }
}

impl From<CaseFault> for CaseRefusal {
    fn from(fault: CaseFault) -> CaseRefusal {
        CaseRefusal::Case(fault)
    }
}

impl From<TokenFault> for CaseRefusal {
    fn from(fault: TokenFault) -> CaseRefusal {
        CaseRefusal::Tokens(fault)
    }
}

impl From<ParseFault> for CaseRefusal {
    fn from(fault: ParseFault) -> CaseRefusal {
        CaseRefusal::Tree(fault)
    }
}
