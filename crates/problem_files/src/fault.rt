use grounder::CountKind;
use pddl_parts::PddlFault;
use pddl_tokens::TextFault;
use thiserror::Error;

/// Why the texts of a domain and a problem have no ground problem: the first cause in this order.
/// Want of memory is told as such, and never within another variant.
#[derive(Clone, Copy, Debug, PartialEq, Eq, Error)]
pub enum PddlFileFault {
    /// The domain's text is no row of words and lists.
    #[error("domain: {0}")]
    DomainText(TextFault),
    /// The words and lists of the domain's text are no domain.
    #[error("domain: {0}")]
    Domain(PddlFault),
    /// The problem's text is no row of words and lists.
    #[error("problem: {0}")]
    ProblemText(TextFault),
    /// The words and lists of the problem's text are no problem of this domain.
    #[error("problem: {0}")]
    Problem(PddlFault),
    /// The first kind whose count passes its limit, with the count, or 2^128 - 1 where it is
    /// greater.
    #[error("problem: {count} of a kind are too many")]
    TooMany { kind: CountKind, count: u128 },
    /// Memory was refused; it says nothing of the texts.
    #[error("memory was refused")]
    NoMemory,
}
