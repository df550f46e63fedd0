//! Why an operation gives no number.

/// Why an operation on two numbers gives none: the divisor is zero, or a signed quotient is one more than
/// the type's greatest number.
#[derive(Clone, Copy, Debug, PartialEq, Eq)]
pub enum NumFault {
    ByZero,
    Overflow,
}
