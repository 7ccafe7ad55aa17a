//! Binary search in an ordered sequence, and the comparison of bytes with a prefix.
//!
//! A caller implements [`ordered::Ordered`] for its sequence: the length, and the comparison of the element at an index
//! with the target. The results of a search are guaranteed if these comparisons rise: first all elements that are less,
//! then all that are equal, then all that are greater. For other sequences a result is still in range, and an element
//! that is reported as equal compared equal.
#![tactic(auto)]

pub mod ordered;
pub mod prefix;
