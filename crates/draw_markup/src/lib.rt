//! Markup as it can be built: text in which each special character is escaped, and elements, each of which is closed.
//!
//! A value of [`markup::Markup`] is markup by its type, so who draws by these calls alone owes no proof of it. It has no group, so all
//! that is said of an element's groups is said of those that [`opening::Opening::whole_with`] is given ([`group::Group`]).
#![tactic(auto)]

pub mod group;
pub mod markup;
pub mod name;
pub mod opening;
pub mod words;
