// The entries above the audit: each audits first, and then asks the accepted board what it is for.
#![tactic(auto)]

pub mod answering;
pub mod comparing;
pub mod listing;
pub mod watching;
pub mod writing;
