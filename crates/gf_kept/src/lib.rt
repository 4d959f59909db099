//! The visible versions of the objects of a history, kept while the history grows. What is said of
//! an object depends on its operations alone, so one more operation leaves those of all others.
//!
//! - [`KeptVersions`]: the visible versions by object, for those who keep a history beside them.
//! - [`KeptSite`]: a site with these, seen as the site.
//! - [`the_operations_of_an_object_say_all_of_it`]: the law that allows it.
#![tactic(auto)]

mod found;
mod kept;
mod kept_site;
mod laws;

pub use kept::KeptVersions;
pub use kept_site::KeptSite;
pub use laws::the_operations_of_an_object_say_all_of_it;
