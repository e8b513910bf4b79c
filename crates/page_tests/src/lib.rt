//! Tests of pages: traces, what is fetched from pages and appended to them, also of pages that
//! somebody changed, and cached nodes.
#![tactic(auto)]

#[cfg(test)]
mod cached_nodes;
#[cfg(test)]
mod changed_pages;
#[cfg(test)]
mod reached_addresses;
#[cfg(test)]
mod stored_pages;
