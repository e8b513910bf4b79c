//! Tests of what a platform in memory does, and a cell in an index of a TPM; and of the certificates of a ledger: their lists, and
//! their lines.
#![tactic(auto)]

#[cfg(test)]
mod entry_lines;
#[cfg(test)]
mod memory;
#[cfg(test)]
mod ordered_lists;
#[cfg(test)]
mod script;
#[cfg(test)]
mod tpm_cells;
