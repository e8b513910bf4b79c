//! Tests of the crates that pages and scripts are made of: objects in memory, hex text, keys, records, tables of volumes, commands
//! to a TPM, and the lines of a script.
#![tactic(auto)]

#[cfg(test)]
mod drawn_keys;
#[cfg(test)]
mod hex_texts;
#[cfg(test)]
mod memory_objects;
#[cfg(test)]
mod node_records;
#[cfg(test)]
mod page_digests;
#[cfg(test)]
mod root_records;
#[cfg(test)]
mod script_lines;
#[cfg(test)]
mod sealed_pages;
#[cfg(test)]
mod tpm_commands;
#[cfg(test)]
mod volume_tables;
