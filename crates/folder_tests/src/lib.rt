//! Tests of the platform over the files of folders, with a double for those, and of the same over files in memory.
#![tactic(auto)]

#[cfg(test)]
mod calls;
#[cfg(test)]
mod files;
#[cfg(test)]
mod honest;
