//! Tests of `gix_index` that rows of a table can't express: values that are borrowed, changed and cloned, and files
//! that are read again. The tables of the row programs test what bytes and files are decoded to, and what is written
//! and found.
#![tactic(auto)]

#[cfg(test)]
mod access;
#[cfg(test)]
mod disk;
#[cfg(test)]
mod edit;
#[cfg(test)]
mod entry;
#[cfg(test)]
mod extension;
#[cfg(test)]
mod faults;
#[cfg(test)]
mod file;
#[cfg(test)]
mod hash;
#[cfg(test)]
mod lines;
#[cfg(test)]
mod write;
