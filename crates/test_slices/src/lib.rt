//! Tests of slices and of sums, by public calls alone: the bytes of a worked file, each changed byte of it, each front, devices that
//! fail, refused memory, the command lines of the programs and the files that they make and list, and random reads whose slices, merged,
//! are one run; dumps at fault in each field, and bytes read behind others. Nothing stands on this crate. Random splits of
//! random reads are tried by bench/merge.py.
#![tactic(auto)]

#[cfg(test)]
mod cuts;
#[cfg(test)]
mod devices;
#[cfg(test)]
mod failing;
#[cfg(test)]
mod files;
#[cfg(test)]
mod foreign;
#[cfg(test)]
mod judged;
#[cfg(test)]
mod made;
#[cfg(test)]
mod others;
#[cfg(test)]
mod refused;
#[cfg(test)]
mod rooms;
#[cfg(test)]
mod sums;
#[cfg(test)]
mod texts;
#[cfg(test)]
mod wholes;
#[cfg(test)]
mod words;
