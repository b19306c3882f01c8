//! Tests of disks that are files, of the racks that they are taken from, and of journals on three disks: a replacement that is stopped, that fails and that crashes at each call, the formats that are read, and readings that mend nothing.
#![tactic(auto)]

#[cfg(test)]
mod calls;
#[cfg(test)]
mod files;
#[cfg(test)]
mod folders;
#[cfg(test)]
mod formats;
#[cfg(test)]
mod journals;
#[cfg(test)]
mod machine;
#[cfg(test)]
mod racks;
#[cfg(test)]
mod readings;
#[cfg(test)]
mod replaced_files;
#[cfg(test)]
mod replacements;
#[cfg(test)]
mod served;
#[cfg(test)]
mod three;
#[cfg(test)]
mod told;
