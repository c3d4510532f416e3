//! Tests of the libraries that answer queries over an index, by their public functions, in the way
//! of `deb_file_tests`.
#![tactic(auto)]

#[cfg(test)]
mod files;
#[cfg(test)]
mod index;
#[cfg(test)]
mod unmet;
