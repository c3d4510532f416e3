//! A program that checks, normalises and compares files of Debian control data, finds the packages
//! of an index that meet a relation and the dependencies of a file that none meets, and compares
//! and sorts versions.
//!
//! ```text
//! $ printf 'vERSION: 01.0-0\npackage:hello\nArchitecture: amd64\n' | debctl normalise
//! Architecture: amd64
//! Package: hello
//! Version: 1.0
//! $ printf 'Package hello\n' | debctl check
//! line 1: 6 NoColon
//! ```
#![tactic(auto)]

use debctl_commands::run_program;
use std::process::ExitCode;

fn main(rt: HostRuntime) -> ExitCode {
    ExitCode::from(run_program(&rt))
}
