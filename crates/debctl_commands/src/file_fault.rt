//! A fault of one of the files that a job opens by their paths, and how it is reported.

ghost use Rattle.std.specs.Prelude.{◌≡◌, IfErr};
ghost use Rattle.deb_base.specs.Devices.{write_failures_after, Puts};
ghost use Rattle.debctl_commands.specs.FileFaults.{role_among, role_before, role_line, role_words};
ghost use Rattle.debctl_commands.specs.FileFaults.{at_role, ReportsRole};

use crate::reporting::{FAULT_STATUS, status_of};
use deb_base::{Fault, Sink, put_all, put_pieces};
use itoa::Buffer;

/// A file as the line of its refusal names it.
#[derive(Clone, Copy)]
pub enum Role {
    /// No file is named: the job has one, or an argument is refused.
    Unnamed,
    /// The index of `--unless-in`.
    Old,
    /// The only index of a job that also reads another file.
    First,
    /// That other file.
    Second,
    /// One of several files, by its place among them: 1 is the first.
    Numbered(u64),
}

/// A fault, and the file that it is of.
#[derive(Clone, Copy)]
pub struct FileFault {
    pub role: Role,
    pub fault: Fault,
}

/// A fault, and the place of the file that it is of among several: 1 is the first.
#[derive(Clone, Copy)]
pub struct PlaceFault {
    pub place: u64,
    pub fault: Fault,
}

impl FileFault {
    /// Returns a fault that is of no file.
    pub(crate) fn unnamed(fault: Fault) -> FileFault
        ensures { result ≡ record { role = Role.Unnamed; fault = fault } }
    {
        FileFault {
            role: Role::Unnamed,
            fault,
        }
    }
}

impl PlaceFault {
    /// Returns the fault with the role of its file, which is one of so many: if it is alone, this
    /// one.
    pub(crate) fn among(self, alone: Role, count: usize) -> FileFault
        ensures { result ≡ record
            { role = role_among alone count self.place; fault = self.fault } }
    {
        FileFault {
            role: role_among(alone, count, self.place),
            fault: self.fault,
        }
    }
}

/// The role of a file by its place among so many: if it is alone, this one.
pub(crate) fn role_among(alone: Role, count: usize, place: u64) -> Role
    ensures { result ≡ role_among alone count place }
{
    if count == 1 {
        alone
    } else {
        Role::Numbered(place)
    }
}

/// Returns an answer whose fault is of a file with this role.
pub(crate) fn at_role<T>(role: Role, answer: Result<T, Fault>) -> Result<T, FileFault>
    ensures { result ≡ at_role role answer }
{
    match answer {
        Ok(value) => Ok(value),
        Err(fault) => Err(FileFault { role, fault }),
    }
}

/// Writes the line of a fault of a file, and returns the status.
pub(crate) fn report_file_fault<E: Sink>(told: FileFault, err: &mut E) -> u8
    ensures { ReportsRole E.held E.failures err.old err.new told result }
{
    match put_role_line(told, err) {
        Ok(()) => status_of(&told.fault),
        Err(_) => FAULT_STATUS,
    }
}

/// Writes the line of a fault of a file.
#[tactic(auto, using(deb_base::proofs::Writes::puts))]
fn put_role_line<E: Sink>(told: FileFault, err: &mut E) -> Result<(), Fault>
    ensures written { Puts (E.held err.old) (E.held err.new) result (role_line told) }
    ensures fault { IfErr result (λ fault. fault ≡ Fault.Write) }
    ensures counts_failure { E.failures err.new ≡ write_failures_after (E.failures err.old) result }
{
    put_role_before(told, err)?;
    told.fault.write_line(err)
}

/// Writes the text before the line of a fault: the file that is refused.
fn put_role_before<E: Sink>(told: FileFault, err: &mut E) -> Result<(), Fault>
    ensures written { Puts (E.held err.old) (E.held err.new) result
        (role_before told.role told.fault) }
    ensures fault { IfErr result (λ fault. fault ≡ Fault.Write) }
    ensures counts_failure { E.failures err.new ≡ write_failures_after (E.failures err.old) result }
{
    match told.fault {
        Fault::Refused(_) => put_role(told.role, err),
        Fault::Memory | Fault::Read | Fault::Write => put_all(err, b""),
    }
}

/// Writes how the line of a refusal names the file.
fn put_role<E: Sink>(role: Role, err: &mut E) -> Result<(), Fault>
    ensures written { Puts (E.held err.old) (E.held err.new) result (role_words role) }
    ensures fault { IfErr result (λ fault. fault ≡ Fault.Write) }
    ensures counts_failure { E.failures err.new ≡ write_failures_after (E.failures err.old) result }
{
    match role {
        Role::Unnamed => put_all(err, b""),
        Role::Old => put_all(err, b"old: "),
        Role::First => put_all(err, b"first: "),
        Role::Second => put_all(err, b"second: "),
        Role::Numbered(place) => {
            let mut buffer = Buffer::new();
            put_pieces(err, &[b"index ", buffer.format(place).as_bytes(), b": "])
        }
    }
}
