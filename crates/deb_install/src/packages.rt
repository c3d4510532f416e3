//! The packages of a file, with what each of them needs and excludes.

ghost use Rattle.std.specs.Prelude.{◌≡◌, ℕ, List, Some, IfOk, IfErr};
ghost use Rattle.deb_base.specs.Bodies.{file_limit};
ghost use Rattle.deb_base.specs.Devices.{read_failures_after, ReadFaultIffFailed};
ghost use Rattle.deb_base.specs.Faults.{IsReadersFault};
ghost use Rattle.deb_base.specs.Reading.{TakesNoMore};
ghost use Rattle.deb_control.specs.Calls.{IfRefused};
ghost use Rattle.deb_control.specs.Checking.{IsRefusalOfDocument};
ghost use Rattle.deb_control.specs.Documents.{refusal_of};
ghost use Rattle.deb_index.specs.Members.{doc_of};
ghost use Rattle.deb_install.specs.ReadPackages.{HoldsFile};

use crate::kept::{KeptMember, KeptMembers};
use deb_base::{Fault, Source};
use deb_index::{Index, Members};
use std::alloc::Global;

/// The packages of a file, with what each of them needs and excludes.
#[derive(Drop)]
pub struct Packages {
    pub(crate) index: Index,
    pub(crate) kept: Vec<KeptMember>,
}

impl Packages {
    /// Reads an index, or the installed packages of a status file.
    ///
    /// At most 4,295,032,831 bytes are read: a file of the most bytes, and one piece. Promises
    /// about the text of the file hold for a reader whose bytes are known.
    ///
    /// # Errors
    ///
    /// - `Fault::Refused`: the file isn't accepted. This is its first refusal, with a code from 1
    ///   to 21 and a line of the file, counted from 1.
    /// - `Fault::Read`: a read failed in this call.
    /// - `Fault::Memory`: a growth of memory was refused.
    pub fn read<R: Source>(
        alloc: Global,
        members: Members,
        reader: &mut R,
    ) -> Result<Packages, Fault>
        ensures ok { (text : List ℕ) → R.left reader.old ≡ Some text
            → IfOk result (HoldsFile members text) }
        ensures refused { (text : List ℕ) → R.left reader.old ≡ Some text
            → IfRefused result (λ refusal. refusal_of (doc_of members) text ≡ Some refusal) }
        ensures reads_at_most { (text : List ℕ) → R.left reader.old ≡ Some text
            → TakesNoMore text file_limit (R.left reader.new) }

        // Whether or not the reader's bytes are known.
        ensures fault { IfErr result (λ fault. IsReadersFault fault IsRefusalOfDocument) }
        ensures counts_read_failure { R.failures reader.new ≡ read_failures_after
            (R.failures reader.old) result }
        ensures fault_iff_read_failed { ReadFaultIffFailed (R.failures reader.old)
            (R.failures reader.new) result }
    {
        let mut kept = KeptMembers::new(alloc);
        let index = Index::read_members(alloc, reader, members, &mut kept)?;
        Ok(Packages {
            index,
            kept: kept.into_members(),
        })
    }
}
