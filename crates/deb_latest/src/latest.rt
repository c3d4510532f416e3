//! Finds the paragraphs with the latest versions.

ghost use Rattle.std.specs.Prelude.{◌≡◌, ◌+◌, ◌++◌, ◌∷◌, ℕ, List, [], Some, IfOk, IfErr, OnOk, length};
ghost use Rattle.std.specs.Option.{option_map};
ghost use Rattle.deb_base.specs.Bodies.{file_limit};
ghost use Rattle.deb_base.specs.Devices.{read_failures_after, ReadFaultIffFailed};
ghost use Rattle.deb_base.specs.Faults.{IsReadersFault};
ghost use Rattle.deb_base.specs.Reading.{TakesNoMore};
ghost use Rattle.deb_control.specs.Calls.{IfRefused};
ghost use Rattle.deb_control.specs.Checking.{IsRefusalOfDocument};
ghost use Rattle.deb_control.specs.Documents.{Meaning, refusal_of};
ghost use Rattle.deb_latest.specs.Bests.{is_before_kept};
ghost use Rattle.deb_latest.specs.Entries.{doc_of};
ghost use Rattle.deb_latest.specs.Reads.{HasEntries, HasRead, IsEntry, IsKeyOf, ReadsFile};
ghost use Rattle.deb_latest.specs.Requests.{Asked, asked_of, latest_of};
ghost use Rattle.deb_latest.specs.Winning.{Entry};
ghost use Rattle.deb_version.specs.Version.{meaning_of};

use crate::bests::{Bests, numbers, put};
use crate::kind::Kind;
use crate::request::{By, Request};
use crate::words::Words;
use deb_base::{Fault, Source};
use deb_control::Checked;
use deb_version::Version;
use indexmap::IndexMap;
use std::alloc::{AllocError, Global};

/// Of each package of some files the paragraph with the latest version so far.
///
/// It keeps of each package what tells it from others, the key of its latest version, and the
/// number of the paragraph that has it.
#[derive(Drop)]
pub struct Latest {
    alloc: Global,
    kind: Kind,
    by: By,
    /// The key of the version before which all are that are considered, if there is one.
    limit: Option<Vec<u8>>,
    bests: Bests,
    /// How many paragraphs were read.
    count: u64,
    /// Room for what tells a package from others.
    key: Vec<u8>,
}

impl Latest {
    ghost use Rattle.deb_latest.specs.Reads.{kind_of};

    /// Returns that of no file.
    ///
    /// # Errors
    ///
    /// Out of memory.
    pub fn new(alloc: Global, request: &Request<'_>) -> Result<Latest, AllocError>
        ensures read { IfOk result (HasRead (asked_of request.now) []) }
        ensures kind { IfOk result (λ latest. kind_of latest ≡ request.now.kind) }
    {
        let limit = match &request.before {
            None => None,
            Some(version) => Some(key_of(alloc, version)?),
        };
        Ok(Latest {
            alloc,
            kind: request.kind,
            by: request.by,
            limit,
            bests: IndexMap::new(alloc),
            count: 0,
            key: Vec::new(alloc),
        })
    }

    /// Reads one more file, whose paragraphs follow those of the files before.
    ///
    /// One paragraph at a time is held in memory. At most 4,295,032,831 bytes are read: a file of
    /// the most bytes, and one piece. Promises about the text of the file hold for a reader whose
    /// bytes are known.
    ///
    /// # Errors
    ///
    /// - `Fault::Refused`: the file isn't accepted. This is its first refusal, with a code from 1
    ///   to 21 and a line of the file, counted from 1.
    /// - `Fault::Memory`: a growth of memory was refused, or there are 2^64 paragraphs.
    /// - `Fault::Read`: a read failed in this call.
    pub fn read<R: Source>(self, reader: &mut R) -> Result<Latest, Fault>
        ensures ok { (asked : Asked) (before : Meaning) (text : List ℕ)
            → HasRead asked before self → R.left reader.old ≡ Some text
            → IfOk result (ReadsFile asked before text) }
        ensures refused { (text : List ℕ) → R.left reader.old ≡ Some text
            → IfRefused result (λ refusal. refusal_of (doc_of (kind_of self)) text
            ≡ Some refusal) }
        ensures reads_at_most { (text : List ℕ) → R.left reader.old ≡ Some text
            → TakesNoMore text file_limit (R.left reader.new) }

        // Whether or not the reader's bytes are known.
        ensures kind { IfOk result (λ latest. kind_of latest ≡ kind_of self) }
        ensures fault { IfErr result (λ fault. IsReadersFault fault IsRefusalOfDocument) }
        ensures counts_read_failure { R.failures reader.new ≡ read_failures_after
            (R.failures reader.old) result }
        ensures fault_iff_read_failed { ReadFaultIffFailed (R.failures reader.old)
            (R.failures reader.new) result }
    {
        let mut latest = self;
        latest.read_on(reader)?;
        Ok(latest)
    }

    /// Returns the numbers of the paragraphs with the latest versions, in ascending order. The
    /// first paragraph of the first file has the number 1, and those of later files follow.
    ///
    /// # Errors
    ///
    /// Out of memory.
    pub fn winners(&self) -> Result<Vec<u64>, AllocError>
        ensures { (asked : Asked) (meaning : Meaning) → HasRead asked meaning self.now
            → IfOk result (λ numbers. numbers.items ≡ latest_of asked meaning) }
    {
        numbers(self.alloc, &self.bests)
    }

    /// Returns how many paragraphs were read.
    pub fn count(&self) -> u64
        ensures { (asked : Asked) (meaning : Meaning) → HasRead asked meaning self.now
            → result ≡ length meaning }
    {
        self.count
    }

    /// Reads one more file.
    fn read_on<R: Source>(&mut self, reader: &mut R) -> Result<(), Fault>
        ensures ok { (asked : Asked) (before : Meaning) (text : List ℕ)
            → HasRead asked before self.old → R.left reader.old ≡ Some text
            → OnOk result (ReadsFile asked before text self.new) }
        ensures refused { (text : List ℕ) → R.left reader.old ≡ Some text
            → IfRefused result (λ refusal. refusal_of (doc_of (kind_of self.old)) text
            ≡ Some refusal) }
        ensures reads_at_most { (text : List ℕ) → R.left reader.old ≡ Some text
            → TakesNoMore text file_limit (R.left reader.new) }
        ensures kind { kind_of self.new ≡ kind_of self.old }
        ensures fault { IfErr result (λ fault. IsReadersFault fault IsRefusalOfDocument) }
        ensures counts_read_failure { R.failures reader.new ≡ read_failures_after
            (R.failures reader.old) result }
        ensures fault_iff_read_failed { ReadFaultIffFailed (R.failures reader.old)
            (R.failures reader.new) result }
    {
        let mut checked = Checked::new(self.alloc, self.kind.doc());
        let mut words = Words::new(self.alloc);
        for count in 0..u64::MAX {
            if !checked.advance(&mut words, reader)? {
                return Ok(());
            }
            self.add(&words)?;
        }
        // No file has so many paragraphs.
        unreachable!()
    }

    /// Adds one more paragraph.
    fn add(&mut self, words: &Words) -> Result<(), AllocError>
        ensures entries { (asked : Asked) (entries : List Entry) (e : Entry)
            → HasEntries asked entries self.old
            → IsEntry asked.by words.now (length entries + 1) e
            → OnOk result (HasEntries asked (entries ++ e ∷ []) self.new) }
        ensures kind { kind_of self.new ≡ kind_of self.old }
    {
        if self.count == u64::MAX {
            return Err(AllocError);
        }
        self.count += 1;
        if !is_before(&words.version, &self.limit) {
            return Ok(());
        }
        words.key_into(self.by, &mut self.key)?;
        put(
            self.alloc,
            &mut self.bests,
            &self.key,
            &words.version,
            self.count,
        )
    }
}

/// Returns the key of a version.
fn key_of(alloc: Global, version: &Version<'_>) -> Result<Vec<u8>, AllocError>
    ensures { IfOk result (λ key. IsKeyOf key (meaning_of version.now)) }
{
    let mut key = Vec::new(alloc);
    version.key_into(&mut key)?;
    Ok(key)
}

/// Returns whether a version is earlier than the limit, if there is one.
fn is_before(version: &[u8], limit: &Option<Vec<u8>>) -> bool
    ensures { result ≡ is_before_kept (option_map (λ key. key.items) limit.now) version.now }
{
    match limit {
        None => true,
        Some(limit) => limit.as_slice().cmp(version).is_gt(),
    }
}
