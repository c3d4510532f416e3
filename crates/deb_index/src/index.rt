//! Indexes: reading the files of one, and the packages under a name. `query` answers queries.

ghost use Rattle.std.specs.Prelude.{◌≡◌, ◌-◌, ◌≤◌, ◌++◌, ◌∷◌, ℕ, List, [], Some, Err, IfOk, IfErr, IfSome, IsTrue, OnOk, length, map};
ghost use Rattle.std.specs.List.{slice_get};
ghost use Rattle.std.specs.Option.{option_map};
ghost use Rattle.deb_base.specs.Bodies.{file_limit};
ghost use Rattle.deb_base.specs.Devices.{read_failures_after, ReadFaultIffFailed};
ghost use Rattle.deb_base.specs.Faults.{IsReadersFault};
ghost use Rattle.deb_base.specs.Reading.{TakesNoMore};
ghost use Rattle.deb_control.specs.Calls.{IfRefused};
ghost use Rattle.deb_control.specs.CheckedStates.{passing_judged};
ghost use Rattle.deb_control.specs.Checking.{IsRefusalOfDocument};
ghost use Rattle.deb_control.specs.Documents.{refusal_of};
ghost use Rattle.deb_control.specs.Visiting.{VisitsValues};
ghost use Rattle.deb_relation.specs.Views.{alternative_of};
ghost use Rattle.deb_syntax.specs.Answers.{Seen};
ghost use Rattle.deb_index.specs.Crowds.{AreCrowds, AreMeeting};
ghost use Rattle.deb_index.specs.Files.{ListsAfter, StoresFile, file_of};
ghost use Rattle.deb_index.specs.FirstLines.{first_lines, line_at};
ghost use Rattle.deb_index.specs.Kept.{line_of, listed_of, spelling_of};
ghost use Rattle.deb_index.specs.Listing.{ListsAll};
ghost use Rattle.deb_index.specs.Maps.{numbers_under};
ghost use Rattle.deb_index.specs.Members.{KeepsGiven, KeepsMembers, ListsMembers, doc_of, member_lines, member_spellings};
ghost use Rattle.deb_index.specs.Named.{has_name, numbers_of, package_at, provides};
ghost use Rattle.deb_index.specs.PackageBuilder.{KeepsVisited};
ghost use Rattle.deb_index.specs.Stores.{IsStore, lines_in, listed_in, spellings_in};
ghost use Rattle.deb_index.specs.VersionSpellings.{spelling_at, version_body, version_spellings};

use crate::crowds::Crowds;
use crate::keeper::{Keeper, NoKeeper};
use crate::members::Members;
use crate::names::Names;
use crate::offer::Packages;
use crate::package::Package;
use crate::paragraph::PackageBuilder;
use crate::store::Store;
use deb_base::{Fault, Source};
use deb_control::{Checked, CheckedView};
use deb_field::Doc;
use deb_relation::Alternative;
use std::alloc::{AllocError, Global};

/// The packages that a file lists, in file order.
///
/// It owns what it keeps of each package: the name, the version, the architecture, Multi-Arch, what
/// it provides, the line at which its paragraph starts, and the text by which that spells the
/// version. It also keeps which packages have or provide a name, and of a name that many have or
/// provide the versions in order, so that they are found without going over the list.
#[derive(Debug, Drop)]
pub struct Index {
    store: Store,
    named: Names,
    provided: Names,
    crowds: Crowds,
    ghost kept: { IsStore store },
    ghost named_are: { (name : List ℕ) → numbers_under named name
        ≡ numbers_of (has_name name) (listed_in store) },
    ghost provided_are: { (name : List ℕ) → numbers_under provided name
        ≡ numbers_of (provides name) (listed_in store) },
    ghost crowds_are: { AreCrowds store crowds },
}

impl Index {
    ghost use Rattle.deb_index.specs.Indexes.{counts_of, lines_of, number_in, packages_of};
    ghost use Rattle.deb_index.specs.Indexes.{spellings_of};

    /// Returns the index of no file, which lists no package.
    ///
    /// # Errors
    ///
    /// Out of memory.
    pub fn new(alloc: Global) -> Result<Index, AllocError>
        ensures packages { IfOk result (λ index. packages_of index ≡ []) }
        ensures lines { IfOk result (λ index. lines_of index ≡ []) }
        ensures spellings { IfOk result (λ index. spellings_of index ≡ []) }
        ensures counts { IfOk result (λ index. counts_of index ≡ []) }
    {
        Index::of(alloc, Store::new(alloc))
    }

    /// Reads a file as an index of packages (Debian Policy 5.1, 5.3 and 5.6).
    ///
    /// One paragraph at a time is held in memory. At most 4,295,032,831 bytes are read: a file of
    /// the most bytes, and one piece. Promises about the text of the file hold for a reader whose
    /// bytes are known.
    ///
    /// # Errors
    ///
    /// - `Fault::Refused`: the file isn't accepted. This is its first refusal, with a code from 1
    ///   to 21 and a line of the file, counted from 1.
    /// - `Fault::Memory`: a growth of memory was refused.
    /// - `Fault::Read`: a read failed in this call.
    pub fn read<R: Source>(alloc: Global, reader: &mut R) -> Result<Index, Fault>
        ensures ok { (text : List ℕ) → R.left reader.old ≡ Some text
            → IfOk result (λ index. ListsAll text (packages_of index)) }
        ensures lines { (text : List ℕ) → R.left reader.old ≡ Some text
            → IfOk result (λ index. lines_of index ≡ first_lines text) }
        ensures spellings { (text : List ℕ) → R.left reader.old ≡ Some text
            → IfOk result (λ index. spellings_of index ≡ version_spellings text) }
        ensures counts { IfOk result
            (λ index. counts_of index ≡ length (packages_of index) ∷ []) }
        ensures refused { (text : List ℕ) → R.left reader.old ≡ Some text
            → IfRefused result (λ refusal. refusal_of Doc.Packages text ≡ Some refusal) }
        ensures reads_at_most { (text : List ℕ) → R.left reader.old ≡ Some text
            → TakesNoMore text file_limit (R.left reader.new) }

        // Whether or not the reader's bytes are known.
        ensures fault { IfErr result (λ fault. IsReadersFault fault IsRefusalOfDocument) }
        ensures counts_read_failure { R.failures reader.new ≡ read_failures_after
            (R.failures reader.old) result }
        ensures fault_iff_read_failed { ReadFaultIffFailed (R.failures reader.old)
            (R.failures reader.new) result }
    {
        Index::read_members(alloc, reader, Members::All, &mut NoKeeper)
    }

    /// Reads a file as an index of these of its paragraphs. `keeper` is given each paragraph after
    /// it has passed, in file order: these by `keep`, and the others by `pass_over`.
    ///
    /// # Errors
    ///
    /// Those of [`Index::read`], for a file of the kind; `Fault::Memory` also where the keeper ran
    /// out of memory.
    pub fn read_members<R: Source, K: Keeper>(
        alloc: Global,
        reader: &mut R,
        members: Members,
        keeper: &mut K,
    ) -> Result<Index, Fault>
        ensures ok { (text : List ℕ) → R.left reader.old ≡ Some text
            → IfOk result (λ index. ListsMembers members text (packages_of index)) }
        ensures lines { (text : List ℕ) → R.left reader.old ≡ Some text
            → IfOk result (λ index. lines_of index ≡ member_lines members text) }
        ensures spellings { (text : List ℕ) → R.left reader.old ≡ Some text
            → IfOk result (λ index. spellings_of index ≡ member_spellings members text) }
        ensures counts { IfOk result
            (λ index. counts_of index ≡ length (packages_of index) ∷ []) }
        ensures refused { (text : List ℕ) → R.left reader.old ≡ Some text
            → IfRefused result (λ refusal. refusal_of (doc_of members) text ≡ Some refusal) }
        ensures reads_at_most { (text : List ℕ) → R.left reader.old ≡ Some text
            → TakesNoMore text file_limit (R.left reader.new) }
        ensures keeps { (text : List ℕ) → R.left reader.old ≡ Some text
            → K.Keeps members keeper.old []
            → IfOk result (λ _. KeepsMembers members (K.Keeps members keeper.new) text) }

        // Whether or not the reader's bytes are known.
        ensures fault { IfErr result (λ fault. IsReadersFault fault IsRefusalOfDocument) }
        ensures counts_read_failure { R.failures reader.new ≡ read_failures_after
            (R.failures reader.old) result }
        ensures fault_iff_read_failed { ReadFaultIffFailed (R.failures reader.old)
            (R.failures reader.new) result }
    {
        Index::append_file(alloc, Store::new(alloc), reader, members, keeper)
    }

    /// Reads one more file as an index of packages, whose packages follow those of the index:
    /// their numbers count on. An error leaves no index.
    ///
    /// # Errors
    ///
    /// Those of [`Index::read`] for this file.
    pub fn read_more<R: Source>(self, alloc: Global, reader: &mut R) -> Result<Index, Fault>
        ensures ok { (text : List ℕ) → R.left reader.old ≡ Some text → IfOk result
            (λ index. ListsAfter Members.All text (packages_of self) (packages_of index)) }
        ensures lines { (text : List ℕ) → R.left reader.old ≡ Some text
            → IfOk result (λ index. lines_of index ≡ lines_of self ++ first_lines text) }
        ensures spellings { (text : List ℕ) → R.left reader.old ≡ Some text → IfOk result
            (λ index. spellings_of index ≡ spellings_of self ++ version_spellings text) }
        ensures counts { IfOk result (λ index. counts_of index ≡ counts_of self
            ++ (length (packages_of index) - length (packages_of self)) ∷ []) }
        ensures refused { (text : List ℕ) → R.left reader.old ≡ Some text
            → IfRefused result (λ refusal. refusal_of Doc.Packages text ≡ Some refusal) }
        ensures reads_at_most { (text : List ℕ) → R.left reader.old ≡ Some text
            → TakesNoMore text file_limit (R.left reader.new) }

        // Whether or not the reader's bytes are known.
        ensures fault { IfErr result (λ fault. IsReadersFault fault IsRefusalOfDocument) }
        ensures counts_read_failure { R.failures reader.new ≡ read_failures_after
            (R.failures reader.old) result }
        ensures fault_iff_read_failed { ReadFaultIffFailed (R.failures reader.old)
            (R.failures reader.new) result }
    {
        self.read_more_members(alloc, reader, Members::All, &mut NoKeeper)
    }

    /// Reads one more file as an index of these of its paragraphs, whose packages follow those of
    /// the index. `keeper` is given each paragraph as by [`Index::read_members`]: one that keeps
    /// something of earlier files keeps on.
    ///
    /// # Errors
    ///
    /// Those of [`Index::read_members`] for this file. They leave no index.
    pub fn read_more_members<R: Source, K: Keeper>(
        self,
        alloc: Global,
        reader: &mut R,
        members: Members,
        keeper: &mut K,
    ) -> Result<Index, Fault>
        ensures ok { (text : List ℕ) → R.left reader.old ≡ Some text → IfOk result
            (λ index. ListsAfter members text (packages_of self) (packages_of index)) }
        ensures lines { (text : List ℕ) → R.left reader.old ≡ Some text → IfOk result
            (λ index. lines_of index ≡ lines_of self ++ member_lines members text) }
        ensures spellings { (text : List ℕ) → R.left reader.old ≡ Some text → IfOk result
            (λ index. spellings_of index
            ≡ spellings_of self ++ member_spellings members text) }
        ensures counts { IfOk result (λ index. counts_of index ≡ counts_of self
            ++ (length (packages_of index) - length (packages_of self)) ∷ []) }
        ensures refused { (text : List ℕ) → R.left reader.old ≡ Some text
            → IfRefused result (λ refusal. refusal_of (doc_of members) text ≡ Some refusal) }
        ensures reads_at_most { (text : List ℕ) → R.left reader.old ≡ Some text
            → TakesNoMore text file_limit (R.left reader.new) }
        ensures keeps { (text : List ℕ) (before : List Seen) → R.left reader.old ≡ Some text
            → K.Keeps members keeper.old before → IfOk result (λ _. KeepsMembers members
            (λ given. K.Keeps members keeper.new (before ++ given)) text) }

        // Whether or not the reader's bytes are known.
        ensures fault { IfErr result (λ fault. IsReadersFault fault IsRefusalOfDocument) }
        ensures counts_read_failure { R.failures reader.new ≡ read_failures_after
            (R.failures reader.old) result }
        ensures fault_iff_read_failed { ReadFaultIffFailed (R.failures reader.old)
            (R.failures reader.new) result }
    {
        Index::append_file(alloc, self.into_store(), reader, members, keeper)
    }

    /// What the index keeps, without the maps.
    pub(crate) fn into_store(self) -> Store
        ensures store { result ≡ self.store }
        ensures kept { IsStore result }
    {
        self.store
    }

    /// Reads one more file into a store, and makes its index.
    fn append_file<R: Source, K: Keeper>(
        alloc: Global,
        mut store: Store,
        reader: &mut R,
        members: Members,
        keeper: &mut K,
    ) -> Result<Index, Fault>
        requires kept { IsStore store }
        ensures ok { (text : List ℕ) → R.left reader.old ≡ Some text → IfOk result
            (λ index. ListsAfter members text (listed_in store) (packages_of index)) }
        ensures lines { (text : List ℕ) → R.left reader.old ≡ Some text → IfOk result
            (λ index. lines_of index ≡ lines_in store ++ member_lines members text) }
        ensures spellings { (text : List ℕ) → R.left reader.old ≡ Some text → IfOk result
            (λ index. spellings_of index ≡ spellings_in store ++ member_spellings members text) }
        ensures counts { IfOk result (λ index. counts_of index ≡ store.files.items
            ++ (length (packages_of index) - length (listed_in store)) ∷ []) }
        ensures refused { (text : List ℕ) → R.left reader.old ≡ Some text
            → IfRefused result (λ refusal. refusal_of (doc_of members) text ≡ Some refusal) }
        ensures reads_at_most { (text : List ℕ) → R.left reader.old ≡ Some text
            → TakesNoMore text file_limit (R.left reader.new) }
        ensures keeps { (text : List ℕ) (before : List Seen) → R.left reader.old ≡ Some text
            → K.Keeps members keeper.old before → IfOk result (λ _. KeepsMembers members
            (λ given. K.Keeps members keeper.new (before ++ given)) text) }
        ensures fault { IfErr result (λ fault. IsReadersFault fault IsRefusalOfDocument) }
        ensures counts_read_failure { R.failures reader.new ≡ read_failures_after
            (R.failures reader.old) result }
        ensures fault_iff_read_failed { ReadFaultIffFailed (R.failures reader.old)
            (R.failures reader.new) result }
    {
        let before = store.records.len();
        read_into(alloc, members, reader, keeper, &mut store)?;
        Ok(Index::with_file(alloc, before, store)?)
    }

    /// Ends a file, before which there were so many packages, and makes the index of all packages.
    fn with_file(alloc: Global, before: usize, mut store: Store) -> Result<Index, AllocError>
        requires { IsStore store }
        ensures packages { IfOk result (λ index. packages_of index ≡ listed_in store) }
        ensures lines { IfOk result (λ index. lines_of index ≡ lines_in store) }
        ensures spellings { IfOk result (λ index. spellings_of index ≡ spellings_in store) }
        ensures counts { IfOk result (λ index. counts_of index
            ≡ store.files.items ++ (length (listed_in store) - before) ∷ []) }
    {
        store.end_file(before)?;
        Index::of(alloc, store)
    }

    /// The index of packages.
    pub(crate) fn of(alloc: Global, store: Store) -> Result<Index, AllocError>
        requires { IsStore store }
        ensures packages { IfOk result (λ index. packages_of index ≡ listed_in store) }
        ensures lines { IfOk result (λ index. lines_of index ≡ lines_in store) }
        ensures spellings { IfOk result (λ index. spellings_of index ≡ spellings_in store) }
        ensures counts { IfOk result (λ index. counts_of index ≡ store.files.items) }
    {
        let named = Names::own(alloc, &store)?;
        let provided = Names::provided(alloc, &store)?;
        let crowds = Crowds::of(alloc, &store, &named, &provided)?;
        Ok(Index {
            store,
            named,
            provided,
            crowds,
        })
    }

    /// Returns how many files were read.
    pub fn files(&self) -> usize
        ensures { result ≡ length (counts_of self.now) }
    {
        self.store.files.len()
    }

    /// Returns which file the paragraph of a package is in, by the package's number: 1 for the file
    /// that was read first. `None` if there is no such package.
    pub fn file_of(&self, number: u64) -> Option<usize>
        ensures { result ≡ file_of (counts_of self.now) number }
    {
        file_with(&self.store.files, number)
    }

    /// Returns the numbers of the packages with this name, as their Package (Debian Policy 5.6.7),
    /// in ascending order without repeats; empty if there is no such package. The first package of
    /// the index has the number 1. Takes no memory.
    pub fn packages(&self, name: &[u8]) -> &[u64]
        ensures { result.now ≡ numbers_of (has_name name.now) (packages_of self.now) }
    {
        self.named.of(name)
    }

    /// Returns the numbers of the packages that provide a name, in some version or without one
    /// (Debian Policy 7.5): those with an entry of this name in Provides that has no qualifier, no
    /// architecture list and no formula. They are in ascending order without repeats; empty if
    /// there is no such package. The first package of the index has the number 1. Takes no memory.
    ///
    /// A package is included for its own name only if it provides that too.
    pub fn providers(&self, name: &[u8]) -> &[u64]
        ensures { result.now ≡ numbers_of (provides name.now) (packages_of self.now) }
    {
        self.provided.of(name)
    }

    /// The versions of packages that meet an alternative by name and bound; `None` if those that
    /// have or provide its name are asked one after another.
    pub(crate) fn offers(&self, alternative: &Alternative<'_>) -> Option<&[u32]>
        ensures { IfSome result
            (λ found. AreMeeting (alternative_of alternative.now) (packages_of self.now)
            (map (number_in self.now) found.now)) }
    {
        let bound = alternative.bound()?;
        self.crowds.meeting(&self.store, alternative.name(), bound)
    }

    /// The number of the package of an offer.
    pub(crate) fn number(&self, offer: u32) -> u64
        ensures { result ≡ number_in self.now offer }
    {
        let packages = Packages { store: &self.store };
        packages.number(offer)
    }

    /// Returns what the index keeps of the package with a number, which is counted from 1, or
    /// `None` if there is no such package.
    pub fn package(&self, number: u64) -> Option<Package<'_>>
        ensures listed { option_map listed_of result ≡ package_at number (packages_of self.now) }
        ensures line { option_map line_of result ≡ line_at number (lines_of self.now) }
        ensures spelling { option_map spelling_of result
            ≡ spelling_at number (spellings_of self.now) }
    {
        if number == 0 || number as usize > self.len() {
            return None;
        }
        Some(self.numbered(number))
    }

    /// The package of a number, which is counted from 1.
    pub(crate) fn numbered(&self, number: u64) -> Package<'_>
        requires from_one { 1 ≤ number }
        requires within { number ≤ length (packages_of self.now) }
        ensures listed { slice_get (packages_of self.now) (number - 1) ≡ Some (listed_of result) }
        ensures line { slice_get (lines_of self.now) (number - 1) ≡ Some (line_of result) }
        ensures spelling { slice_get (spellings_of self.now) (number - 1)
            ≡ Some (spelling_of result) }
    {
        self.store.package(number as usize - 1)
    }

    /// Returns the number of packages.
    pub fn len(&self) -> usize
        ensures { result ≡ length (packages_of self.now) }
    {
        self.store.records.len()
    }
}

/// Appends the packages of a file to a store.
fn read_into<R: Source, K: Keeper>(
    alloc: Global,
    members: Members,
    reader: &mut R,
    keeper: &mut K,
    store: &mut Store,
) -> Result<(), Fault>
    requires kept { IsStore store.old }
    ensures ok { (text : List ℕ) → R.left reader.old ≡ Some text
        → OnOk result (StoresFile members text store.old store.new) }
    ensures kept { OnOk result (IsStore store.new) }
    ensures files { store.new.files ≡ store.old.files }
    ensures refused { (text : List ℕ) → R.left reader.old ≡ Some text
        → IfRefused result (λ refusal. refusal_of (doc_of members) text ≡ Some refusal) }
    ensures reads_at_most { (text : List ℕ) → R.left reader.old ≡ Some text
        → TakesNoMore text file_limit (R.left reader.new) }
    ensures keeps { (text : List ℕ) (before : List Seen) → R.left reader.old ≡ Some text
        → K.Keeps members keeper.old before → OnOk result (KeepsMembers members
        (λ given. K.Keeps members keeper.new (before ++ given)) text) }
    ensures fault { IfErr result (λ fault. IsReadersFault fault IsRefusalOfDocument) }
    ensures counts_read_failure { R.failures reader.new ≡ read_failures_after
        (R.failures reader.old) result }
    ensures fault_iff_read_failed { ReadFaultIffFailed (R.failures reader.old)
        (R.failures reader.new) result }
{
    let mut checked = Checked::new(alloc, members.doc());
    let mut builder = PackageBuilder::new(alloc);
    for count in 0..u64::MAX {
        if !checked.advance(&mut builder, reader)? {
            return Ok(());
        }
        let Some(paragraph) = checked.current() else {
            unreachable!()
        };
        keep_next(members, &paragraph, &builder, store, keeper)?;
    }
    // No file has so many paragraphs.
    unreachable!()
}

/// Keeps the package of one more paragraph, if that is one of the members, and what the keeper
/// keeps of it.
fn keep_next<K: Keeper>(
    members: Members,
    paragraph: &CheckedView<'_>,
    builder: &PackageBuilder,
    store: &mut Store,
    keeper: &mut K,
) -> Result<(), AllocError>
    ensures store { (first : Store) (given : List Seen) (seen : Seen)
        → VisitsValues KeepsVisited builder.now (doc_of members) seen
        → (passing_judged paragraph.now).seen ≡ seen → KeepsGiven members first store.old given
        → OnOk result (KeepsGiven members first store.new (given ++ seen ∷ [])) }
    ensures files { store.new.files ≡ store.old.files }
    ensures keeps { (given : List Seen) (seen : Seen)
        → VisitsValues KeepsVisited builder.now (doc_of members) seen
        → (passing_judged paragraph.now).seen ≡ seen → K.Keeps members keeper.old given
        → OnOk result (K.Keeps members keeper.new (given ++ seen ∷ [])) }
{
    if !members.has(paragraph) {
        keeper.pass_over(paragraph, &builder.texts)?;
        return Ok(());
    }
    store.push(builder, version_body(paragraph), paragraph.first_line())?;
    keeper.keep(paragraph, &builder.texts)?;
    Ok(())
}

/// The body of Version as the file has it; empty if there is no such field.
fn version_body<'a>(paragraph: &CheckedView<'a>) -> &'a [u8]
    ensures { result.now ≡ version_body (passing_judged paragraph.now).seen.fields }
{
    match paragraph.get(b"Version") {
        Some(field) => field.body,
        None => b"",
    }
}

/// The place, from 1, of the file that has the package with a number, where files have so many
/// packages.
fn file_with(counts: &[u64], number: u64) -> Option<usize>
    ensures { result ≡ file_of counts.now number }
{
    if number == 0 {
        return None;
    }
    let mut rest = number;
    for (index, &count) in counts.iter().enumerate() {
        if rest <= count {
            return Some(index + 1);
        }
        rest -= count;
    }
    None
}
