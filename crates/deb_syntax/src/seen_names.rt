//! The set of the field names of a paragraph so far, without ASCII case.

ghost use Rattle.std.specs.Prelude.{◌≡◌, ◌++◌, [], ◌∷◌, ◌||◌, ◌==◌, ◌<◌, ℕ, List, false, get_or, length, map, not, IsTrue, IfOk, IfErr, OnOk};
ghost use Rattle.std.specs.List.{list_all};
ghost use Rattle.std.specs.Str.{bytes_eq};
ghost use Rattle.deb_base.specs.Kinds.{known_row};
ghost use Rattle.deb_base.specs.KnownFields.{row_of};
ghost use Rattle.deb_base.specs.Names.{folded};
ghost use Rattle.deb_syntax.specs.FieldSpans.{name_at, lies_within, has_stood, is_kept, Keeps, KeepsNext};

use crate::field_span::FieldSpan;
use crate::folded_name::FoldedName;
use deb_base::{Fault, FieldId, KNOWN_FIELDS, same_name};
use indexmap::IndexSet;
use std::alloc::Global;

/// Up to so many fields a name that isn't in the table is compared with each one before it, without
/// memory; beyond, the names are kept in a set.
const FEW: usize = 32;

/// What is kept of the names of the fields so far.
#[derive(Drop)]
pub(crate) struct Names<'a> {
    /// Which fields of the table stood.
    known: [bool; KNOWN_FIELDS],
    /// All names, or none while they are few.
    all: IndexSet<FoldedName<'a>>,
}

impl<'a> Names<'a> {
    /// No names.
    pub(crate) fn new(alloc: Global) -> Names<'a>
        ensures { (text : List ℕ) → Keeps text [] result }
    {
        Names {
            known: [false; KNOWN_FIELDS],
            all: IndexSet::new(alloc),
        }
    }
}

/// Adds the name of a field after those in the spans, and says whether it is new. Memory: a
/// growth of the set was refused. Where it isn't new, or after out of memory, the set is of no
/// further use.
pub(crate) fn add<'a>(
    names: &mut Names<'a>,
    text: &'a [u8],
    spans: &[FieldSpan],
    name: &'a [u8],
    id: FieldId,
) -> Result<bool, Fault>
    requires within { IsTrue (list_all (lies_within text.now) spans.now) }
    requires id { row_of id ≡ known_row name.now }
    requires keeps { Keeps text.now spans.now names.old }
    ensures new { IfOk result (λ new.
        new ≡ not (has_stood name.now (map (name_at text.now) spans.now))) }
    ensures keeps { IfOk result (λ new. IsTrue new
        → KeepsNext text.now spans.now name.now names.new) }
    ensures fault { IfErr result (λ fault. fault ≡ Fault.Memory) }
{
    if id.is_known() {
        return Ok(add_known(&mut names.known, id.row()));
    }
    if names.all.is_empty() {
        if spans.len() < FEW {
            return Ok(!stands_at(text, spans, name));
        }
        keep_all(&mut names.all, text, spans)?;
    }
    keep(&mut names.all, name)
}

/// Adds a field of the table, and says whether it is new.
fn add_known(known: &mut [bool; KNOWN_FIELDS], row: usize) -> bool
    requires { row < KNOWN_FIELDS }
    ensures new { result ≡ not (get_or known.old row false) }
    ensures known { (k : ℕ) → get_or known.new k false
        ≡ (get_or known.old k false || (k == row)) }
{
    let stood = known[row];
    known[row] = true;
    !stood
}

/// Whether the name is in one of the spans.
#[tactic(auto, using(crate::proofs::NameSets::standing))]
fn stands_at(text: &[u8], spans: &[FieldSpan], name: &[u8]) -> bool
    requires { IsTrue (list_all (lies_within text.now) spans.now) }
    ensures { result ≡ has_stood name.now (map (name_at text.now) spans.now) }
{
    for span in spans {
        if same_name(&text[span.start as usize..span.colon as usize], name) {
            return true;
        }
    }
    false
}

/// Keeps the names in the spans in an empty set.
#[tactic(auto, using(crate::proofs::NameSets::standing))]
fn keep_all<'a>(
    all: &mut IndexSet<FoldedName<'a>>,
    text: &'a [u8],
    spans: &[FieldSpan],
) -> Result<(), Fault>
    requires within { IsTrue (list_all (lies_within text.now) spans.now) }
    requires empty { all.old.keys ≡ [] }
    ensures all { OnOk result ((name : List ℕ) →
        is_kept name all.new.keys ≡ has_stood name (map (name_at text.now) spans.now)) }
    ensures fault { IfErr result (λ fault. fault ≡ Fault.Memory) }
{
    for span in spans {
        keep(all, &text[span.start as usize..span.colon as usize])?;
    }
    Ok(())
}

/// Keeps a name, and says whether it is new.
fn keep<'a>(all: &mut IndexSet<FoldedName<'a>>, name: &'a [u8]) -> Result<bool, Fault>
    ensures new { IfOk result (λ new. new ≡ not (is_kept name.now all.old.keys)) }
    ensures kept { OnOk result ((other : List ℕ) → is_kept other all.new.keys
        ≡ (is_kept other all.old.keys || bytes_eq (folded name.now) (folded other))) }
    ensures fault { IfErr result (λ fault. fault ≡ Fault.Memory) }
{
    let added = all.insert(FoldedName(name))?;
    Ok(added)
}
