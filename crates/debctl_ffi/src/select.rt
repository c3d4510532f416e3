//! The paragraphs of a text for which conditions hold, for programs in C.

ghost use Rattle.std.specs.Prelude.{◌≡◌, ◌⊎◌, ◌<◌, ◌+◌, ◌^◌, ◌++◌, ◌∷◌, [], ℕ, Bool, List, Some};
ghost use Rattle.std.specs.Prelude.{IfErr, IfOk, map};
ghost use Rattle.deb_base.specs.declared.doc.Doc.{Doc as DocKind};
ghost use Rattle.deb_relation.specs.Views.{names_of};
ghost use Rattle.deb_select.specs.Conditions.{SelectionMeaning};
ghost use Rattle.deb_select.specs.Forms.{TableOf, form_shown};
ghost use Rattle.deb_select.specs.Selections.{HasConditions};
ghost use Rattle.debctl_ffi.specs.Answers.{HasStatus, plain};
ghost use Rattle.debctl_ffi.specs.Buffers.{buffer};
ghost use Rattle.debctl_ffi.specs.Select.{AnswersSelect, AskingFails, FindsIn, FormFails};
ghost use Rattle.debctl_ffi.specs.Select.{HasTexts, IsAsked, RefusesSelect, StopsAt, StopsReading};
ghost use Rattle.debctl_ffi.specs.Select.{StopsSelect, WritesIn, fields_or_all, form_by, numbers};
ghost use Rattle.debctl_ffi.specs.Select.{others_by, some_selected};

use crate::answer::{Answer, no_condition, no_kind, no_memory, refused, some, yes};
use crate::buffer::reply;
use crate::kind::kind_of;
use deb_base::{Fault, SliceSource, VecSink};
use deb_field::Doc;
use deb_select::{Condition, ConditionFault, Form, Selection};
use std::alloc::{AllocError, Global};

/// What is asked: the kind of the text, whether the paragraphs are selected for which not all
/// conditions hold, and what is written of each.
#[derive(Drop)]
pub(crate) struct Asked {
    pub(crate) kind: Doc,
    pub(crate) negated: bool,
    pub(crate) form: Form,
}

/// Writes the paragraphs of a text for which all conditions hold, or if `others` is 1 the others,
/// in a form to the start of `out`, and returns the length of that (Debian Policy 5.1 and 5.6).
/// `form` is 0 (the fields with these names as they are in the text, or whole paragraphs without
/// a name), 1 (a table of these fields), 2 (a line of JSON for each paragraph) or 3 (nothing).
/// Status 0, with the number of these paragraphs. 1: there is none; the length is 0. 4: `out` is
/// too small; `len` is the length that it needs. 5: out of memory. 6: `kind`, `others` or `form` is
/// another number.
///
/// Status 3: a text is no condition on documents of this kind; the place of the first such one is
/// the `count`, from 1. 2: else the text is refused, with its first refusal. Except for status 0,
/// `out` is unchanged.
#[tactic(auto, using(crate::proofs::SelectTexts::finds_as, crate::proofs::SelectTexts::stops_as))]
#[unsafe(no_mangle)]
pub extern "C" fn deb_select(
    alloc: Global,
    kind: u8,
    others: u8,
    form: u8,
    conditions: &[&[u8]],
    names: &[&[u8]],
    text: &[u8],
    out: &mut [u8],
    len: &mut usize,
) -> Answer
    ensures answers { AnswersSelect (numbers kind others form) (names_of conditions.now)
        (names_of names.now) text.now (buffer out.old out.new len.new) result }
    ensures status { HasStatus result.status (0 ∷ 1 ∷ 2 ∷ 3 ∷ 4 ∷ 5 ∷ 6 ∷ []) }
{
    *len = 0;
    let asked = match asked_by(alloc, kind, others, form, names) {
        Ok(asked) => asked,
        Err(answer) => return answer,
    };
    match selected_of(alloc, &asked, conditions, text) {
        Ok((answer, found)) => reply(answer, &found, out, len),
        Err(answer) => answer,
    }
}

/// What the numbers and the names ask; or the answer that says why they ask nothing.
fn asked_by(alloc: Global, kind: u8, others: u8, form: u8, names: &[&[u8]]) -> Result<Asked, Answer>
    ensures ok { IfOk result (IsAsked (numbers kind others form) (names_of names.now)) }
    ensures fails { IfErr result (AskingFails (numbers kind others form) (names_of names.now)) }
    ensures status { IfErr result (λ answer. HasStatus answer.status (5 ∷ 6 ∷ [])) }
{
    let Some(kind) = kind_of(kind) else {
        return Err(no_kind());
    };
    let Some(negated) = others_by(others) else {
        return Err(no_kind());
    };
    match form_by(alloc, form, names) {
        Ok(form) => Ok(Asked {
            kind,
            negated,
            form,
        }),
        Err(answer) => Err(answer),
    }
}

/// Whether the paragraphs are selected for which not all conditions hold, by a number.
fn others_by(number: u8) -> Option<bool>
    ensures { result ≡ others_by number }
{
    match number {
        0 => Some(false),
        1 => Some(true),
        _ => None,
    }
}

/// What is written of each paragraph, by a number.
fn form_by(alloc: Global, number: u8, names: &[&[u8]]) -> Result<Form, Answer>
    ensures ok { IfOk result
        (λ form. form_by number (names_of names.now) ≡ Some (form_shown form)) }
    ensures fails { IfErr result (FormFails number (names_of names.now)) }
    ensures status { IfErr result (λ answer. HasStatus answer.status (5 ∷ 6 ∷ [])) }
{
    let found = match number {
        0 => fields_or_all(alloc, names),
        1 => table_of(alloc, names),
        2 => Ok(Form::Json),
        3 => Ok(Form::Nothing),
        _ => return Err(no_kind()),
    };
    match found {
        Ok(form) => Ok(form),
        Err(AllocError) => Err(no_memory()),
    }
}

/// The form of the fields with these names, or without a name of whole paragraphs.
fn fields_or_all(alloc: Global, names: &[&[u8]]) -> Result<Form, AllocError>
    ensures { IfOk result (λ form. form_shown form ≡ fields_or_all (names_of names.now)) }
{
    match names {
        [] => Ok(Form::Paragraphs),
        [_, ..] => Ok(Form::Fields(copies_of(alloc, names)?)),
    }
}

/// The form of a table of the fields with these names.
fn table_of(alloc: Global, names: &[&[u8]]) -> Result<Form, AllocError>
    ensures { IfOk result (λ form. form_shown form ≡ TableOf (names_of names.now)) }
{
    Ok(Form::Table(copies_of(alloc, names)?))
}

/// Copies of names.
fn copies_of(alloc: Global, names: &[&[u8]]) -> Result<Vec<Vec<u8>>, AllocError>
    ensures { IfOk result
        (λ copies. map (λ name. name.items) copies.items ≡ names_of names.now) }
{
    let mut copies = Vec::new(alloc);
    for name in names {
        copies.push(Vec::from_slice(alloc, name)?)?;
    }
    Ok(copies)
}

/// What is written of a text, and the answer that goes with it; or the answer that says why nothing
/// is.
#[tactic(auto, using(crate::proofs::SelectTexts::finds_in, crate::proofs::SelectTexts::stops_in))]
fn selected_of(
    alloc: Global,
    asked: &Asked,
    conditions: &[&[u8]],
    text: &[u8],
) -> Result<(Answer, Vec<u8>), Answer>
    ensures ok { IfOk result (λ found. FindsIn asked.now (names_of conditions.now) text.now
        found.0 found.1.items) }
    ensures fails { IfErr result (StopsSelect asked.now.kind (names_of conditions.now) text.now) }
    ensures found_status { IfOk result (λ found. HasStatus found.0.status (0 ∷ 1 ∷ [])) }
    ensures status { IfErr result (λ answer. HasStatus answer.status (2 ∷ 3 ∷ 5 ∷ [])) }
{
    let selection = match read_conditions(alloc, asked.kind, asked.negated, conditions) {
        Ok(selection) => selection,
        Err(answer) => return Err(answer),
    };
    match write_selected(alloc, &selection, &asked.form, text) {
        Ok(found) => Ok(found),
        Err(answer) => Err(answer),
    }
}

/// The selection with these conditions; or the answer that says which of them is none, or that
/// memory is out.
fn read_conditions(
    alloc: Global,
    kind: Doc,
    negated: bool,
    texts: &[&[u8]],
) -> Result<Selection, Answer>
    ensures ok { IfOk result (HasTexts kind negated (names_of texts.now)) }
    ensures fails { IfErr result (StopsReading kind (names_of texts.now)) }
    ensures status { IfErr result (λ answer. HasStatus answer.status (3 ∷ 5 ∷ [])) }
{
    let mut selection = Selection::new(alloc, kind, negated);
    for place in 0..texts.len() {
        selection = match add_condition(alloc, selection, kind, texts[place], place) {
            Ok(more) => more,
            Err(answer) => return Err(answer),
        };
    }
    Ok(selection)
}

/// Adds one more condition, before which there are so many.
fn add_condition(
    alloc: Global,
    selection: Selection,
    kind: Doc,
    text: &[u8],
    place: usize,
) -> Result<Selection, Answer>
    requires few { place < 2 ^ 63 }
    ensures ok { (negated : Bool) (texts : List (List ℕ)) → HasTexts kind negated texts selection
        → IfOk result (HasTexts kind negated (texts ++ text.now ∷ [])) }
    ensures fails { IfErr result (StopsAt kind text.now (place + 1)) }
    ensures status { IfErr result (λ answer. HasStatus answer.status (3 ∷ 5 ∷ [])) }
{
    match Condition::read(alloc, kind, text) {
        Ok(condition) => match selection.with(condition) {
            Ok(more) => Ok(more),
            Err(AllocError) => Err(no_memory()),
        },
        Err(ConditionFault::Bad { .. }) => Err(no_condition(place as u64 + 1)),
        Err(ConditionFault::Memory) => Err(no_memory()),
    }
}

/// Writes the paragraphs of a text that are selected; or returns the answer that says that the text
/// is refused, or that memory is out.
fn write_selected(
    alloc: Global,
    selection: &Selection,
    form: &Form,
    text: &[u8],
) -> Result<(Answer, Vec<u8>), Answer>
    ensures ok { (kind : DocKind) (meaning : SelectionMeaning)
        → HasConditions kind meaning selection.now → IfOk result (λ found. WritesIn kind meaning
        (form_shown form.now) text.now found.0 found.1.items) }
    ensures fails { (kind : DocKind) (meaning : SelectionMeaning)
        → HasConditions kind meaning selection.now
        → IfErr result (λ answer. RefusesSelect kind text.now answer ⊎ (answer ≡ plain 5)) }
    ensures found_status { IfOk result (λ found. HasStatus found.0.status (0 ∷ 1 ∷ [])) }
    ensures status { IfErr result (λ answer. HasStatus answer.status (2 ∷ 5 ∷ [])) }
{
    let mut sink = VecSink::new(alloc);
    match selection.write(form, false, &mut SliceSource::new(text), &mut sink) {
        Ok(done) => Ok((some_selected(done.count), sink.into_bytes())),
        Err(Fault::Refused(refusal)) => Err(refused(&refusal)),
        Err(_) => Err(no_memory()),
    }
}

/// The answer that so many paragraphs are selected: 1 if none is.
fn some_selected(count: u64) -> Answer
    ensures { result ≡ some_selected count }
{
    if count == 0 { some(count) } else { yes(count) }
}
