//! Laws of documents and of their refusals. Each function does nothing; its contract is the law.

ghost use Rattle.deb_control.specs.Laws.{RefusedOrAccepted, AcceptedMeansOneThing, AcceptedIsWritten, CanonicalTextIsAccepted, CanonicalTextTellsMeanings, CanonicalTextIsItsOwn, WhatIsWrittenIsNormal, RefusalsAreOfTheFile, RefusalsOfAnyAreOfText, RefusalBehindIsOfTheFile, EndBehindIsOfTheFile};
ghost use Rattle.deb_control.specs.Ascending.{RefusalsAscend, RunsAreInOrder};
ghost use Rattle.deb_control.specs.Remaining.{AllRemains, RemainingIsAccepted};
ghost use Rattle.deb_control.specs.StreamLaws.{AcceptedHasOneLine, EndEndsTheStream, FirstIsTheRefusal, NoLineIsAccepted, NoRefusalIsAccepted, PassedIsNext, RefusedIsLeftOut, SingleHasOne};

/// A file has no refusal exactly if it is accepted with some meaning.
pub fn a_file_is_refused_or_accepted()
    ensures { RefusedOrAccepted }
{}

/// A file is accepted with at most one meaning.
pub fn an_accepted_file_means_one_thing()
    ensures { AcceptedMeansOneThing }
{}

/// What is written for an accepted file is the canonical text of its meaning.
pub fn canonical_text_is_written_of_an_accepted_file()
    ensures { AcceptedIsWritten }
{}

/// The canonical text of an accepted file is accepted with the same meaning, so it is within both
/// limits.
pub fn canonical_text_is_accepted()
    ensures { CanonicalTextIsAccepted }
{}

/// Two files that are accepted as one kind of document have equal canonical text exactly if they
/// mean the same.
pub fn canonical_text_tells_meanings()
    ensures { CanonicalTextTellsMeanings }
{}

/// The canonical text of an accepted file has no refusal, and what is written for it is itself:
/// `normalise` is idempotent.
pub fn canonical_text_is_its_own()
    ensures { CanonicalTextIsItsOwn }
{}

/// What `normalise` writes when it returns Ok is accepted with the file's meaning, and what is
/// written for it is itself.
pub fn normalised_text_is_normal()
    ensures { WhatIsWrittenIsNormal }
{}

/// The refusal of a file has a code from 1 to 21, and is at one of the file's lines, counted from
/// 1; or a paragraph is missing, at the line after the last one.
pub fn a_refusal_is_of_the_file()
    ensures { RefusalsAreOfTheFile }
{}

/// The refusal of a file under `Doc::Any`, which checks no value, has a code from 1 to 9: it is
/// refused only for its text.
pub fn a_refusal_of_any_is_of_the_text()
    ensures { RefusalsOfAnyAreOfText }
{}

/// What `Checked::next` refuses after the paragraphs that it has returned is the refusal of the
/// file, and they are all that is written for it.
pub fn a_refusal_behind_paragraphs_is_of_the_file()
    ensures { RefusalBehindIsOfTheFile }
{}

/// If `Checked::next` returns that no paragraph follows those that it has returned, the file is
/// accepted with exactly these.
pub fn an_end_behind_paragraphs_is_of_the_file()
    ensures { EndBehindIsOfTheFile }
{}

/// The first refusal of the stream of a file, if it has one, is the refusal of the file, which
/// `check` returns.
pub fn the_first_refusal_is_of_the_file()
    ensures { FirstIsTheRefusal }
{}

/// The stream of a file has no refusal exactly if the file is accepted with some meaning.
pub fn no_refusal_is_acceptance()
    ensures { NoRefusalIsAccepted }
{}

/// If `Checked` refuses a paragraph after those that it has returned, and the stream doesn't end
/// there, that refusal is the stream's next item, and what follows it is the stream of the text
/// without that paragraph.
pub fn what_is_refused_is_left_out()
    ensures { RefusedIsLeftOut }
{}

/// If `Checked` returns a paragraph after those that it has returned, that is the stream's next
/// item, and the stream after it follows.
pub fn what_passes_is_next_in_the_stream()
    ensures { PassedIsNext }
{}

/// If `Checked` returns that no paragraph follows those that it has returned, the stream ends.
pub fn the_end_ends_the_stream()
    ensures { EndEndsTheStream }
{}

/// A file has no line of a refusal exactly if it is accepted with some meaning.
pub fn no_line_is_acceptance()
    ensures { NoLineIsAccepted }
{}

/// For a kind of document that has exactly one paragraph, the only refusal, if there is one, is the
/// one that `check` returns.
pub fn a_single_paragraph_has_one_line()
    ensures { SingleHasOne }
{}

/// For an accepted file the only line is the last one, `ok N, 0 refused`, with the number of the
/// file's paragraphs.
pub fn an_accepted_file_has_its_last_line_alone()
    ensures { AcceptedHasOneLine }
{}

/// The lines of a file's refusals ascend strictly.
pub fn refusals_ascend()
    ensures { RefusalsAscend }
{}

/// The runs are lines of the file, one after another, and a refused run has its refusal at one of
/// its lines. A refusal that ends the stream is after them.
pub fn a_refusal_is_within_its_run()
    ensures { RunsAreInOrder }
{}

/// For a kind of document that has any number of paragraphs, the text before a refusal that ends
/// the stream, without the refused runs, is accepted with exactly the paragraphs that passed.
pub fn the_file_without_its_refused_runs_is_accepted()
    ensures { RemainingIsAccepted }
{}

/// If nothing is refused, the text without the refused runs is the file.
pub fn a_file_without_refusals_remains()
    ensures { AllRemains }
{}
