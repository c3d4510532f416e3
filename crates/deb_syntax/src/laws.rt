//! Laws of the definitions of the reader. Each function does nothing; its contract is the law.

#![tactic(auto, using(crate::proofs::LawProofs::laws))]

ghost use Rattle.deb_syntax.specs.Laws.{JudgedIsSpelled, SpelledIsJudged, RefusedIsNotSpelled, ParagraphHasOneReading, TextHasOneMeaning, TextIsMeantOrRefused, ParagraphsAreRuns, ParagraphsStandInText, LinesGiveTextBack, TextGivesLinesBack, PiecesGiveTextBack, MeaningIsItsBodies, MeaningHasBodies, OrderIsNoMeaning, AcceptedIsNeverRefused, NeverRefusedIsAccepted, RefusalIsOfText, AnswersEnd};
ghost use Rattle.deb_syntax.specs.Streams.{AnswersAreOfStream};

/// The fields that are read from the lines of a paragraph within its limit of length are those that
/// the lines spell.
pub fn what_is_judged_is_spelled()
    ensures { JudgedIsSpelled }
{}

/// The fields that the lines of a paragraph spell are those that are read from them.
pub fn what_is_spelled_is_judged()
    ensures { SpelledIsJudged }
{}

/// A refusal of a paragraph's lines has the number of one of them and a code from 1 to 7, and the
/// lines spell no fields.
pub fn what_is_refused_is_not_spelled()
    ensures { RefusedIsNotSpelled }
{}

/// A paragraph spells at most one list of fields.
pub fn a_paragraph_has_one_reading()
    ensures { ParagraphHasOneReading }
{}

/// A text means at most one thing.
pub fn a_text_has_one_meaning()
    ensures { TextHasOneMeaning }
{}

/// A text whose paragraphs are within their limit of length means something, or it has a first
/// refusal of a line and means nothing.
pub fn a_text_is_meant_or_refused()
    ensures { TextIsMeantOrRefused }
{}

/// The paragraphs of a list of lines are the maximal runs of lines that aren't blank; there is one
/// such list of paragraphs.
pub fn paragraphs_are_maximal_runs()
    ensures { ParagraphsAreRuns }
{}

/// Each paragraph of a text is among the lines of the text, at the number of its first line. It has
/// at least one line, and none of its lines is blank.
pub fn paragraphs_stand_in_their_text()
    ensures { ParagraphsStandInText }
{}

/// The lines of a text, each with its newline, are the text, with a newline at its end if it had
/// none.
pub fn lines_give_the_text_back()
    ensures { LinesGiveTextBack }
{}

/// Lines without newlines are the lines of the text that they form.
pub fn a_text_gives_its_lines_back()
    ensures { TextGivesLinesBack }
{}

/// The pieces of a text between its newlines, joined by newlines, are the text.
pub fn pieces_give_the_text_back()
    ensures { PiecesGiveTextBack }
{}

/// Two paragraphs mean the same if the same body is under each name.
pub fn a_meaning_is_its_bodies()
    ensures { MeaningIsItsBodies }
{}

/// In a paragraph's meaning, the body of each field is under the canonical spelling of its name.
pub fn a_meaning_has_each_body()
    ensures { MeaningHasBodies }
{}

/// Fields in another order have the same meaning.
pub fn the_order_of_fields_means_nothing()
    ensures { OrderIsNoMeaning }
{}

/// No answer of a reader of paragraphs on an accepted file is a refusal.
pub fn what_is_accepted_is_never_refused()
    ensures { AcceptedIsNeverRefused }
{}

/// A file on which no answer of a reader of paragraphs is a refusal is accepted.
pub fn what_is_never_refused_is_accepted()
    ensures { NeverRefusedIsAccepted }
{}

/// A refusal that a reader of paragraphs returns has the number of one of the file's lines and a
/// code from 1 to 9.
pub fn a_refusal_is_of_the_text()
    ensures { RefusalIsOfText }
{}

/// A reader of paragraphs returns that there is no further one exactly after the last paragraph of
/// a file that isn't too long.
pub fn answers_end()
    ensures { AnswersEnd }
{}

/// After the first items of a file's stream, a reader of paragraphs returns the next item, or the
/// end: so the first refusal of a file is that of its first refused item, or else of its end.
pub fn answers_are_those_of_the_stream()
    ensures { AnswersAreOfStream }
{}
