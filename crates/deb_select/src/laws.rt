//! Laws of conditions and of what they select. Each function does nothing; its contract is the law.

ghost use Rattle.deb_select.specs.JsonLaws.{JsonLinesAreSelected, JsonLinesReadBack};
ghost use Rattle.deb_select.specs.JsonLaws.{JsonLinesTellMeanings, JsonLinesTellTokens};
ghost use Rattle.deb_select.specs.Laws.{CanonicalTextSelectsTheSame, EqualityIsOfMeanings};
ghost use Rattle.deb_select.specs.Laws.{FieldsOutputIsText, FilesFollow, JoinedConditionsIntersect};
ghost use Rattle.deb_select.specs.Laws.{NegationPartitions, OutputsFollow, SameFilesSelectTheSame};
ghost use Rattle.deb_select.specs.Laws.{SelectedAreSelected, SelectedTextIsAccepted};
ghost use Rattle.deb_select.specs.Laws.{SelectedTextIsItsOwn, TableIsOfMeanings};
ghost use Rattle.deb_select.specs.Laws.{TableLinesAreSelected, TextsAreRead, WholeOutputIsText};

/// A text that isn't refused spells one condition, and one that is refused spells none.
pub fn texts_are_read()
    ensures { TextsAreRead }
{}

/// Two values of a kind compare as equal exactly if they mean the same.
pub fn equality_is_of_meanings()
    ensures { EqualityIsOfMeanings }
{}

/// Of files that mean the same the same paragraphs are selected.
pub fn same_files_select_the_same()
    ensures { SameFilesSelectTheSame }
{}

/// Of a file and of its canonical text the same paragraphs are selected.
pub fn canonical_text_selects_the_same()
    ensures { CanonicalTextSelectsTheSame }
{}

/// Each paragraph is selected either by conditions or by the same negated.
pub fn negation_partitions()
    ensures { NegationPartitions }
{}

/// Conditions that are joined select what both select.
pub fn joined_conditions_intersect()
    ensures { JoinedConditionsIntersect }
{}

/// Selecting again changes nothing.
pub fn selected_are_selected()
    ensures { SelectedAreSelected }
{}

/// What is written of an accepted file is accepted, unless it is too long, and means what is
/// selected.
pub fn selected_text_is_accepted()
    ensures { SelectedTextIsAccepted }
{}

/// Selecting from what was written changes no byte.
pub fn selected_text_is_its_own()
    ensures { SelectedTextIsItsOwn }
{}

/// What is written of two files is what is written of the first, and what of the second after it.
pub fn files_follow()
    ensures { FilesFollow }
{}

/// The output of whole paragraphs is the text of those that are selected.
pub fn whole_output_is_text()
    ensures { WholeOutputIsText }
{}

/// The output of fields is the text of these fields of the paragraphs that are selected.
pub fn fields_output_is_text()
    ensures { FieldsOutputIsText }
{}

/// A table is a function of the file's meaning.
pub fn table_is_of_meanings()
    ensures { TableIsOfMeanings }
{}

/// A table has one line for each paragraph that is selected.
pub fn table_lines_are_selected()
    ensures { TableLinesAreSelected }
{}

/// In each form the output of two files is that of the first, and that of the second after it.
pub fn outputs_follow()
    ensures { OutputsFollow }
{}

/// Each line of JSON reads back, as `serde_json` reads, to exactly the value of the paragraph's
/// meaning.
pub fn json_lines_read_back()
    ensures { JsonLinesReadBack }
{}

/// Lines of JSON are as many as the paragraphs that are selected.
pub fn json_lines_are_selected()
    ensures { JsonLinesAreSelected }
{}

/// Two lines of JSON are equal exactly if their tokens are.
pub fn json_lines_tell_tokens()
    ensures { JsonLinesTellTokens }
{}

/// Two paragraphs of one kind of document have equal lines of JSON exactly if they mean the same,
/// begin at the same line of their files and spell their versions alike.
pub fn json_lines_tell_meanings()
    ensures { JsonLinesTellMeanings }
{}
