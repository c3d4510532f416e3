//! Which part of a file an error code is about. `subject` finds that part.

ghost use Rattle.std.specs.Prelude.{◌≡◌};
ghost use Rattle.deb_explain.specs.Subjects.{topic_of};

use deb_base::Code;

/// What a code of refusals is about.
#[derive(Clone, Copy)]
pub(crate) enum Topic {
    /// A length, a number of paragraphs, or the arguments of a query.
    Whole,
    /// A line.
    Line,
    /// The text before the colon of a line.
    Name,
    /// A name that no field of a paragraph has.
    Missing,
    /// The value of a field.
    Value,
}

pub(crate) fn topic_of(code: Code) -> Topic
    ensures { result ≡ topic_of code }
{
    match code {
        Code::NotUtf8 | Code::Armour | Code::Comment | Code::StrayContinuation | Code::NoColon =>
            Topic::Line,
        Code::BadFieldName | Code::DuplicateField => Topic::Name,
        Code::MissingField => Topic::Missing,
        Code::NotOneLine
        | Code::BadName
        | Code::BadNumber
        | Code::BadWord
        | Code::BadArchitecture
        | Code::BadVersion
        | Code::BadRelation
        | Code::AlternativesNotAllowed
        | Code::ProvidesBound => Topic::Value,
        Code::ParagraphTooLong
        | Code::FileTooLong
        | Code::NoParagraph
        | Code::TooManyParagraphs
        | Code::Wildcard
        | Code::BadEnvironment => Topic::Whole,
    }
}
