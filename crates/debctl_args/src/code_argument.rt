//! The arguments that name error codes: their numbers and their names.

ghost use Rattle.std.specs.Fmt.{decimal};
ghost use Rattle.std.specs.Prelude.{◌≡◌};
ghost use Rattle.std.specs.Str.{bytes_eq};
ghost use Rattle.deb_base.specs.Codes.{name_of, number_of};
ghost use Rattle.debctl_args.specs.AskedWords.{code_named, names_code};

use deb_base::Code;
use itoa::Buffer;

/// The codes, in the order of their numbers.
const CODES: [Code; 23] = [
    Code::NotUtf8,
    Code::Armour,
    Code::Comment,
    Code::StrayContinuation,
    Code::BadFieldName,
    Code::NoColon,
    Code::DuplicateField,
    Code::ParagraphTooLong,
    Code::FileTooLong,
    Code::NoParagraph,
    Code::TooManyParagraphs,
    Code::MissingField,
    Code::NotOneLine,
    Code::BadName,
    Code::BadNumber,
    Code::BadWord,
    Code::BadArchitecture,
    Code::BadVersion,
    Code::BadRelation,
    Code::AlternativesNotAllowed,
    Code::ProvidesBound,
    Code::Wildcard,
    Code::BadEnvironment,
];

/// The code whose number a word is, from 1 to 23, in decimal, or whose name it is.
pub(crate) fn code_named(word: &str) -> Option<Code>
    ensures { result ≡ code_named word.now }
{
    CODES.iter().copied().find(|code| names_code(*code, word))
}

/// Whether a word is the number of a code, in decimal, or its name.
fn names_code(code: Code, word: &str) -> bool
    ensures { result ≡ names_code word.now code }
{
    is_number_of(code, word) || is_name_of(code, word)
}

/// Whether a word is the number of a code, in decimal.
fn is_number_of(code: Code, word: &str) -> bool
    ensures { result ≡ bytes_eq word.now (decimal (number_of code)) }
{
    let mut number = Buffer::new();
    word == number.format(code as u8)
}

/// Whether a word is the name of a code.
fn is_name_of(code: Code, word: &str) -> bool
    ensures { result ≡ bytes_eq word.now (name_of code) }
{
    word.as_bytes() == code.name()
}
