//! The error codes: why a file or an argument is refused.

ghost use Rattle.std.specs.Prelude.{◌≡◌, option_map};
ghost use Rattle.deb_base.specs.Codes.{name_of};
ghost use Rattle.deb_base.specs.Sentences.{rule_of, usually_of};

/// Why a file, or an argument of the program, is refused. Each code has a number from 1 to 23.
///
/// The codes 1 to 9 are about the text of a file (Debian Policy 5.1), 10 to 12 about its paragraphs
/// (5.2 to 5.4), 13 to 21 about the value of a field (5.6 and chapter 7), and 22 and 23 about the
/// arguments of a query.
#[derive(Clone, Copy, Debug, PartialEq, Eq)]
pub enum Code {
    /// The line isn't UTF-8.
    NotUtf8 = 1,
    /// The line begins with `-----BEGIN PGP`.
    Armour = 2,
    /// The line begins with `#`.
    Comment = 3,
    /// A paragraph's first line begins with a space or a tab.
    StrayContinuation = 4,
    /// The bytes before the colon aren't a field name.
    BadFieldName = 5,
    /// The first line of a field has no colon.
    NoColon = 6,
    /// The paragraph already has a field of this name.
    DuplicateField = 7,
    /// The lines of the paragraph, or of its canonical text, have more than 16,777,216 bytes.
    ParagraphTooLong = 8,
    /// The file, or its canonical text, has more than 4,294,967,295 bytes.
    FileTooLong = 9,
    /// A file that must have one paragraph has none.
    NoParagraph = 10,
    /// A file that must have one paragraph has a second one.
    TooManyParagraphs = 11,
    /// A required field is missing.
    MissingField = 12,
    /// A body has more than one line, in a field that allows only one.
    NotOneLine = 13,
    /// Not a package name, or in the field Source not `name (version)` either.
    BadName = 14,
    /// Not one or more decimal digits.
    BadNumber = 15,
    /// Not one of the words that the field allows.
    BadWord = 16,
    /// Not an architecture name.
    BadArchitecture = 17,
    /// Not a version (Debian Policy 5.6.12).
    BadVersion = 18,
    /// Not a relation (Debian Policy 7.1).
    BadRelation = 19,
    /// A group has two or more alternatives, in a field that allows only one.
    AlternativesNotAllowed = 20,
    /// An operator other than `=` in Provides.
    ProvidesBound = 21,
    /// An architecture list of a query contains a wildcard.
    Wildcard = 22,
    /// The target architecture or a profile name isn't valid.
    BadEnvironment = 23,
}

/// What is printed of a code.
#[derive(Clone, Copy)]
struct CodeTexts {
    name: &'static [u8],
    /// The rule that is broken, with its section of Debian Policy or its manual page.
    rule: &'static str,
    usual_cause: Option<&'static str>,
}

/// The texts of the codes, in the order of their numbers.
const TEXTS: [CodeTexts; 23] = [
    CodeTexts {
        name: b"NotUtf8",
        rule: "The file must be UTF-8 text (Debian Policy 5.1).",
        usual_cause: Some("a compressed file, UTF-16 with a byte order mark, or Latin-1"),
    },
    CodeTexts {
        name: b"Armour",
        rule: "No line may begin with `-----BEGIN PGP`; extract the text of a signed file first.",
        usual_cause: Some("an `InRelease` file, or a signed `.dsc` or `.changes` file"),
    },
    CodeTexts {
        name: b"Comment",
        rule: "No line may begin with `#`; the comments of debian/control aren't supported \
            (deb822(5)).",
        usual_cause: Some("a `debian/control` with comments, or a configuration file"),
    },
    CodeTexts {
        name: b"StrayContinuation",
        rule: "The first line of a paragraph must not begin with a space or tab (Debian Policy \
            5.1).",
        usual_cause: Some("a blank line within a field; write it as ` .`"),
    },
    CodeTexts {
        name: b"BadFieldName",
        rule: "The name before the colon must be printable ASCII without spaces, must not be \
            empty, and must not begin with `#` or `-` (Debian Policy 5.1).",
        usual_cause: Some("a space before the colon, a byte order mark, or UTF-16 without one"),
    },
    CodeTexts {
        name: b"NoColon",
        rule: "The first line of a field must have a colon after the name (Debian Policy 5.1).",
        usual_cause: Some(
            "no control data, a blank line within a field, or lines that end in CR \
            LF",
        ),
    },
    CodeTexts {
        name: b"DuplicateField",
        rule: "A paragraph must not contain two fields of the same name; case doesn't matter \
            (Debian Policy 5.1).",
        usual_cause: Some("two paragraphs without an empty line between them"),
    },
    CodeTexts {
        name: b"ParagraphTooLong",
        rule: "A paragraph, and its canonical text, must have at most 16,777,216 bytes.",
        usual_cause: None,
    },
    CodeTexts {
        name: b"FileTooLong",
        rule: "A file, and its canonical text, must have at most 4,294,967,295 bytes.",
        usual_cause: None,
    },
    CodeTexts {
        name: b"NoParagraph",
        rule: "A file of this kind must contain exactly one paragraph (Debian Policy 5.3, 5.4).",
        usual_cause: Some("an empty file, such as a failed command leaves"),
    },
    CodeTexts {
        name: b"TooManyParagraphs",
        rule: "A file of this kind must contain exactly one paragraph (Debian Policy 5.3, 5.4).",
        usual_cause: Some("an index instead of a control file; use another `--kind`"),
    },
    CodeTexts {
        name: b"MissingField",
        rule: "Each paragraph must contain the fields that this kind of file requires (Debian \
            Policy 5.3, 5.4).",
        usual_cause: Some("the wrong `--kind` for this file"),
    },
    CodeTexts {
        name: b"NotOneLine",
        rule: "The value of this field must be a single line (Debian Policy 5.1).",
        usual_cause: Some("a value that was folded into several lines"),
    },
    CodeTexts {
        name: b"BadName",
        rule: "A package name must be at least two of the characters a-z, 0-9, `+`, `-` and `.`, \
            and begin with a letter or digit; Source is a name, or `name (version)` (Debian \
            Policy 5.6.1).",
        usual_cause: Some("upper case, an underscore, or a trailing CR"),
    },
    CodeTexts {
        name: b"BadNumber",
        rule: "Installed-Size (Debian Policy 5.6.20) and Size must be one or more decimal digits.",
        usual_cause: Some("a unit after the number"),
    },
    CodeTexts {
        name: b"BadWord",
        rule: "Essential must be `yes` or `no` (Debian Policy 5.6.9), and Multi-Arch must be \
            `no`, `same`, `foreign` or `allowed` (deb-control(5)).",
        usual_cause: Some("upper case, or a misspelled word"),
    },
    CodeTexts {
        name: b"BadArchitecture",
        rule: "A binary package must name one architecture, a source package any number (Debian \
            Policy 5.6.8); a name consists of a-z, 0-9 and `-`, and begins with a letter or \
            digit.",
        usual_cause: Some("a `Sources` index read as `packages`, or upper case"),
    },
    CodeTexts {
        name: b"BadVersion",
        rule: "A version must have the form [epoch:]upstream[-revision] (Debian Policy 5.6.12); \
            it consists of letters, digits, `.`, `+` and `~`, and upstream may also contain `-` \
            and `:`. The epoch consists of digits, and no part is empty.",
        usual_cause: Some(
            "an underscore, an empty revision, a trailing CR, or a substitution \
            variable",
        ),
    },
    CodeTexts {
        name: b"BadRelation",
        rule: "The value must be a list of packages, with versions in parentheses (Debian Policy \
            7.1).",
        usual_cause: Some(
            "a substitution variable, a version without an operator, or upper case \
            in a name",
        ),
    },
    CodeTexts {
        name: b"AlternativesNotAllowed",
        rule: "This field must not contain alternatives with `|` (Debian Policy 7.1).",
        usual_cause: Some("`|` in Provides, Conflicts, Breaks or Replaces"),
    },
    CodeTexts {
        name: b"ProvidesBound",
        rule: "A version in Provides must have the operator `=` (Debian Policy 7.1).",
        usual_cause: Some("a version that was copied from Depends"),
    },
    CodeTexts {
        name: b"Wildcard",
        rule: "The architecture lists of a query must not contain wildcards such as `any` or \
            `linux-any`.",
        usual_cause: Some("`[linux-any]` from Build-Depends; name the architecture instead"),
    },
    CodeTexts {
        name: b"BadEnvironment",
        rule: "A query must be for one architecture, not for `all` or a wildcard, and each of \
            its profiles must be a valid name.",
        usual_cause: Some("`all` or a wildcard as the architecture, or an empty profile name"),
    },
];

impl Code {
    /// Returns the name of the code, as it is printed.
    pub fn name(self) -> &'static [u8]
        ensures { result.now ≡ name_of self }
    {
        self.texts().name
    }

    /// Returns the rule that is broken by a refusal with this code, in a sentence, with its section
    /// of Debian Policy or its manual page. A rule without one is this project's own.
    pub fn rule(self) -> &'static str
        ensures { result.now ≡ rule_of self }
    {
        self.texts().rule
    }

    /// Returns the usual cause of a refusal with this code, in a few words, or `None` if there is
    /// no usual cause.
    pub fn usual_cause(self) -> Option<&'static str>
        ensures { option_map (λ words. words.now) result ≡ usually_of self }
    {
        self.texts().usual_cause
    }

    /// The row of the code in the table.
    fn texts(self) -> CodeTexts
        ensures name { result.name.now ≡ name_of self }
        ensures rule { result.rule.now ≡ rule_of self }
        ensures usual_cause { option_map (λ words. words.now) result.usual_cause
            ≡ usually_of self }
    {
        TEXTS[self as usize - 1]
    }
}
