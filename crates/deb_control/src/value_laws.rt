//! Laws of acceptance, refusals and canonical text, for values of any type that has canonical text,
//! any kinds of field names, and any rules that are those of the values. Each function does
//! nothing; its contract is the law.

ghost use Rattle.std.specs.Prelude.{ℕ, List};
ghost use Rattle.deb_control.specs.Rules.{Rules, AreRulesOf};
ghost use Rattle.deb_control.specs.AcceptanceLaws.{RefusedOrAccepted, AcceptedMeansOneThing, AcceptedIsWritten, CanonicalTextIsAccepted, CanonicalTextTellsAccepted, CanonicalTextIsItsOwn};

use deb_field::Canon;

/// A file has no refusal exactly if it is accepted with some meaning.
pub fn a_file_is_refused_or_accepted<V: Canon>()
    ensures { (kind : List ℕ → V.Kinds) (rules : Rules)
        → AreRulesOf V.Meaning (λ name. V.Spells (kind name)) V.text_of rules
        → RefusedOrAccepted V.Meaning (λ name. V.Spells (kind name)) V.text_of rules }
{}

/// A file is accepted with at most one meaning.
pub fn an_accepted_file_means_one_thing<V: Canon>()
    ensures { (kind : List ℕ → V.Kinds) (rules : Rules)
        → AcceptedMeansOneThing V.Meaning (λ name. V.Spells (kind name)) V.text_of rules }
{}

/// What is written for an accepted file is the canonical text of its meaning.
pub fn canonical_text_is_written_of_an_accepted_file<V: Canon>()
    ensures { (kind : List ℕ → V.Kinds) (rules : Rules)
        → AreRulesOf V.Meaning (λ name. V.Spells (kind name)) V.text_of rules
        → AcceptedIsWritten V.Meaning (λ name. V.Spells (kind name)) V.text_of rules }
{}

/// The canonical text of an accepted file is accepted with the same meaning, so it is within both
/// limits.
pub fn canonical_text_is_accepted<V: Canon>()
    ensures { (kind : List ℕ → V.Kinds) (rules : Rules)
        → CanonicalTextIsAccepted V.Meaning (λ name. V.Spells (kind name)) V.text_of rules }
{}

/// Two files that are accepted by the same rules have equal canonical text exactly if they mean the
/// same.
pub fn canonical_text_tells_meanings<V: Canon>()
    ensures { (kind : List ℕ → V.Kinds) (rules : Rules)
        → CanonicalTextTellsAccepted V.Meaning (λ name. V.Spells (kind name)) V.text_of rules }
{}

/// The canonical text of an accepted file has no refusal, and what is written for it is itself.
pub fn canonical_text_is_its_own<V: Canon>()
    ensures { (kind : List ℕ → V.Kinds) (rules : Rules)
        → AreRulesOf V.Meaning (λ name. V.Spells (kind name)) V.text_of rules
        → CanonicalTextIsItsOwn V.Meaning (λ name. V.Spells (kind name)) V.text_of rules }
{}
