//! The names that a package provides, found by binary search.

ghost use Rattle.std.specs.Prelude.{◌≡◌, ◌+◌, ◌≤◌, length, map};
ghost use Rattle.std.specs.List.{All, AllPairs, filter, list_any};
ghost use Rattle.std.specs.Str.{bytes_eq};
ghost use Rattle.deb_relation.specs.Views.{alternative_of};
ghost use Rattle.deb_index.specs.Entries.{IsFaultless, entry_name, provision_at};
ghost use Rattle.deb_index.specs.Meeting.{provision_meets};
ghost use Rattle.deb_index.specs.ProvidedNames.{IsNotAfter};
ghost use Rattle.deb_index.specs.Spans.{part};

use crate::entry::Entry;
use deb_relation::Alternative;

/// What a package provides, in the byte order of the names, so that the entries of a name are
/// neighbours.
#[derive(Clone, Copy, Debug)]
pub(crate) struct Provisions<'a> {
    pub(crate) text: &'a [u8],
    pub(crate) entries: &'a [Entry],
    ghost ascend: { AllPairs IsNotAfter (map (entry_name text.now) entries.now) },
    ghost faultless: { All (IsFaultless text.now) entries.now },
}

impl<'a> Provisions<'a> {
    /// Whether some provided name meets an alternative.
    pub(crate) fn meet(&self, alternative: &Alternative<'_>) -> bool
        ensures { result ≡ list_any (provision_meets (alternative_of alternative.now))
            (map (provision_at self.now.text.now) self.now.entries.now) }
    {
        some_meets(self.text, self.named(alternative.name()), alternative)
    }

    /// The entries of a name.
    pub(crate) fn named(&self, name: &[u8]) -> &'a [Entry]
        ensures value { result.now
            ≡ filter (λ entry. bytes_eq (entry_name self.now.text.now entry) name.now)
            self.now.entries.now }
        ensures faultless { All (IsFaultless self.now.text.now) result.now }
    {
        self.find(name).1
    }

    /// The index at which the entries of a name begin, and these entries.
    pub(crate) fn find(&self, name: &[u8]) -> (usize, &'a [Entry])
        ensures value { result.1.now
            ≡ filter (λ entry. bytes_eq (entry_name self.now.text.now entry) name.now)
            self.now.entries.now }
        ensures within { result.0 + length result.1.now ≤ length self.now.entries.now }
        ensures place { result.1.now
            ≡ part result.0 (result.0 + length result.1.now) self.now.entries.now }
    {
        let text = self.text;
        let entries = self.entries;
        let start = entries.partition_point(|entry| entry.compare_name(text, name).is_lt());
        let rest = &entries[start..];
        let count = rest.partition_point(|entry| entry.compare_name(text, name).is_le());
        (start, &rest[..count])
    }
}

/// Whether some entry meets an alternative.
fn some_meets(text: &[u8], entries: &[Entry], alternative: &Alternative<'_>) -> bool
    requires { All (IsFaultless text.now) entries.now }
    ensures { result ≡ list_any
        (λ e. provision_meets (alternative_of alternative.now) (provision_at text.now e))
        entries.now }
{
    for entry in entries {
        if entry.meets(text, alternative) {
            return true;
        }
    }
    false
}
