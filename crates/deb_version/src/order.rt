//! Compares versions in Debian's order.

ghost use Rattle.std.specs.Prelude.{◌≡◌, ◌↔◌, ◌≢◌, ◌≤◌, ◌-◌, length, take, IsTrue, IsFalse};
ghost use Rattle.std.specs.Char.{is_ascii_digit};
ghost use Rattle.std.specs.Cmp.{eq_by_cmp_equiv, on_equiv, on_per, on_po, on_total, partial_equiv_from_equiv, po};
ghost use Rattle.std.specs.Cmp.Lexicographic.{slice_cmp};
ghost use Rattle.std.specs.List.{list_all};
ghost use Rattle.std.specs.Ordering.{as_partial_cmp, eq_by_cmp, nat_cmp, on};
ghost use Rattle.std.specs.Prelude.{map, refl, slice_index_or};
ghost use Rattle.std.specs.declared.cmp.Ordering.TheVariants.{Equal};
ghost use Rattle.deb_version.specs.OrderLemmas.{version_total};
ghost use Rattle.deb_version.specs.Canonical.{version_text};
ghost use Rattle.deb_version.specs.Cuts.{cut_of};
ghost use Rattle.deb_version.specs.Order.{component_cmp, end_rank, part_cmp, rank_of, text_cmp, version_cmp};
ghost use Rattle.deb_version.specs.Parts.{part_of, parts_of, value_of};
ghost use Rattle.deb_version.specs.Version.{meaning_of};

use crate::cut::Cut;
use crate::run::without_zeros;
use crate::version::Version;
use std::cmp::Ordering;

/// Versions with different spellings can be equal, such as `1.01` and `0:1.1-0`. Versions are equal
/// exactly if they have the same canonical text.
impl PartialEq for Version<'_> {
    ghost eq = { on meaning_of (eq_by_cmp version_cmp) };

    ghost laws = { on_per meaning_of (partial_equiv_from_equiv (eq_by_cmp_equiv version_total)) };

    fn eq(&self, other: &Self) -> bool {
        self.cmp(other).is_eq()
    }
}

impl Eq for Version<'_> {
    ghost laws = { on_equiv meaning_of (eq_by_cmp_equiv version_total) };
}

impl PartialOrd for Version<'_> {
    ghost partial_cmp = { on meaning_of (as_partial_cmp version_cmp) };

    ghost laws = { on_po meaning_of (po version_total (λ a b. refl)) };

    fn partial_cmp(&self, other: &Self) -> Option<Ordering> {
        Some(self.cmp(other))
    }
}

/// Debian's order: by epoch, then by upstream version, then by revision (Debian Policy 5.6.12;
/// deb-version(7), "Sorting algorithm"). Numbers may have any length. Takes no memory.
impl Ord for Version<'_> {
    ghost cmp = { on meaning_of version_cmp };

    ghost total = { on_total meaning_of version_total };

    ghost matches_partial_cmp = { λ a b. refl };

    ghost matches_eq = { λ a b. refl };

    fn cmp(&self, other: &Self) -> Ordering
        ensures order { result ≡ version_cmp (meaning_of self.now) (meaning_of other.now) }
        ensures canonical { (result ≡ Equal)
            ↔ (version_text (meaning_of self.now) ≡ version_text (meaning_of other.now)) }
    {
        let order = compare_epochs(self, other);
        if order.is_ne() {
            return order;
        }
        let order = compare_components(self.upstream, other.upstream);
        if order.is_ne() {
            return order;
        }
        compare_components(self.revision.unwrap_or(&[]), other.revision.unwrap_or(&[]))
    }
}

/// The epochs of two versions by their values. An absent epoch has the value 0.
fn compare_epochs(a: &Version<'_>, b: &Version<'_>) -> Ordering
    ensures { result ≡ nat_cmp (meaning_of a.now).epoch (meaning_of b.now).epoch }
{
    if a.epoch == b.epoch {
        return Ordering::Equal;
    }
    compare_runs(a.epoch.unwrap_or(&[]), b.epoch.unwrap_or(&[]))
}

/// Two upstream versions, or two revisions: what both begin with doesn't decide, and the first cuts
/// after it that differ do.
fn compare_components(a: &[u8], b: &[u8]) -> Ordering
    ensures { result ≡ component_cmp (parts_of a.now) (parts_of b.now) }
{
    let same = same_len(a, b);
    if same == a.len() && same == b.len() {
        return Ordering::Equal;
    }
    let front = len_before_run(&a[..same]);
    compare_cuts(&a[front..], &b[front..])
}

/// How many bytes two components begin with alike.
fn same_len(a: &[u8], b: &[u8]) -> usize
    ensures in_a { result ≤ length a.now }
    ensures in_b { result ≤ length b.now }
    ensures same { take result a.now ≡ take result b.now }
{
    let len = a.len().min(b.len());
    for place in 0..len {
        if a[place] != b[place] {
            return place;
        }
    }
    len
}

/// The length of a text before the run of digits in which it ends. The run may go on after it, and
/// is compared whole.
fn len_before_run(text: &[u8]) -> usize
    ensures within { result ≤ length text.now }
    ensures other_before { (result ≢ 0)
        → IsFalse (is_ascii_digit (slice_index_or text.now (result - 1) 0)) }
{
    match text.iter().rposition(|byte| !byte.is_ascii_digit()) {
        Some(place) => place + 1,
        None => 0,
    }
}

/// Two components: the first cuts that differ decide.
fn compare_cuts(a: &[u8], b: &[u8]) -> Ordering
    ensures { result ≡ component_cmp (parts_of a.now) (parts_of b.now) }
{
    let mut rest_a = a;
    let mut rest_b = b;
    loop {
        let (cut_a, after_a) = Cut::first(rest_a);
        let (cut_b, after_b) = Cut::first(rest_b);
        let order = compare_parts(cut_a, cut_b);
        if order.is_ne() || (after_a.is_empty() && after_b.is_empty()) {
            return order;
        }
        rest_a = after_a;
        rest_b = after_b;
    }
}

/// Two parts: by their texts first, then by their numbers.
fn compare_parts(a: Cut<'_>, b: Cut<'_>) -> Ordering
    ensures { result ≡ part_cmp (part_of (cut_of a.entry)) (part_of (cut_of b.entry)) }
{
    compare_texts(a.text, b.text).then_with(|| compare_runs(a.run, b.run))
}

/// Two texts without digits: the first offset whose ranks differ decides.
fn compare_texts(a: &[u8], b: &[u8]) -> Ordering
    ensures { result ≡ text_cmp a.now b.now }
{
    for place in 0..a.len().max(b.len()) {
        let order = rank_at(a, place).cmp(&rank_at(b, place));
        if order.is_ne() {
            return order;
        }
    }
    Ordering::Equal
}

/// The rank at an offset of a text: tilde, then past the end, then letters by their code, then all
/// other bytes by theirs.
fn rank_at(text: &[u8], place: usize) -> u16
    ensures { result ≡ slice_index_or (map rank_of text.now) place end_rank }
{
    match text.get(place) {
        Some(b'~') => 0,
        None => 1,
        Some(byte) if byte.is_ascii_alphabetic() => u16::from(*byte) + 1,
        Some(byte) => u16::from(*byte) + 257,
    }
}

/// Two runs of digits, of any length, by value: the longer is greater once leading zeros are left
/// out, and at one length the first digits that differ decide.
fn compare_runs(a: &[u8], b: &[u8]) -> Ordering
    requires a_digits { IsTrue (list_all is_ascii_digit a.now) }
    requires b_digits { IsTrue (list_all is_ascii_digit b.now) }
    ensures { result ≡ nat_cmp (value_of a.now) (value_of b.now) }
{
    let a = without_zeros(a);
    let b = without_zeros(b);
    let order = a.len().cmp(&b.len());
    if order.is_ne() {
        return order;
    }
    compare_digits(a, b)
}

/// Two runs of one length: the first digits that differ decide.
fn compare_digits(a: &[u8], b: &[u8]) -> Ordering
    ensures { (length a.now ≡ length b.now) → result ≡ slice_cmp nat_cmp a.now b.now }
{
    for place in 0..a.len().min(b.len()) {
        if a[place] != b[place] {
            return a[place].cmp(&b[place]);
        }
    }
    Ordering::Equal
}
