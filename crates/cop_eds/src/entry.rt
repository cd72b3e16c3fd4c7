//! The entries of an index, and their order.

ghost use Rattle.std.specs.Prelude.{◌≡◌};
ghost use Rattle.std.proofs.Common.{rules};
ghost use Rattle.std.specs.Cmp.{partial_order_from_total, then_total, on_total, nat_cmp_total, eq_by_cmp_equiv, partial_equiv_from_equiv};
ghost use Rattle.std.specs.Cmp.Lexicographic.{slice_cmp, lists_total};
ghost use Rattle.std.specs.Cmp.Rules.{comparing};
ghost use Rattle.std.specs.Ordering.{nat_cmp, as_partial_cmp, eq_by_cmp};
ghost use Rattle.std.specs.Str.{str_to_ascii_lowercase};
ghost use Rattle.cop_eds.specs.Index.{sort_key, entry_cmp};

use std::cmp::Ordering;

/// A line that is found by a name. `group` is 0 for objects' sections, which `code` numbers; 1 for other sections, by
/// `name`; 2 for the keys of the section `code`, by `name`. `line` is the line's number.
#[derive(Clone, Copy)]
pub struct Entry<'a> {
    pub group: u8,
    pub code: u64,
    pub name: &'a [u8],
    pub line: usize,
}

/// Compares two names without ASCII case.
fn compare_names(left: &[u8], right: &[u8]) -> Ordering
    ensures { result ≡ slice_cmp nat_cmp (str_to_ascii_lowercase left.now) (str_to_ascii_lowercase right.now) }
{
    let mut left = left;
    let mut right = right;
    while let Some((a, left_rest)) = left.split_first() {
        let Some((b, right_rest)) = right.split_first() else {
            return Ordering::Greater;
        };
        let order = a.to_ascii_lowercase().cmp(&b.to_ascii_lowercase());
        if order != Ordering::Equal {
            return order;
        }
        left = left_rest;
        right = right_rest;
    }
    if right.is_empty() {
        Ordering::Equal
    } else {
        Ordering::Less
    }
}

/// Compares what two entries are found by.
pub fn compare_keys(left: &Entry<'_>, right: &Entry<'_>) -> Ordering
    ensures { result ≡ slice_cmp nat_cmp (sort_key left.now) (sort_key right.now) }
{
    let order = left.group.cmp(&right.group);
    if order != Ordering::Equal {
        return order;
    }
    let order = left.code.cmp(&right.code);
    if order != Ordering::Equal {
        return order;
    }
    compare_names(left.name, right.name)
}

impl PartialEq for Entry<'_> {
    ghost eq = { eq_by_cmp entry_cmp };

    ghost laws = { partial_equiv_from_equiv (eq_by_cmp_equiv (then_total (on_total sort_key (lists_total nat_cmp_total)) (on_total (λ entry. entry.line) nat_cmp_total))) };

    fn eq(&self, other: &Entry<'_>) -> bool {
        self.cmp(other) == Ordering::Equal
    }
}

impl Eq for Entry<'_> {
    ghost laws = { eq_by_cmp_equiv (then_total (on_total sort_key (lists_total nat_cmp_total)) (on_total (λ entry. entry.line) nat_cmp_total)) };
}

impl PartialOrd for Entry<'_> {
    ghost partial_cmp = { as_partial_cmp entry_cmp };

    ghost laws = { partial_order_from_total (then_total (on_total sort_key (lists_total nat_cmp_total)) (on_total (λ entry. entry.line) nat_cmp_total)) };

    fn partial_cmp(&self, other: &Entry<'_>) -> Option<Ordering> {
        Some(self.cmp(other))
    }
}

impl Ord for Entry<'_> {
    ghost cmp = { entry_cmp };

    ghost total = { then_total (on_total sort_key (lists_total nat_cmp_total)) (on_total (λ entry. entry.line) nat_cmp_total) };

    ghost matches_partial_cmp = { Prim.search (comparing, rules) };

    ghost matches_eq = { Prim.search (comparing, rules) };

    fn cmp(&self, other: &Entry<'_>) -> Ordering {
        compare_keys(self, other).then(self.line.cmp(&other.line))
    }
}
