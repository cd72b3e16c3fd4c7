//! What the differences of two dictionaries say of them, and of a device that has what one of them describes.

ghost use Rattle.std.specs.Prelude.{◌≡◌, ◌+◌, ◌↔◌, ℕ, List, [], None, Ok};
ghost use Rattle.cop_dict.specs.Find.{Entry};
ghost use Rattle.cop_dict.specs.Build.{built};
ghost use Rattle.cop_compare.specs.declared.difference.Difference.{Difference};
ghost use Rattle.cop_compare.specs.Differences.{change_at, AreDifferences};
ghost use Rattle.cop_compare.specs.Identifiers.{identifier_of};
ghost use Rattle.cop_compare.specs.Laws.{AreAlikeEverywhere, HasValueAt, HasValuesOf};

/// Two dictionaries have no differences exactly if they are alike at each address.
pub fn same_is_alike_everywhere()
    ensures { (old new : List Entry) (all : List Difference) → AreDifferences old new all → (all ≡ []) ↔ AreAlikeEverywhere old new }
{}

/// Two dictionaries have one list of differences.
pub fn differences_are_one_list()
    ensures { (old new : List Entry) (all other : List Difference) → AreDifferences old new all → AreDifferences old new other → other ≡ all }
{}

/// A device that has the values that the old dictionary describes has those that the new one describes at each address that the
/// differences do not name; so it has all of them where there are no differences, and needs no boot.
pub fn same_needs_no_boot()
    ensures unnamed { (device old new : List Entry) (all : List Difference) (index sub : ℕ) → AreDifferences old new all → HasValuesOf device old
        → change_at all index sub ≡ None → HasValueAt device new index sub }
    ensures same { (device old new : List Entry) → AreDifferences old new [] → HasValuesOf device old → HasValuesOf device new }
{}

/// Two texts whose dictionaries for a node have no differences describe one dictionary for it, with the same initial values too.
pub fn same_texts_describe_one_dictionary()
    ensures { (first second : List ℕ) (node : ℕ) (old new : List Entry) → built first node ≡ Ok old → built second node ≡ Ok new → AreDifferences old new [] → new ≡ old }
{}

/// A TPDO keeps its identifier where the differences do not name its COB-ID.
pub fn unnamed_identifiers_stay()
    ensures { (old new : List Entry) (all : List Difference) (tpdo : ℕ) → AreDifferences old new all → change_at all (0x17FF + tpdo) 1 ≡ None
        → identifier_of new tpdo ≡ identifier_of old tpdo }
{}
