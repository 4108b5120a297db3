//! Laws of trees.
ghost use Rattle.std.specs.Prelude.{◌≡◌, ◌≤◌, ℕ, List, IsUtf8};
ghost use Rattle.std.specs.List.{AllByRecursion};
ghost use Rattle.wk_tree_laws.specs.Places.{AreItemsIn, IsItemIn, IsMerged, IsNodeIn};
ghost use Rattle.wk_tree_rules.specs.Selection.{selected};
ghost use Rattle.wk_tree_rules.specs.Tree.{lists, nodes, tree};
ghost use Rattle.wk_tree_rules.specs.Trees.{items_source, items_height, source_of};
ghost use Rattle.wk_tree_rules.specs.declared.Mode.{Mode};

/// A tree stands for the whole selected text.
pub fn a_tree_stands_for_the_selected_text()
    ensures { (mode : Mode) (text : List ℕ) → items_source (tree mode text) ≡ selected mode text }
{}

/// No tree is higher than 100 nodes within each other.
pub fn no_tree_is_higher_than_100()
    ensures { (mode : Mode) (text : List ℕ) → items_height (tree mode text) ≤ 100 }
{}

/// The items of each list of a tree stand in the selected text, one behind the other.
pub fn every_list_stands_in_the_text()
    ensures { (mode : Mode) (text : List ℕ) → AllByRecursion (AreItemsIn (selected mode text)) (lists (tree mode text)) }
{}

/// Each item of each list of a tree stands in the selected text where it says.
pub fn every_item_stands_where_it_says()
    ensures { (mode : Mode) (text : List ℕ) → AllByRecursion (AllByRecursion (IsItemIn (selected mode text))) (lists (tree mode text)) }
{}

/// Each node of a tree stands in the selected text where it says, and so does the value of each of its parts.
pub fn every_node_stands_where_it_says()
    ensures { (mode : Mode) (text : List ℕ) → AllByRecursion (IsNodeIn (selected mode text)) (nodes (tree mode text)) }
{}

/// No list of a tree has two items of plain text one behind the other.
pub fn plain_text_is_as_long_as_it_can_be()
    ensures { (mode : Mode) (text : List ℕ) → AllByRecursion IsMerged (lists (tree mode text)) }
{}

/// Each item of each list of a tree of UTF-8 is UTF-8.
pub fn every_item_of_utf8_is_utf8()
    ensures { (mode : Mode) (text : List ℕ) → IsUtf8 text → AllByRecursion (AllByRecursion (λ i. IsUtf8 (source_of i))) (lists (tree mode text)) }
{}
