//! What the reader gives, by the grammar.

ghost use Rattle.std.specs.Prelude.{◌≡◌, ◌↔◌, ◌≤◌, ℕ, List, All, length, Some, Ok};
ghost use Rattle.gd_script.specs.declared.item.Item.{Item};
ghost use Rattle.gd_script.specs.declared.limits.TheConstants.{LINE_LEN};
ghost use Rattle.gd_script.specs.Grammar.{InGrammar, IsPrintable, Says, line_text};
ghost use Rattle.gd_script.specs.Reading.{item_of, read_of};

/// A line is read as an item exactly where it says that item.
pub fn reads_the_grammar()
    ensures { (line : List ℕ) (item : Item) → item_of line ≡ Some item ↔ Says line item }
{}

/// A line says at most one item.
pub fn one_item()
    ensures { (line : List ℕ) (a b : Item) → Says line a → Says line b → a ≡ b }
{}

/// A line that says an item is printable ASCII and spaces alone, so no line has an end of line or a tab in it.
pub fn printable_lines()
    ensures { (line : List ℕ) (item : Item) → Says line item → All IsPrintable line }
{}

/// The printed text of an item is short enough for a line, says the item, and is read as it.
pub fn reads_back()
    ensures short { (item : Item) → InGrammar item → length (line_text item) ≤ LINE_LEN }
    ensures says { (item : Item) → InGrammar item → Says (line_text item) item }
    ensures again { (item : Item) → InGrammar item → read_of (line_text item) ≡ Ok item }
{}
