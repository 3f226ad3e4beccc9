//! The books.

ghost use Rattle.gd_base.specs.Laws.Books.{KeepsBooks, KeepsBooksOver};

/// Nothing is lost or made in a legal history over a balanced view, as over each view that a payload spells.
pub fn nothing_lost()
    ensures history { KeepsBooks }
    ensures view { KeepsBooksOver }
{}
