//! Lines of a script read as items.

ghost use Rattle.std.specs.Prelude.{◌≡◌, ◌≤◌, ◌<◌, ◌↔◌, length, IfOk, Ok, Err};
ghost use Rattle.std.specs.List.{list_all};
ghost use Rattle.gd_script.specs.Grammar.{InGrammar, Says};
ghost use Rattle.gd_script.specs.Reading.{is_comment, is_printable, item_of, read_of};
ghost use Rattle.gd_script.specs.declared.item.Item.{Item};
ghost use Rattle.gd_script.specs.declared.item.LineFault.{LineFault};

use crate::fields::read_keyword;
use crate::item::{Item, LineFault};
use crate::items::{bare_item, item_with};
use crate::limits::{COMMENT_MARK, LAST_PRINTABLE, LINE_LEN, SPACE};
use crate::words::split_first;

/// The item that a line says, its LF not among its bytes. TooLong comes where it has more than 120 bytes, whatever they
/// are, and NotALine where it isn't too long and is no line of the grammar. docs/FORMATS.md has the grammar.
pub fn read_line(line: &[u8]) -> Result<Item, LineFault>
    ensures value { result ≡ read_of line.now }
    ensures item { (i : Item) → (result ≡ Ok i) ↔ ((length line.now ≤ LINE_LEN) × Says line.now i) }
    ensures too_long { (result ≡ Err LineFault.TooLong) ↔ (LINE_LEN < length line.now) }
    ensures not_a_line { (result ≡ Err LineFault.NotALine) ↔
        ((length line.now ≤ LINE_LEN) × ((i : Item) → ¬ Says line.now i)) }
    // What was read can be printed.
    ensures grammar { IfOk result InGrammar }
{
    if line.len() > LINE_LEN {
        return Err(LineFault::TooLong);
    }
    read_item(line).ok_or(LineFault::NotALine)
}

/// The item that a line of any length says, or none.
#[tactic(auto, unfolding(crate::specs::Reading::item_of, crate::specs::Reading::item_of_words))]
fn read_item(line: &[u8]) -> Option<Item>
    ensures { result ≡ item_of line.now }
{
    if is_comment(line) {
        return Some(Item::Skip);
    }
    let (first, rest) = split_first(line);
    let keyword = read_keyword(first)?;
    match rest {
        None => bare_item(keyword),
        Some(fields) => item_with(keyword, fields),
    }
}

/// Whether a line is empty, or begins with `#` and has printable bytes alone.
fn is_comment(line: &[u8]) -> bool
    ensures { result ≡ is_comment line.now }
{
    match line {
        [] => true,
        [first, rest @ ..] => *first == COMMENT_MARK && are_printable(rest),
    }
}

/// Whether the bytes are printable ASCII and spaces.
fn are_printable(bytes: &[u8]) -> bool
    ensures { result ≡ list_all is_printable bytes.now }
{
    bytes
        .iter()
        .all(|byte| matches!(*byte, SPACE..=LAST_PRINTABLE))
}
