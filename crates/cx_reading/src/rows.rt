//! Rows of items.
ghost use Rattle.std.specs.Prelude.{Option as option};
ghost use Rattle.cx_reading.specs.Parsing as parsing;
ghost use Rattle.cx_reading.specs.Parsing.{Parser, Reads, IsReader};

use crate::cursor::Cursor;
use crate::refusal::Refusal;
use sqlite_items::Items;
use std::alloc::Global;

/// Reads items up to the first that is absent.
#[tactic(auto, unfolding(crate::specs::Parsing::many))]
pub fn many<T: Drop, F: Fn(&mut Cursor<'_>) -> Result<Option<T>, Refusal>>(
    alloc: Global,
    cursor: &mut Cursor<'_>,
    item: F,
) -> Result<Items<T>, Refusal>
    requires { F.IsAlwaysCallable item }
    ensures { (p : Parser (option T)) → IsReader p (F.post item) → Reads (parsing.many p
        cursor.old) result cursor.new }
{
    let mut items = Items::new(alloc);
    for _turn in 0..cursor.left() {
        match item(cursor)? {
            None => return Ok(items),
            Some(found) => items.push(found)?,
        }
    }
    Ok(items)
}
