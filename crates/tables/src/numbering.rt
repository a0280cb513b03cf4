ghost use Rattle.std.specs.Prelude.{◌≡◌};
ghost use Rattle.tables.specs.Numbering.{Each, Numbered};

use crate::key::Key;
use crate::table::CornerTable;
use std::error::Error;
use std::fmt;

// Why keys were not numbered.
#[derive(Clone, Copy, PartialEq, Eq, Debug)]
pub enum Unnumbered {
    // There are fewer cells than keys.
    Short,
    // The key at this place, from 0, met a full table.
    Full(usize),
}

impl fmt::Display for Unnumbered {
    fn fmt<W: fmt::Write>(&self, f: &mut fmt::Formatter<W>) -> fmt::Result {
        match self {
            Unnumbered::Short => f.write_str("there are fewer cells than keys"),
            Unnumbered::Full(i) => write!(f, "the key at {i} met a full table"),
        }
    }
}

impl Error for Unnumbered {}

// Writes for each key its number, the place of its first appearance among the different ones; the table then holds these.
// Where it is refused, the table is empty, and the cells before the refused key hold the numbers of the keys before it.
pub fn number_all<T: CornerTable<K>, K: Key>(
    table: &mut T,
    keys: &[K],
    out: &mut [u32],
) -> Result<(), Unnumbered>
    ensures sound { T.CornerTable.sound table.new }
    ensures capacity { T.CornerTable.capacity table.new ≡ T.CornerTable.capacity table.old }
    ensures numbered { Numbered K.Key.meaning (T.CornerTable.capacity table.old) keys.now (T.CornerTable.keys table.new) out.old out.new result }
{
    let numbered = number_each(table, keys, out);
    // where there are too few cells, no key was entered
    if let Err(Unnumbered::Full(_)) = numbered {
        table.empty();
    }
    numbered
}

// Enters each key in turn and writes its number, up to the first that meets a full table.
fn number_each<T: CornerTable<K>, K: Key>(
    table: &mut T,
    keys: &[K],
    out: &mut [u32],
) -> Result<(), Unnumbered>
    ensures sound { T.CornerTable.sound table.new }
    ensures capacity { T.CornerTable.capacity table.new ≡ T.CornerTable.capacity table.old }
    ensures each { Each K.Key.meaning (T.CornerTable.capacity table.old) keys.now (T.CornerTable.keys table.new) out.old out.new result }
{
    table.empty();
    if out.len() < keys.len() {
        return Err(Unnumbered::Short);
    }
    // kept: `out[i]`, since the place is told too, and zipped with `out.iter_mut()` the loop would bind three names
    for (i, key) in keys.iter().enumerate() {
        out[i] = table.enter(*key).ok_or(Unnumbered::Full(i))?;
    }
    Ok(())
}
