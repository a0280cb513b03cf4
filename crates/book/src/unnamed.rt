ghost use Rattle.std.specs.Prelude.{◌≡◌, ◌<◌, ◌≤◌, true, [], ◌∷◌, length, drop, is_ok, MatchResult, nat_le, nat_lt};
ghost use Rattle.elements.specs.declared.error.LoadError.TheVariants.{TableFull, MeshFull};
ghost use Rattle.elements.specs.Cells.{most, blanked};
ghost use Rattle.elements.specs.Checks.{refusal, first};
ghost use Rattle.elements.specs.Rows.{held, items, room, Pushed};
ghost use Rattle.book.specs.Held.{contained};
ghost use Rattle.book.specs.Unnamed.{named_among, others, unnamed_checks, Unnames, Lists};

use crate::attribute::push_or;
use crate::book::Book;
use elements::corner::VertexIndices;
use elements::error::LoadError;
use elements::row::Row;
use tables::key::Reference;
use tables::table::CornerTable;

impl Book {
    // Lists the positions that no waiting corner names, by their numbers from 0. The order is left open.
    // The table is needed on the way only, and ends empty.
    #[tactic(auto, using(crate::proofs::UnnamedFacts::blanked_again))]
    pub fn unnamed<T: CornerTable<Reference>>(
        &self,
        table: &mut T,
        list: &mut Row<u32>,
    ) -> Result<(), LoadError>
        ensures refused { refusal result ≡ first (unnamed_checks (T.CornerTable.capacity table.old) (room list.old) (contained self.now)) }
        ensures numbers { Lists (refusal result) (contained self.now) (items list.new) }
        ensures cells { drop list.new.count (held list.new) ≡ drop list.new.count (blanked (held list.old) 0) }
        ensures room { room list.new ≡ room list.old }
        ensures sound { T.CornerTable.sound table.new }
        ensures none { T.CornerTable.keys table.new ≡ [] }
        ensures capacity { T.CornerTable.capacity table.new ≡ T.CornerTable.capacity table.old }
    {
        list.clear(0);
        let answer = self.list_unnamed(table, list);
        // granted or not, the table ends empty, and a refused call leaves its list cleared
        table.empty();
        if answer.is_err() {
            list.clear(0);
        }
        answer
    }

    // The same of a cleared list, where a refused call leaves what it has entered and listed by then.
    #[tactic(auto, using(crate::proofs::UnnamedFacts::tells))]
    fn list_unnamed<T: CornerTable<Reference>>(
        &self,
        table: &mut T,
        list: &mut Row<u32>,
    ) -> Result<(), LoadError>
        requires { list.old.count ≡ 0 }
        ensures refused { refusal result ≡ first (unnamed_checks (T.CornerTable.capacity table.old) (room list.old) (contained self.now)) }
        ensures numbers { is_ok result ≡ true → Unnames (contained self.now) (items list.new) }
        ensures past { drop list.new.count (held list.new) ≡ drop list.new.count (held list.old) }
        ensures room { room list.new ≡ room list.old }
        ensures capacity { T.CornerTable.capacity table.new ≡ T.CornerTable.capacity table.old }
    {
        let positions = self.attributes.positions.count;
        enter_named(table, self.waiting.corners.as_slice(), positions)?;
        list_others(table, positions, list)
    }
}

// Enters those of the first `positions` positions that corners name.
#[tactic(auto, using(crate::proofs::UnnamedFacts::enters))]
fn enter_named<T: CornerTable<Reference>>(
    named: &mut T,
    corners: &[VertexIndices],
    positions: usize,
) -> Result<(), LoadError>
    ensures refused { refusal result ≡ first ((nat_lt (T.CornerTable.capacity named.old) (length (named_among positions corners.now)), TableFull) ∷ []) }
    ensures holds { is_ok result ≡ true → T.CornerTable.keys named.new ≡ named_among positions corners.now }
    ensures sound { T.CornerTable.sound named.new }
    ensures capacity { T.CornerTable.capacity named.new ≡ T.CornerTable.capacity named.old }
{
    named.empty();
    for corner in corners {
        if corner.v < positions {
            named
                .enter(Reference { at: corner.v })
                .ok_or(LoadError::TableFull)?;
        }
    }
    Ok(())
}

// Appends the numbers below `positions` that the table does not hold.
#[tactic(auto, using(crate::proofs::UnnamedFacts::lists))]
fn list_others<T: CornerTable<Reference>>(
    named: &T,
    positions: usize,
    list: &mut Row<u32>,
) -> Result<(), LoadError>
    requires sound { T.CornerTable.sound named.now }
    requires few { positions ≤ most }
    requires blank { list.old.count ≡ 0 }
    ensures refused { refusal result ≡ first ((nat_lt (room list.old) (length (others positions (T.CornerTable.keys named.now))), MeshFull) ∷ []) }
    ensures listed { is_ok result ≡ true → items list.new ≡ others positions (T.CornerTable.keys named.now) }
    ensures past { drop list.new.count (held list.new) ≡ drop list.new.count (held list.old) }
    ensures room { room list.new ≡ room list.old }
{
    for at in 0..positions {
        if named.find(&Reference { at }).is_none() {
            push_or(list, at as u32, LoadError::MeshFull)?;
        }
    }
    Ok(())
}
