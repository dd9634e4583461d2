// The index of a field table under a revision, which every call makes before it reads a message.
ghost use Rattle.table_index.specs.internal.Cells.{OneOrder};
ghost use Rattle.message_calls.specs.internal.Orders.{OneOrder-prop};

use reading::{Fault, Refusal};
use table::Table;

// The cells of an index, in which no two single tags of a message number have the same order.
#[derive(Drop)]
pub(crate) struct Index {
    pub(crate) cells: [u32; 128],
    ghost one_order: { OneOrder cells } by { OneOrder-prop cells },
}

impl Index {
    ghost use Rattle.std.specs.Prelude.{◌≡◌, replicate};
    ghost use Rattle.message_calls.specs.internal.Indexes.{schema_of, schema_octets, schema_loaded};

    // The index of a table without entries.
    pub(crate) fn empty() -> Index
        ensures { result.cells ≡ replicate 128 0 }
    {
        Index { cells: [0u32; 128] }
    }

    // Builds the index of a table's octets in an empty one. Rejects the table at its first faulty record, then a number that is no revision. If the
    // index lacks a record, the first one that it lacks is faulty.
    // Kept: an index that is returned by value is copied; the check of an empty message then takes 1.7 times as many instructions.
    pub(crate) fn fill_octets(&mut self, table: &[u8], revision: u64) -> Result<(), Fault>
        requires { self.old.cells ≡ replicate 128 0 }
        ensures { schema_of result self.new.cells ≡ schema_octets table.now revision }
    {
        let end = table_index::index(table, revision, &mut self.cells);
        if end < table.len() {
            return Err(Refusal::Table.at(end as u64));
        }
        if !table_index::is_revision(revision) {
            return Err(Refusal::Table.at(0));
        }
        Ok(())
    }

    // Builds the index of a table that was loaded in an empty one. Rejects a table that the loader cannot return, then a number that is no revision.
    pub(crate) fn fill_table(&mut self, t: &Table, revision: u64) -> Result<(), Fault>
        requires { self.old.cells ≡ replicate 128 0 }
        ensures { schema_of result self.new.cells ≡ schema_loaded t.now revision }
    {
        if !table_index::index_table(&t.words, t.count, revision, &mut self.cells) {
            return Err(Refusal::Table.at(0));
        }
        if !table_index::is_revision(revision) {
            return Err(Refusal::Table.at(0));
        }
        Ok(())
    }
}
