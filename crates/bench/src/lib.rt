// The calls on a store, for the benchmark to measure beside another implementation: the crate `bench_c` exports them. An agent in C links the
// archive of `dugwalen_c`.
#![tactic(auto)]

ghost use Rattle.std.specs.Prelude.{◌≡◌};
ghost use Rattle.answers.specs.Numbers.{answer_number};
ghost use Rattle.image.specs.Store.{held};
ghost use Rattle.decision_steps.specs.Request.{asked};
ghost use Rattle.decision_steps.specs.Decision.{answer};
ghost use Rattle.edit_rules.specs.Edits.{edit_of};
ghost use Rattle.edits.specs.Calls.{edited_number, OwnerEdits};
ghost use Rattle.image_transfer.specs.Transfer.{loaded_number, Reads, Writes};
ghost use Rattle.bench.specs.Measured.{operation_numbered, table_numbered, length_number, Numbered};

use answers::Fault;
use edit_rules::Operation;
use image::ROOM;
use rows::Table;

pub fn table_numbered(n: u32) -> Table
    ensures { result ≡ table_numbered n }
{
    if n == 0 {
        return Table::Context;
    }
    if n == 1 {
        return Table::Mapping;
    }
    if n == 2 {
        return Table::Access;
    }
    Table::View
}

pub fn operation_numbered(n: u32) -> Operation
    ensures { result ≡ operation_numbered n }
{
    if n == 0 {
        return Operation::Create;
    }
    if n == 1 {
        return Operation::Change;
    }
    Operation::Remove
}

fn length_number(w: Result<usize, Fault>) -> u64
    ensures { result ≡ length_number w }
{
    match w {
        Ok(n) => n as u64,
        Err(f) => 4294967296 + answers::fault_number(f) as u64,
    }
}

// `is_access_allowed`, by its number.
pub fn bench_decide(
    store: &[u8],
    model: u32,
    name: &[u8],
    level: u32,
    view_type: u32,
    context: &[u8],
    variable: &[u32],
) -> u32
    ensures { result ≡ answer_number (answer (held store.now)
        (asked model name.now level view_type context.now variable.now)) }
{
    answers::answer_number(decision::is_access_allowed(
        store, model, name, level, view_type, context, variable,
    ))
}

// The owner's edit, by its number.
pub fn bench_owner_edit(store: &mut [u8], operation: u32, table: u32, bytes: &[u8]) -> u32
    ensures { Numbered edited_number (OwnerEdits (edit_of (operation_numbered operation) (table_numbered table) bytes.now)
        store.old store.new) result }
{
    edits::edited_number(edits::owner_edit(
        store,
        operation_numbered(operation),
        table_numbered(table),
        bytes,
    ))
}

// An image read into a store, by its number.
pub fn bench_read_image(image: &[u8], store: &mut [u8; ROOM]) -> u32
    ensures { Numbered loaded_number (Reads image.now store.old store.new) result }
{
    image_transfer::loaded_number(image_transfer::read_image(image, store))
}

// A store's image written, by its length or its number.
pub fn bench_write_image(store: &[u8], out: &mut [u8]) -> u64
    ensures { Numbered length_number (Writes (held store.now) out.old out.new) result }
{
    length_number(image_transfer::write_image(store, out))
}
