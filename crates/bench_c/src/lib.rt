// The calls of `bench` under their C names: the archive libbench.a.
#![tactic(auto)]

ghost use Rattle.std.specs.Prelude.{◌≡◌};
ghost use Rattle.answers.specs.Numbers.{answer_number};
ghost use Rattle.image.specs.Store.{held};
ghost use Rattle.decision_steps.specs.Request.{asked};
ghost use Rattle.decision_steps.specs.Decision.{answer};
ghost use Rattle.edit_rules.specs.Edits.{edit_of};
ghost use Rattle.edits.specs.Calls.{edited_number, OwnerEdits};
ghost use Rattle.image_transfer.specs.Transfer.{loaded_number, Reads, Writes};
ghost use Rattle.bench.specs.Measured.{operation_numbered, table_numbered, length_number, Numbered};

use image::ROOM;

// `is_access_allowed`, by its number.
#[unsafe(no_mangle)]
pub extern "C" fn bench_decide(
    store: &[u8],
    model: u32,
    name: &[u8],
    level: u32,
    view_type: u32,
    context: &[u8],
    variable: &[u32],
) -> u32
    ensures { result ≡ answer_number (answer (held store.now)
        (asked model name.now level view_type context.now variable.now)) }
{
    bench::bench_decide(store, model, name, level, view_type, context, variable)
}

// The owner's edit, by its number.
#[unsafe(no_mangle)]
pub extern "C" fn bench_owner_edit(
    store: &mut [u8],
    operation: u32,
    table: u32,
    bytes: &[u8],
) -> u32
    ensures { Numbered edited_number (OwnerEdits (edit_of (operation_numbered operation) (table_numbered table) bytes.now)
        store.old store.new) result }
{
    bench::bench_owner_edit(store, operation, table, bytes)
}

// An image read into a store, by its number.
#[unsafe(no_mangle)]
pub extern "C" fn bench_read_image(image: &[u8], store: &mut [u8; ROOM]) -> u32
    ensures { Numbered loaded_number (Reads image.now store.old store.new) result }
{
    bench::bench_read_image(image, store)
}

// A store's image written, by its length or its number.
#[unsafe(no_mangle)]
pub extern "C" fn bench_write_image(store: &[u8], out: &mut [u8]) -> u64
    ensures { Numbered length_number (Writes (held store.now) out.old out.new) result }
{
    bench::bench_write_image(store, out)
}
