// A principal's edit under a C name, for the benchmark. It has an archive of its own for the reason that `bench_match` has one.
#![tactic(auto)]

ghost use Rattle.edit_rules.specs.Edits.{caller_of, edit_of};
ghost use Rattle.edits.specs.Calls.{edited_number, PrincipalEdits};
ghost use Rattle.bench.specs.Measured.{operation_numbered, table_numbered, Numbered};

// The principal's edit, by its number.
#[unsafe(no_mangle)]
pub extern "C" fn bench_principal_edit(
    store: &mut [u8],
    model: u32,
    name: &[u8],
    level: u32,
    operation: u32,
    table: u32,
    bytes: &[u8],
) -> u32
    ensures { Numbered edited_number (PrincipalEdits (caller_of model name.now level)
        (edit_of (operation_numbered operation) (table_numbered table) bytes.now) store.old store.new) result }
{
    edits::edited_number(edits::principal_edit(
        store,
        model,
        name,
        level,
        bench::operation_numbered(operation),
        bench::table_numbered(table),
        bytes,
    ))
}
