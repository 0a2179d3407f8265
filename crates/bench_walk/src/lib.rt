// A step of a walk under a C name, for the benchmark. It has an archive of its own for the reason that `bench_match` has one.
#![tactic(auto)]

ghost use Rattle.std.specs.Prelude.{◌≡◌};
ghost use Rattle.edit_rules.specs.Edits.{caller_of};
ghost use Rattle.walk_rules.specs.Walk.{Walks};
ghost use Rattle.bench.specs.Measured.{Numbered};
ghost use Rattle.bench_walk.specs.Parts.{parts_of};

use decision::MOST_PARTS;
use rows::KEY_MAX;
use walk_rules::Walked;

fn parts_of(r: Walked) -> usize
    ensures { result ≡ parts_of r }
{
    match r {
        Walked::Next(parts, _, _, _) => parts,
        Walked::EndOfMibView => 0,
        Walked::Denied(_) => 0,
        Walked::Faulty(_) => 0,
    }
}

// The next instance that the principal may read, by its parts; 0 where none is handed back.
#[unsafe(no_mangle)]
pub extern "C" fn bench_walk(
    store: &[u8],
    model: u32,
    name: &[u8],
    level: u32,
    identifier: &[u32],
    instance: &mut [u32; MOST_PARTS],
    key: &mut [u8; KEY_MAX],
) -> usize
    ensures { Numbered parts_of (Walks (caller_of model name.now level) identifier.now store.now
        instance.old instance.new key.old key.new) result }
{
    parts_of(walk::walk(store, model, name, level, identifier, instance, key))
}
