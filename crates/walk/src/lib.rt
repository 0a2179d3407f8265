// Walking the tables (document 02, ticket 1): the least instance of a held row above an identifier that the principal may read in the empty context.
// The part that is the same for every variable is done once; the instances are met in ascending order, so the first that may be read is the least.
#![tactic(auto)]

ghost use Rattle.std.specs.Prelude.{◌≡◌, true, ◌≤◌, leb, length};
ghost use Rattle.std.specs.Prelude.{Some};
ghost use Rattle.rows.specs.Rows.{key_max};
ghost use Rattle.image_judge.specs.Faults.{SoundLayout, tables_at};
ghost use Rattle.decision_steps.specs.Request.{most_parts};
ghost use Rattle.edit_rules.specs.Edits.{caller_of};
ghost use Rattle.walk_rules.specs.Walk.{reaching, legal_walk, walk_on, Walks, LegalKey};
ghost use Rattle.walk_find.specs.Met.{instance_at, RowMet, MetIn};
ghost use Rattle.walk.specs.Hands.{Hands};

use decision::MOST_PARTS;
use image_layout::Layout;
use rows::{KEY_MAX, Table};
use walk_rules::Walked;

// The view type of a read request.
const READ: u32 = 1;

// ---- the instance handed back

// Hands back the instance of a column of the row from `at` to `end`.
fn hand_row(
    w: &[u8],
    t: Table,
    column: u32,
    at: usize,
    end: usize,
    parts: &mut [u32],
    key: &mut [u8],
) -> Walked
    requires row { RowMet w.now t column at end }
    requires parts { length parts.old ≡ most_parts }
    requires room { key_max ≤ length key.old }
    ensures { Hands (reaching (instance_at w.now (Some (t, column, at, end)))) parts.old parts.new
        key.old key.new result }
{
    let n = walk_rows::key_end(t, &w[at..end]);
    let to = at + n;
    match instance_encode::encode(t, column, &w[at..to], parts) {
        Ok(m) => {
            splice::copy_in(key, 0, &w[at..to]);
            Walked::Next(m, t, column, n)
        }
        // a listed column of a legal key has room in 128 parts
        Err(f) => Walked::Faulty(f),
    }
}

// Hands back the instance at which a walk stops, if it does.
fn hand_back(
    w: &[u8],
    met: Option<(Table, u32, usize, usize)>,
    parts: &mut [u32],
    key: &mut [u8],
) -> Walked
    requires met { MetIn w.now met }
    requires parts { length parts.old ≡ most_parts }
    requires room { key_max ≤ length key.old }
    ensures { Hands (reaching (instance_at w.now met)) parts.old parts.new key.old key.new result }
{
    match met {
        Some((t, column, at, end)) => hand_row(w, t, column, at, end, parts, key),
        None => Walked::EndOfMibView,
    }
}

// ---- the call

// On tables that are known to be sound, for a caller and an identifier in range.
fn walk_tables(
    w: &[u8],
    l: Layout,
    security_model: u32,
    security_name: &[u8],
    security_level: u32,
    identifier: &[u32],
    parts: &mut [u32],
    key: &mut [u8],
) -> Walked
    requires tables { SoundLayout w.now l }
    requires legal { legal_walk (caller_of security_model security_name.now security_level) identifier.now ≡ true }
    requires parts { length parts.old ≡ most_parts }
    requires room { key_max ≤ length key.old }
    ensures { Hands
        (walk_on (tables_at w.now l) (caller_of security_model security_name.now security_level) identifier.now)
        parts.old parts.new key.old key.new result }
{
    let empty = [0u8; 0];
    let authorized = decision_parts::authorize(
        w,
        l,
        security_model as usize,
        security_name,
        security_level as usize,
        READ,
        &empty,
    );
    let standing = authorized.standing;
    match standing {
        Err(cause) => Walked::Denied(cause),
        Ok(v) => {
            let met = walk_find::in_tables(w, l, v, identifier);
            hand_back(w, met, parts, key)
        },
    }
}

fn is_short(identifier: &[u32]) -> bool
    ensures { result ≡ leb (length identifier.now) most_parts }
{
    identifier.len() <= MOST_PARTS
}

// The least instance above the identifier that the principal may read in the empty context: its parts at the front of `parts`, its key's bytes, as an
// image has them, at the front of `key`.
pub fn walk(
    store: &[u8],
    security_model: u32,
    security_name: &[u8],
    security_level: u32,
    identifier: &[u32],
    parts: &mut [u32; MOST_PARTS],
    key: &mut [u8; KEY_MAX],
) -> Walked
    ensures walks { Walks (caller_of security_model security_name.now security_level) identifier.now
        store.now parts.old parts.new key.old key.new result }
    ensures legal { LegalKey result key.new }
{
    let caller = edit_rules::is_caller(security_model, security_name, security_level);
    let legal = caller & is_short(identifier);
    match image::survey_call(store, legal) {
        Ok(l) => walk_tables(
            store,
            l,
            security_model,
            security_name,
            security_level,
            identifier,
            parts,
            key,
        ),
        Err(f) => Walked::Faulty(f),
    }
}
