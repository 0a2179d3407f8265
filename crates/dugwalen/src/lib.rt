// The decision for an agent in C: over the bytes of a table image where they lie, with no store and no heap. The crate `dugwalen_c` exports it.
#![tactic(auto)]

ghost use Rattle.std.specs.Prelude.{◌≡◌};
ghost use Rattle.image_judge.specs.Faults.{SoundLayout, tables_at};
ghost use Rattle.dugwalen.specs.CCall.{request_number, call_number};

use answers::Fault;
use image_layout::Layout;

// The answer on tables that are sound: 7 for the request's fields and for a torn last part of the variable, then the steps.
fn on_tables(
    image: &[u8],
    l: Layout,
    security_model: u32,
    security_name: &[u8],
    security_level: u32,
    view_type: u32,
    context_name: &[u8],
    variable_name: &[u8],
) -> u32
    requires { SoundLayout image.now l }
    ensures { result ≡ request_number (tables_at image.now l) security_model security_name.now security_level
        view_type context_name.now variable_name.now }
{
    let n = variable_name.len();
    if n % 4 != 0 {
        return answers::fault_number(Fault::OutOfRange);
    }
    if !decision::in_range(
        security_model,
        security_name.len(),
        security_level,
        view_type,
        context_name.len(),
        n / 4,
    ) {
        return answers::fault_number(Fault::OutOfRange);
    }
    let decided = decision::decide(
        image,
        l,
        security_model as usize,
        security_name,
        security_level as usize,
        view_type,
        context_name,
        variable_name,
    );
    answers::decision_number(decided)
}

// RFC 3415's isAccessAllowed for C (include/dugwalen.h): a slice passes as a pointer and then a length, the variable in parts of 4 bytes, big-endian.
// The numbers are 32 bits wide, so that 257 is out of range and not 1.
pub fn dugwalen_is_access_allowed(
    image: &[u8],
    security_model: u32,
    security_name: &[u8],
    security_level: u32,
    view_type: u32,
    context_name: &[u8],
    variable_name: &[u8],
) -> u32
    ensures { result ≡ call_number image.now security_model security_name.now security_level view_type
        context_name.now variable_name.now }
{
    match image::survey_image(image) {
        Err(f) => answers::fault_number(f),
        Ok(l) => on_tables(
            image,
            l,
            security_model,
            security_name,
            security_level,
            view_type,
            context_name,
            variable_name,
        ),
    }
}
