// The call of `dugwalen` under its C name: the archive libdugwalen.a.
#![tactic(auto)]

ghost use Rattle.std.specs.Prelude.{◌≡◌};
ghost use Rattle.dugwalen.specs.CCall.{call_number};

// RFC 3415's isAccessAllowed for C (include/dugwalen.h): a slice passes as a pointer and then a length, the variable in parts of 4 bytes, big-endian.
#[unsafe(no_mangle)]
pub extern "C" fn dugwalen_is_access_allowed(
    image: &[u8],
    security_model: u32,
    security_name: &[u8],
    security_level: u32,
    view_type: u32,
    context_name: &[u8],
    variable_name: &[u8],
) -> u32
    ensures { result ≡ call_number image.now security_model security_name.now security_level view_type
        context_name.now variable_name.now }
{
    dugwalen::dugwalen_is_access_allowed(
        image,
        security_model,
        security_name,
        security_level,
        view_type,
        context_name,
        variable_name,
    )
}
