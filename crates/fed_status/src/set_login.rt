//! The Set-Login field.
ghost use Rattle.std.specs.Prelude.{◌≡◌, true, IfSome};
ghost use Rattle.fed_origin.specs.Status.{is_known};
ghost use Rattle.fed_status.specs.Login as spec;

use fed_origin::LoginStatus;
use fed_reply::essence;
use std::str;

/// What a Set-Login value says (Login Status API, "The Set-Login HTTP response header field"): the part up to the first
/// `;`, without spaces and tabs at its ends, is `logged-in` or `logged-out`, byte for byte. `None` exactly where it is
/// neither: such a value is ignored. It takes no memory.
pub fn read_set_login(field: &[u8]) -> Option<LoginStatus>
    ensures value { result ≡ spec.set_login_of field.now }
    ensures known { IfSome result (λ status. is_known status ≡ true) }
{
    match str::from_utf8(essence(field)) {
        Ok(word) => LoginStatus::of_word(word),
        Err(_) => None,
    }
}
