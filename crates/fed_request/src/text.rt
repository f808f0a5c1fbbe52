//! The lines of a request.
ghost use Rattle.std.specs.Prelude.{◌≡◌, ◌++◌, codes, decimal, IfOk, OnOk};
ghost use Rattle.fed_origin.specs.Origin.{origin_text};
ghost use Rattle.fed_request.specs.Request.{host_field};
ghost use Rattle.fed_request.specs.Text as spec;
ghost use Rattle.fed_request.specs.Text.{line};

use fed_io::NoRoom;
use fed_origin::{Origin, WebUrl};
use itoa::Buffer;
use std::alloc::Global;

/// A buffer that begins with the method, with room for a request to this URL: its text is no shorter than the host and
/// the target together, and `rest` is for all else. This saves the copies of a vector that grows.
pub fn begin_request(
    alloc: Global,
    method: &[u8],
    to: &WebUrl,
    rest: usize,
) -> Result<Vec<u8>, NoRoom>
    ensures { IfOk result (λ bytes. bytes.items ≡ method.now) }
{
    let mut bytes = Vec::with_capacity(alloc, to.as_str().len().saturating_add(rest))?;
    bytes.extend_from_slice(method)?;
    Ok(bytes)
}

fn push_number(bytes: &mut Vec<u8>, number: usize) -> Result<(), NoRoom>
    ensures { OnOk result (bytes.new.items ≡ bytes.old.items ++ decimal number) }
{
    let mut buffer = Buffer::new();
    bytes.extend_from_slice(buffer.format(number).as_bytes())?;
    Ok(())
}

// Adds a host, and the port where it is not `own_port`.
fn push_host(bytes: &mut Vec<u8>, host: &str, port: u16, own_port: u16) -> Result<(), NoRoom>
    ensures { OnOk result (bytes.new.items ≡ bytes.old.items ++ spec.host_port host.now port own_port) }
{
    bytes.extend_from_slice(host.as_bytes())?;
    if port == own_port {
        return Ok(());
    }
    bytes.extend_from_slice(b":")?;
    push_number(bytes, usize::from(port))
}

/// Adds what stands after the target in the first lines.
pub fn push_after_target(bytes: &mut Vec<u8>, to: &WebUrl) -> Result<(), NoRoom>
    ensures { OnOk result (bytes.new.items ≡ bytes.old.items ++ spec.after_target (host_field to.now)) }
{
    bytes.extend_from_slice(b" HTTP/1.1\r\nHost: ")?;
    push_host(bytes, to.host().text.as_str(), to.port(), 443)?;
    bytes.extend_from_slice(b"\r\nAccept: application/json\r\nSec-Fetch-Dest: webidentity\r\n")?;
    Ok(())
}

/// Adds the field that names the origin of a page.
#[tactic(auto, using(std::proofs::Common::append_assoc, crate::proofs::written::Lines::origin_line_written))]
pub fn push_origin_line(bytes: &mut Vec<u8>, origin: &Origin) -> Result<(), NoRoom>
    ensures { OnOk result (bytes.new.items ≡ bytes.old.items ++ line (codes "Origin: ") (origin_text origin.now)) }
{
    bytes.extend_from_slice(b"Origin: ")?;
    origin.push_to(bytes)?;
    bytes.extend_from_slice(b"\r\n")?;
    Ok(())
}

/// Adds the fields that tell of a form, with its length.
pub fn push_form_lines(bytes: &mut Vec<u8>, form: &[u8]) -> Result<(), NoRoom>
    ensures { OnOk result (bytes.new.items ≡ bytes.old.items ++ spec.form_lines form.now) }
{
    bytes.extend_from_slice(
        b"Content-Type: application/x-www-form-urlencoded\r\nContent-Length: ",
    )?;
    push_number(bytes, form.len())?;
    bytes.extend_from_slice(b"\r\n")?;
    Ok(())
}

/// Adds the Cookie field, where there are cookies, and the empty line.
#[tactic(auto, using(std::proofs::Common::append_assoc, crate::proofs::written::Lines::cookies_written))]
pub fn push_last_lines(bytes: &mut Vec<u8>, cookies: &[u8]) -> Result<(), NoRoom>
    ensures { OnOk result (bytes.new.items ≡ bytes.old.items ++ spec.last_lines cookies.now) }
{
    if cookies.is_empty() {
        bytes.extend_from_slice(b"\r\n")?;
        return Ok(());
    }
    bytes.extend_from_slice(b"Cookie: ")?;
    bytes.extend_from_slice(cookies)?;
    bytes.extend_from_slice(b"\r\n\r\n")?;
    Ok(())
}
