//! What the readers of bytes share.
ghost use Rattle.std.specs.Prelude.{◌≡◌, ◌==◌, position};
ghost use Rattle.fed_io.specs.Trim as spec;

/// The bytes without spaces and tabs at their ends. It takes no memory.
#[tactic(auto, unfolding(crate::specs::Trim::trimmed))]
pub fn trim(bytes: &[u8]) -> &[u8]
    ensures { result.now ≡ spec.trimmed bytes.now }
{
    trim_end(trim_front(bytes))
}

/// The first place of the byte. It takes no memory.
pub fn place_of(byte: u8, bytes: &[u8]) -> Option<usize>
    ensures { result ≡ position (λ b. b == byte) bytes.now }
{
    bytes.iter().position(|b| *b == byte)
}

fn trim_front(bytes: &[u8]) -> &[u8]
    ensures { result.now ≡ spec.trimmed_front bytes.now }
{
    for (at, b) in bytes.iter().enumerate() {
        if !is_blank(*b) {
            return &bytes[at..];
        }
    }
    &bytes[bytes.len()..]
}

fn trim_end(bytes: &[u8]) -> &[u8]
    ensures { result.now ≡ spec.trimmed_end bytes.now }
{
    let mut end = bytes.len();
    while end > 0 && is_blank(bytes[end - 1]) {
        end -= 1;
    }
    &bytes[..end]
}

// Whether the byte is a space or a tab.
fn is_blank(b: u8) -> bool
    ensures { result ≡ spec.is_blank b }
{
    b == b' ' || b == b'\t'
}
