//! Bytes that are a text.
ghost use Rattle.std.specs.Prelude.{◌≡◌, Some, None};
ghost use Rattle.std.specs.Bool.{MatchBool};
ghost use Rattle.fed_print.specs.Records as spec;

// Whether the bytes are a text, since all are below 128.
pub fn is_ascii_text(bytes: &[u8]) -> bool
    ensures { MatchBool result (spec.ascii_text bytes.now ≡ Some bytes.now) (spec.ascii_text bytes.now ≡ None) }
{
    bytes.is_ascii()
}
