//! What a value is, by how it begins.
ghost use Rattle.std.specs.Prelude.{◌≡◌, option_map, option_and_then};
ghost use Rattle.serde_json.specs.Find.{as_bool, as_number, as_str, as_u64};
ghost use Rattle.fed_json.specs.Begun.{begun_data};

use crate::number::whole_of;
use crate::reading::Begun;

impl<'a> Begun<'a> {
    /// The text, where this is one.
    pub fn as_str(&self) -> Option<&'a str>
        ensures { option_map (λ s. s.now) result ≡ as_str (begun_data self.now) }
    {
        match self {
            Begun::Text(text) => Some(text),
            _ => None,
        }
    }

    /// The truth value, where this is one.
    pub fn as_bool(&self) -> Option<bool>
        ensures { result ≡ as_bool (begun_data self.now) }
    {
        match self {
            Begun::Bool(b) => Some(*b),
            _ => None,
        }
    }

    /// The number, where this is a whole one of 64 bits.
    pub fn as_u64(&self) -> Option<u64>
        ensures { result ≡ option_and_then as_u64 (as_number (begun_data self.now)) }
    {
        match self {
            Begun::Number(literal) => whole_of(literal),
            _ => None,
        }
    }
}
