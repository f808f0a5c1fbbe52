//! Words and texts that may be absent.
ghost use Rattle.std.specs.Prelude.{◌≡◌, option_map};
ghost use Rattle.std.specs.Option.{option_copied};
ghost use Rattle.fed_consent.specs.Words as consent;

use fed_consent::Detail;
use fed_io::Text;

// The word of a detail, where there is one.
pub fn detail_text(detail: Option<Detail>) -> Option<&'static str>
    ensures { option_copied result ≡ option_map consent.detail_text detail }
{
    match detail {
        Some(detail) => Some(detail.as_str()),
        None => None,
    }
}

// The text, where there is one.
pub fn text_in(text: &Option<Text>) -> Option<&str>
    ensures { option_copied result ≡ text.now }
{
    match text {
        Some(text) => Some(text.as_str()),
        None => None,
    }
}
