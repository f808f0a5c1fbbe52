//! Replies.
ghost use Rattle.std.specs.Prelude.{◌≡◌, option_map, slice_get};
ghost use Rattle.std.specs.Option.{option_copied};
ghost use Rattle.http_header.specs.HeaderMap.{get_all};
ghost use Rattle.http_header.specs.Token.{lowercase};
ghost use Rattle.fed_reply.specs.Fields.{is_only, value_at, values};

use crate::fields::is_only_value;
use fed_io::Bytes;
use http::StatusCode;
use http_header::{HeaderMap, HeaderValue, ValueIter};
use std::marker::Model;

/// A reply that was read: its status, its fields and its body.
pub struct Reply {
    status: StatusCode,
    fields: HeaderMap,
    body: Bytes,
}

// Written out, so that one function lets it go wherever it ends.
impl Drop for Reply {
    fn drop(self) {
        let Reply {
            status: _,
            fields: _,
            body: _,
        } = self;
    }
}

impl Model for Reply {
    ghost use Rattle.fed_reply.specs.Parts.{ReplyParts, reply_parts_code};

    ghost Value = { ReplyParts };

    ghost coded = { reply_parts_code };

    ghost view = { λ r. record { status = r.status; fields = r.fields; body = r.body } };
}

impl Reply {
    pub(crate) fn new(status: StatusCode, fields: HeaderMap, body: Bytes) -> Reply
        ensures { result ≡ record { status = status; fields = fields; body = body } }
    {
        Reply {
            status,
            fields,
            body,
        }
    }

    /// The status code, 100 to 999.
    pub fn status(&self) -> u16
        ensures { result ≡ self.now.status }
    {
        self.status.as_u16()
    }

    /// The `k`-th value, from 0, of the fields of that name, in the reply's order and without white
    /// space at its ends. The name is compared in any case. None where there are at most `k`.
    pub fn field(&self, name: &str, k: usize) -> Option<&[u8]>
        ensures { option_map (λ v. v.now) result ≡ value_at (lowercase name.now) k self.now.fields }
    {
        match nth_value(&self.fields, name, k) {
            Some(value) => Some(value.as_bytes()),
            None => None,
        }
    }

    /// Whether exactly one field has that name, in any case, and it has that value. It takes no memory.
    pub fn has_only(&self, name: &str, value: &[u8]) -> bool
        ensures { result ≡ is_only value.now (values (lowercase name.now) self.now.fields) }
    {
        match self.field(name, 0) {
            Some(found) => is_only_value(found, self.field(name, 1).is_some(), value),
            None => false,
        }
    }

    /// The values of the fields of that name, in the reply's order and without white space at their ends. The name is
    /// compared in any case. It takes no memory.
    pub fn values(&self, name: &str) -> ValueIter<'_, HeaderValue>
        ensures { result ≡ get_all self.now.fields (lowercase name.now) }
    {
        self.fields.get_all(name).iter()
    }

    /// The body, without its framing.
    pub fn body(&self) -> &[u8]
        ensures { result.now ≡ self.now.body }
    {
        self.body.as_slice()
    }
}

// The `k`-th value under a name, from 0.
fn nth_value<'a>(fields: &'a HeaderMap, name: &str, k: usize) -> Option<&'a HeaderValue>
    ensures { option_copied result ≡ slice_get (get_all fields.now (lowercase name.now)) k }
{
    let mut values = fields.get_all(name).iter();
    let mut left = k;
    while left > 0 {
        values.next()?;
        left -= 1;
    }
    values.next()
}
