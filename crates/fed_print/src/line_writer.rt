//! Lines that are written member by member, one behind the other, into room that is used again.
ghost use Rattle.std.specs.Prelude.{◌≡◌, ◌≤◌, ◌+◌, []};

use crate::place::{put, put_comma, put_name, put_number};
use fed_escape::escape_into;
use fed_io::NoRoom;
use std::alloc::Global;
use std::marker::Model;

// How much room is made at once beyond what is asked for.
const AHEAD: usize = 4096;

// How long a text can be: of one that is longer, six times as much fits no memory.
const LONGEST: usize = 1 << 60;

// How much room a number is put into: it is put by 16 bytes.
const NUMBER: usize = 16;

/// What is written: the first bytes of the room. Each member stands in the order of the calls, and the commas come by themselves.
#[derive(Drop)]
pub(crate) struct LineWriter {
    room: Vec<u8>,
    len: usize,
    after_value: bool,
}

impl Model for LineWriter {
    ghost use Rattle.std.specs.Prelude.{◌-◌, ◌≤◌, length, take};
    ghost use Rattle.fed_print.specs.Written.{Written, written_code};

    ghost Value = { Written };

    ghost coded = { written_code };

    ghost view = { λ w. record { bytes = take w.len w.room.items; after_value = w.after_value; left = length w.room.items - w.len } };

    ghost invariant = { λ w. w.len ≤ length w.room.items };
}

impl LineWriter {
    ghost use Rattle.std.specs.Prelude.{◌<◌, ◌*◌, ◌^◌, ◌-◌, ◌++◌, ◌∷◌, cond, decimal, true, false, length, OnOk, Some, option_map};
    ghost use Rattle.std.specs.Option.{option_copied};
    ghost use Rattle.json.specs.Print.{escape, quoted, token_text, separator};
    ghost use Rattle.json.specs.Token as token;
    ghost use Rattle.serde_json.specs.Data.{boolean, string, no_members};
    ghost use Rattle.fed_print.specs.Objects as spec;
    ghost use Rattle.fed_print.specs.Written.{IsName, PrintsToken, PrintsMember, PrintsRest};

    /// Nothing is written. It takes no memory.
    pub(crate) fn new(alloc: Global) -> LineWriter
        ensures { result.bytes ≡ [] }
    {
        LineWriter {
            room: Vec::new(alloc),
            len: 0,
            after_value: false,
        }
    }

    /// Nothing is written any more. It takes no memory.
    pub(crate) fn clear(&mut self)
        ensures { self.new.bytes ≡ [] }
    {
        self.len = 0;
    }

    /// What is written. It takes no memory.
    pub(crate) fn as_slice(&self) -> &[u8]
        ensures { result.now ≡ self.now.bytes }
    {
        &self.room.as_slice()[..self.len]
    }

    // Makes room for so many bytes more.
    #[inline(always)]
    fn reserve(&mut self, more: usize) -> Result<(), NoRoom>
        ensures bytes { self.new.bytes ≡ self.old.bytes }
        ensures after_value { self.new.after_value ≡ self.old.after_value }
        ensures left { OnOk result (more ≤ self.new.left) }
    {
        if more <= self.room.len() - self.len {
            return Ok(());
        }
        self.grow(more)
    }

    #[inline(never)]
    fn grow(&mut self, more: usize) -> Result<(), NoRoom>
        ensures bytes { self.new.bytes ≡ self.old.bytes }
        ensures after_value { self.new.after_value ≡ self.old.after_value }
        ensures left { OnOk result (more ≤ self.new.left) }
    {
        let Some(end) = self.len.checked_add(more) else {
            return Err(NoRoom);
        };
        let Some(size) = end.checked_add(AHEAD) else {
            return Err(NoRoom);
        };
        self.room.resize(size, 0)?;
        Ok(())
    }

    // The comma that stands between two values.
    #[inline(always)]
    fn separate(&mut self)
        requires { 1 ≤ self.old.left }
        ensures bytes { self.new.bytes ≡ self.old.bytes ++ cond self.old.after_value (44 ∷ []) [] }
        ensures after_value { self.new.after_value ≡ false }
        ensures left { self.old.left ≤ self.new.left + 1 }
    {
        self.len = put_comma(self.room.as_mut_slice(), self.len, self.after_value);
        self.after_value = false;
    }

    #[inline(always)]
    fn put(&mut self, piece: &[u8])
        requires { length piece.now ≤ self.old.left }
        ensures bytes { self.new.bytes ≡ self.old.bytes ++ piece.now }
        ensures after_value { self.new.after_value ≡ self.old.after_value }
        ensures left { self.old.left ≡ self.new.left + length piece.now }
    {
        self.len = put(self.room.as_mut_slice(), self.len, piece);
    }

    #[inline(always)]
    fn put_escaped(&mut self, text: &[u8])
        requires { 6 * length text.now + 16 ≤ self.old.left }
        ensures bytes { self.new.bytes ≡ self.old.bytes ++ escape text.now }
        ensures after_value { self.new.after_value ≡ self.old.after_value }
        ensures left { self.old.left ≤ self.new.left + 6 * length text.now }
    {
        self.len = escape_into(self.room.as_mut_slice(), self.len, text);
    }

    // A text as JSON writes it. The names before texts are put where these are called, each by its length.
    #[inline(never)]
    fn put_quoted(&mut self, text: &[u8])
        requires { 6 * length text.now + 18 ≤ self.old.left }
        ensures bytes { self.new.bytes ≡ self.old.bytes ++ quoted text.now }
        ensures after_value { self.new.after_value ≡ self.old.after_value }
    {
        self.put(b"\"");
        self.put_escaped(text);
        self.put(b"\"");
    }

    #[inline(always)]
    fn put_number(&mut self, number: u32)
        requires { 16 ≤ self.old.left }
        ensures bytes { self.new.bytes ≡ self.old.bytes ++ decimal number }
        ensures after_value { self.new.after_value ≡ self.old.after_value }
    {
        self.len = put_number(self.room.as_mut_slice(), self.len, number);
    }

    #[inline(always)]
    fn put_flag(&mut self, flag: bool)
        requires { 5 ≤ self.old.left }
        ensures bytes { self.new.bytes ≡ self.old.bytes ++ token_text (token.boolean flag) }
        ensures after_value { self.new.after_value ≡ self.old.after_value }
    {
        if flag {
            self.put(b"true");
        } else {
            self.put(b"false");
        }
    }

    // The name of a member, and room for so many bytes of its value.
    #[inline(always)]
    fn key(&mut self, name: &str, more: usize) -> Result<(), NoRoom>
        requires plain { IsName name.now }
        requires few { more < 2 ^ 63 - 4 }
        ensures bytes { OnOk result (self.new.bytes
            ≡ self.old.bytes ++ (separator self.old.after_value (token.key name.now) ++ token_text (token.key name.now))) }
        ensures after_value { OnOk result (self.new.after_value ≡ false) }
        ensures left { OnOk result (more ≤ self.new.left) }
    {
        self.reserve(name.len() + 4 + more)?;
        self.len = put_name(
            self.room.as_mut_slice(),
            self.len,
            self.after_value,
            name.as_bytes(),
        );
        self.after_value = false;
        Ok(())
    }

    // A value that ended.
    #[inline(always)]
    fn end_value(&mut self)
        ensures bytes { self.new.bytes ≡ self.old.bytes }
        ensures after_value { self.new.after_value ≡ true }
    {
        self.after_value = true;
    }

    /// Begins a line.
    pub(crate) fn begin_line(&mut self)
        ensures bytes { self.new.bytes ≡ self.old.bytes }
        ensures after_value { self.new.after_value ≡ false }
    {
        self.after_value = false;
    }

    /// Ends a line with LF (this profile's own).
    pub(crate) fn end_line(&mut self) -> Result<(), NoRoom>
        ensures { OnOk result (self.new.bytes ≡ self.old.bytes ++ 10 ∷ []) }
    {
        self.reserve(1)?;
        self.put(b"\n");
        Ok(())
    }

    // Begins an object or a list.
    #[inline(always)]
    fn open(&mut self, bracket: u8) -> Result<(), NoRoom>
        ensures bytes { OnOk result (self.new.bytes ≡ self.old.bytes ++ (cond self.old.after_value (44 ∷ []) [] ++ bracket ∷ [])) }
        ensures after_value { OnOk result (self.new.after_value ≡ false) }
    {
        self.reserve(2)?;
        self.separate();
        self.put(&[bracket]);
        Ok(())
    }

    // Ends an object or a list.
    #[inline(always)]
    fn close(&mut self, bracket: u8) -> Result<(), NoRoom>
        ensures bytes { OnOk result (self.new.bytes ≡ self.old.bytes ++ bracket ∷ []) }
        ensures after_value { OnOk result (self.new.after_value ≡ true) }
    {
        self.reserve(1)?;
        self.put(&[bracket]);
        self.end_value();
        Ok(())
    }

    /// Begins an object.
    #[inline(always)]
    pub(crate) fn begin(&mut self) -> Result<(), NoRoom>
        ensures { OnOk result (PrintsToken self.old self.new token.begin_object) }
    {
        self.open(b'{')?;
        Ok(())
    }

    /// Ends an object.
    #[inline(always)]
    pub(crate) fn end(&mut self) -> Result<(), NoRoom>
        ensures { OnOk result (PrintsRest self.old self.new no_members) }
    {
        self.close(b'}')?;
        Ok(())
    }

    /// Begins a list.
    #[inline(always)]
    pub(crate) fn begin_list(&mut self) -> Result<(), NoRoom>
        ensures { OnOk result (PrintsToken self.old self.new token.begin_array) }
    {
        self.open(b'[')?;
        Ok(())
    }

    /// Ends a list.
    #[inline(always)]
    pub(crate) fn end_list(&mut self) -> Result<(), NoRoom>
        ensures { OnOk result (PrintsToken self.old self.new token.end_array) }
    {
        self.close(b']')?;
        Ok(())
    }

    /// The name of a member, whose value comes next.
    #[inline(always)]
    pub(crate) fn name(&mut self, name: &str) -> Result<(), NoRoom>
        requires { IsName name.now }
        ensures { OnOk result (PrintsToken self.old self.new (token.key name.now)) }
    {
        self.key(name, 0)?;
        Ok(())
    }

    /// A member with a whole number.
    #[inline(always)]
    pub(crate) fn count(&mut self, name: &str, value: u32) -> Result<(), NoRoom>
        requires { IsName name.now }
        ensures { OnOk result (PrintsMember self.old self.new name.now (Some (spec.count value))) }
    {
        self.key(name, NUMBER)?;
        self.put_number(value);
        self.end_value();
        Ok(())
    }

    /// A member with a truth value.
    #[inline(always)]
    pub(crate) fn flag(&mut self, name: &str, value: bool) -> Result<(), NoRoom>
        requires { IsName name.now }
        ensures { OnOk result (PrintsMember self.old self.new name.now (Some (boolean value))) }
    {
        self.key(name, 5)?;
        self.put_flag(value);
        self.end_value();
        Ok(())
    }

    /// A member with a word that stands for itself.
    #[inline(always)]
    pub(crate) fn word(&mut self, name: &str, word: &str) -> Result<(), NoRoom>
        requires { IsName name.now × IsName word.now }
        ensures { OnOk result (PrintsMember self.old self.new name.now (Some (string word.now))) }
    {
        if word.len() > LONGEST {
            return Err(NoRoom);
        }
        self.key(name, word.len() + 2)?;
        self.put(b"\"");
        self.put(word.as_bytes());
        self.put(b"\"");
        self.end_value();
        Ok(())
    }

    /// A member with the text that the bytes are.
    #[inline(always)]
    pub(crate) fn bytes(&mut self, name: &str, bytes: &[u8]) -> Result<(), NoRoom>
        requires { IsName name.now }
        ensures { OnOk result (PrintsMember self.old self.new name.now (Some (string bytes.now))) }
    {
        if bytes.len() > LONGEST {
            return Err(NoRoom);
        }
        self.key(name, 6 * bytes.len() + 18)?;
        self.put_quoted(bytes);
        self.end_value();
        Ok(())
    }

    /// A member with a text.
    #[inline(always)]
    pub(crate) fn text(&mut self, name: &str, value: &str) -> Result<(), NoRoom>
        requires { IsName name.now }
        ensures { OnOk result (PrintsMember self.old self.new name.now (Some (string value.now))) }
    {
        self.bytes(name, value.as_bytes())?;
        Ok(())
    }

    /// A member with a text, where there is a text.
    pub(crate) fn text_if(&mut self, name: &str, value: Option<&str>) -> Result<(), NoRoom>
        requires { IsName name.now }
        ensures { OnOk result (PrintsMember self.old self.new name.now (option_map string (option_copied value.entry))) }
    {
        match value {
            Some(value) => self.text(name, value),
            None => Ok(()),
        }
    }
}
