//! Names of files.

ghost use Rattle.std.specs.Prelude.{◌≡◌, ℕ, ◌≤◌, ◌↔◌, IsTrue, SomeIff, length};
ghost use Rattle.std.specs.Str.{IsUtf8};
ghost use Rattle.sl_base.specs.Names.{IsName, is_name, is_name_byte, are_name_bytes, begins_well};

use arrayvec::ArrayString;
use std::marker::Model;

/// A file's name: 1 to 64 bytes of `A-Z a-z 0-9 . _ -`, the first not `.`.
#[derive(Clone, Drop)]
pub struct Name {
    text: ArrayString<64>,
}

impl Model for Name {
    ghost use Rattle.std.specs.Prelude.{ℕ, List};
    ghost use Rattle.std.specs.Str.{IsUtf8};
    ghost use Rattle.sl_base.specs.Names.{IsName};

    ghost Value = { List ℕ };

    ghost view = { λ n. n.text.bytes };

    ghost invariant = { λ n. IsName n.text.bytes };
}

impl PartialEq for Name {
    ghost use Rattle.std.specs.Str.{bytes_eq};
    ghost use Rattle.std.specs.Cmp.{partial_equiv_from_equiv};
    ghost use Rattle.std.specs.Cmp.Lexicographic.{nat_list_eq_equiv};

    ghost eq = { bytes_eq };

    ghost laws = { partial_equiv_from_equiv nat_list_eq_equiv };

    fn eq(&self, other: &Name) -> bool {
        self.as_bytes() == other.as_bytes()
    }
}

impl Eq for Name {
    ghost use Rattle.std.specs.Cmp.Lexicographic.{nat_list_eq_equiv};

    ghost laws = { nat_list_eq_equiv };
}

fn may_stand_in_name(byte: u8) -> bool
    ensures { result ≡ is_name_byte byte }
{
    byte >= b'A' && byte <= b'Z'
        || byte >= b'a' && byte <= b'z'
        || byte >= b'0' && byte <= b'9'
        || byte == b'.'
        || byte == b'_'
        || byte == b'-'
}

fn are_name_bytes(bytes: &[u8]) -> bool
    ensures { result ≡ are_name_bytes bytes.now }
{
    for byte in bytes {
        if !may_stand_in_name(*byte) {
            return false;
        }
    }
    true
}

fn begins_well(bytes: &[u8]) -> bool
    ensures { result ≡ begins_well bytes.now }
{
    match bytes {
        [] => false,
        [first, ..] => *first != b'.',
    }
}

#[tactic(auto, using(crate::proofs::NameLemmas::name_is_text))]
fn is_name(bytes: &[u8]) -> bool
    ensures value { result ≡ is_name bytes.now }

    // Each byte is ASCII.
    ensures text { IsTrue result → IsUtf8 bytes.now }
{
    begins_well(bytes) && bytes.len() <= 64 && are_name_bytes(bytes)
}

impl Name {
    /// The name that these bytes are, or None where they break the name rule.
    pub fn read(bytes: &[u8]) -> Option<Name>
        ensures { SomeIff result (IsName bytes.now) bytes.now }
    {
        if !is_name(bytes) {
            return None;
        }
        let text = str::from_utf8(bytes).ok()?;
        let text = ArrayString::from(text).ok()?;
        Some(Name { text })
    }

    /// The same name once more.
    pub fn duplicate(&self) -> Name
        ensures { result ≡ self.now }
    {
        Name { text: self.text }
    }

    /// The bytes of the name.
    pub fn as_bytes(&self) -> &[u8]
        ensures value { result.now ≡ self.now }
        ensures within { IsName self.now }
    {
        self.text.as_str().as_bytes()
    }

    /// The name as text, 64 bytes at most.
    pub fn as_str(&self) -> &str
        ensures value { result.now ≡ self.now }
        ensures fits { length result.now ≤ 64 }
    {
        self.text.as_str()
    }
}
