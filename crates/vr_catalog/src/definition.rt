//! What a cluster states of its records.
ghost use Rattle.std.specs.Prelude.{◌≡◌, ◌+◌, ◌≤◌, length};
ghost use Rattle.vr_catalog.specs.Definition.{
  is_valid_record as is_valid,
  key_of as key,
  catalog_definition as definition_of_catalog,
};

use vr_types::Kind;

/// What DEFINE CLUSTER of Access Method Services states of the records of a cluster: INDEXED,
/// NONINDEXED or NUMBERED; SPANNED; KEYS(length offset) and the maximum of RECORDSIZE, in bytes.
#[derive(Clone, Copy, PartialEq, Eq)]
pub struct Definition {
    pub kind: Kind,
    pub spanned: bool,
    pub key_length: u16,
    pub key_offset: u16,
    pub maximum: u32,
}

/// The catalog's own definition, which no entry states: records of 204 bytes that begin with a name
/// of 44.
pub fn catalog_definition() -> Definition
    ensures { result ≡ definition_of_catalog }
{
    Definition {
        kind: Kind::Keyed,
        spanned: false,
        key_length: 44,
        key_offset: 0,
        maximum: 204,
    }
}

impl Definition {
    /// Whether a record is valid, which its length alone decides.
    pub fn is_valid_record(&self, bytes: &[u8]) -> bool
        ensures { result ≡ is_valid self.now bytes.now }
    {
        let size = bytes.len();
        let maximum = self.maximum as usize;
        match self.kind {
            Kind::Keyed => {
                self.key_offset as usize + self.key_length as usize <= size && size <= maximum
            }
            Kind::Entry => 1 <= size && size <= maximum,
            Kind::Relative => size == maximum,
        }
    }

    /// The key of a record that reaches to its end.
    pub fn key_of<'a>(&self, bytes: &'a [u8]) -> &'a [u8]
        requires { self.now.key_offset + self.now.key_length ≤ length bytes.now }
        ensures { result.now ≡ key self.now bytes.now }
    {
        let from = self.key_offset as usize;
        &bytes[from..from + self.key_length as usize]
    }
}
