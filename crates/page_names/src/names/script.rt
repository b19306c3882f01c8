ghost use Rattle.std.specs.Prelude.{◌≡◌, IsTrue, option_map};
ghost use Rattle.std.specs.List.{list_all};
ghost use Rattle.page_names.specs.Names.{is_name_byte, is_name, name_in};
ghost use Rattle.page_names.specs.Views.{name_of};

use crate::names::ScriptName;

impl ScriptName {
    /// The name that these bytes are, if they are one.
    pub fn new(bytes: &[u8]) -> Option<ScriptName>
        ensures { option_map name_of result ≡ name_in bytes.now }
    {
        if !is_name(bytes) {
            return None;
        }
        let mut kept = [0; 32];
        kept[..bytes.len()].copy_from_slice(bytes);
        Some(ScriptName {
            bytes: kept,
            len: bytes.len(),
        })
    }

    /// The bytes of the name.
    pub fn as_bytes(&self) -> &[u8]
        ensures bytes { result.now ≡ name_of self.now }
        ensures named { IsTrue (is_name (name_of self.now)) }
    {
        &self.bytes[..self.len]
    }

    /// The name as a text.
    #[tactic(auto, using(crate::proofs::Letters::name_utf8))]
    pub fn as_str(&self) -> &str
        ensures { result.now ≡ name_of self.now }
    {
        match str::from_utf8(self.as_bytes()) {
            Ok(text) => text,
            Err(_) => unreachable!(),
        }
    }
}

fn are_name_bytes(bytes: &[u8]) -> bool
    ensures { result ≡ list_all is_name_byte bytes.now }
{
    bytes
        .iter()
        .all(|byte| matches!(*byte, b'a'..=b'z' | b'0'..=b'9' | b'-'))
}

fn is_name(bytes: &[u8]) -> bool
    ensures { result ≡ is_name bytes.now }
{
    let fits = 1 <= bytes.len() && bytes.len() <= 32;
    fits && are_name_bytes(bytes)
}
