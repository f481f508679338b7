// Names made from bytes, and compared.
ghost use Rattle.std.specs.Prelude.{◌≡◌, ◌≤◌, true, false, length, Decides, MatchOption};
ghost use Rattle.std.specs.Cmp.{on_equiv, on_per, partial_equiv_from_equiv};
ghost use Rattle.std.specs.Cmp.Lexicographic.{nat_list_eq_equiv};
ghost use Rattle.std.specs.Str.{bytes_eq};
ghost use Rattle.tasks.specs.Bytes.{name_byte, is_name};
ghost use Rattle.tasks.specs.Named.{name_bytes};

use crate::name::Name;

fn is_name_byte(byte: u8) -> bool
    ensures { result ≡ name_byte byte }
{
    byte.is_ascii_alphanumeric() || byte == b'_'
}

impl Name {
    // The name with these bytes; none unless they are 1 to 8 letters, digits or underscores.
    pub fn new(bytes: &[u8]) -> Option<Name>
        ensures { MatchOption result (is_name bytes.now ≡ false) (λ n. (is_name bytes.now ≡ true) × (name_bytes n ≡ bytes.now)) }
    {
        let len = bytes.len();
        if len < 1 || len > 8 || !bytes.iter().all(|byte| is_name_byte(*byte)) {
            return None;
        }
        let mut kept = [0; 8];
        kept[..len].copy_from_slice(bytes);
        Some(Name { bytes: kept, len })
    }

    pub fn bytes(&self) -> &[u8]
        ensures is { result.now ≡ name_bytes self.now }
        ensures size { (1 ≤ length result.now) × (length result.now ≤ 8) }
    {
        &self.bytes[..self.len]
    }
}

// Two names are equal if they are the same bytes. By hand: a derive would compare what stands behind the bytes too.
impl PartialEq for Name {
    ghost eq = { λ a b. bytes_eq (name_bytes a) (name_bytes b) };

    ghost laws = { on_per name_bytes (partial_equiv_from_equiv nat_list_eq_equiv) };

    fn eq(&self, other: &Name) -> bool
        ensures is { result ≡ bytes_eq (name_bytes self.now) (name_bytes other.now) }
        ensures same { Decides result (name_bytes self.now ≡ name_bytes other.now) }
    {
        self.bytes() == other.bytes()
    }
}

impl Eq for Name {
    ghost laws = { on_equiv name_bytes nat_list_eq_equiv };
}
