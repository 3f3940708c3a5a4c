// The marks of map sectors and park records: four bytes at a sector's start.
#![tactic(auto)]

ghost use Rattle.std.specs.Prelude.{◌≡◌, ◌≤◌, length};
ghost use Rattle.std.proofs.lemmas.List.Edits.{sets};
ghost use Rattle.layout.specs.Word.{starts_with};

pub const MAP_MARK: [u8; 4] = *b"VLM1";

pub const PARK_MARK: [u8; 4] = *b"VLP1";

pub fn starts_with(s: &[u8], mark: &[u8]) -> bool
    requires { length mark.now ≡ 4 }
    ensures { result ≡ starts_with mark.now s.now }
{
    s.starts_with(mark)
}

// Stores a mark at a sector's start.
pub fn put_mark(s: &mut [u8], mark: &[u8])
    requires { length mark.now ≤ length s.old }
    ensures { s.new ≡ sets s.old 0 mark.now }
{
    s[..mark.len()].copy_from_slice(mark);
}
