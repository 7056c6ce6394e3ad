//! The laws of the encoding, as contracts. Nothing is computed here.

ghost use Rattle.std.specs.Prelude.{◌≡◌, ℕ, ◌+◌, ◌++◌, List, length, Ok};
ghost use Rattle.gap_cert.specs.declared.context.Context.{Context};
ghost use Rattle.gap_cert.specs.declared.field.Group.{Group};
ghost use Rattle.gap_cert.specs.declared.field.Version.{Version};
ghost use Rattle.gap_cert.specs.Bytes.{AreBytes};
ghost use Rattle.gap_cert.specs.Formats.{Spot, Spells, IsReadFrom, read};
ghost use Rattle.gap_cert.specs.Fields.{bytes_of};
ghost use Rattle.gap_cert.specs.Contexts.{format_of};
ghost use Rattle.gap_cert.specs.Certificates.{Certificate, Encodes, fields_of, spelling};

/// A group is read from bytes exactly where they begin with bytes that spell it, and these are its bytes.
pub fn groups_are_spelled()
    ensures read { (c : Context) (g : Group) (bytes rest : List ℕ) (place : ℕ) → Spells (format_of c c.phase) g bytes
        → read (format_of c c.phase) (record { place = place; rest = bytes ++ rest })
        ≡ Ok (g, record { place = place + length bytes; rest = rest }) }
    ensures spelled { (c : Context) (g : Group) (s t : Spot) → AreBytes s.rest
        → read (format_of c c.phase) s ≡ Ok (g, t) → IsReadFrom (format_of c c.phase) g s t }
    ensures bytes { (c : Context) (g : Group) (bytes : List ℕ) → Spells (format_of c c.phase) g bytes
        → bytes ≡ bytes_of g.version c.last g.field }
{}

/// Bytes that encode a certificate are its spelling in that version, and no other encoding begins as they do: whatever
/// follows two encodings that begin alike, their versions and items are the same, and so is what follows.
pub fn encodings_are_unique()
    ensures spelling { (v : Version) (bytes : List ℕ) (c : Certificate) → Encodes v bytes c → bytes ≡ spelling v c }
    ensures one { (v w : Version) (a b x y : List ℕ) (c d : Certificate) → Encodes v a c → Encodes w b d
        → a ++ x ≡ b ++ y → (v ≡ w) × (fields_of c ≡ fields_of d) × (x ≡ y) }
{}
