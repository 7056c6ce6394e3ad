//! The laws, as contracts.

ghost use Rattle.std.specs.Prelude.{◌≡◌, ℕ, ◌++◌, [], List};
ghost use Rattle.gap_cert.specs.declared.field.Version.{Version};
ghost use Rattle.gap_cert.specs.declared.field.Version.TheVariants.{One, Two};
ghost use Rattle.gap_cert.specs.Certificates.{Certificate, Encodes, fields_of, spelling};
ghost use Rattle.gap_valid.specs.Valid.{IsValid};
ghost use Rattle.gap_valid.specs.Writable.{IsWritable};

/// A certificate whose numbers are in their ranges has an encoding of version 2, and one of version 1 where the fewest and
/// the most assets to hold are the same; where they aren't, no bytes encode it in version 1.
pub fn encodings_exist()
    ensures two { (c : Certificate) → IsWritable c → Encodes Two (spelling Two c) c }
    ensures one { (c : Certificate) → IsWritable c → c.head.held ≡ c.head.held_most → Encodes One (spelling One c) c }
    ensures none { (c : Certificate) (bytes : List ℕ) → Encodes One bytes c → c.head.held ≡ c.head.held_most }
{}

/// A certificate has at most one encoding in a version, and no encoding is a proper front of another one.
pub fn encodings_are_alone()
    ensures one { (v : Version) (a b : List ℕ) (c : Certificate) → Encodes v a c → Encodes v b c → a ≡ b }
    ensures front { (v w : Version) (a more : List ℕ) (c d : Certificate) → Encodes v a c → Encodes w (a ++ more) d
        → more ≡ [] }
{}

/// Bytes encode at most one certificate, and that in one version: whatever follows two encodings that begin alike, they
/// are of one version and of one certificate, and so is what follows. A certificate is known by its items alone.
pub fn certificates_are_alone()
    ensures one { (v w : Version) (a b x y : List ℕ) (c d : Certificate) → Encodes v a c → Encodes w b d
        → a ++ x ≡ b ++ y → (v ≡ w) × (c ≡ d) × (x ≡ y) }
    ensures items { (c d : Certificate) → fields_of c ≡ fields_of d → c ≡ d }
{}

/// The numbers of a valid certificate are in their ranges.
pub fn valid_certificates_are_writable()
    ensures { (c : Certificate) → IsValid c → IsWritable c }
{}
