//! The laws of scanning, as contracts. Nothing is computed here.

ghost use Rattle.std.specs.Prelude.{◌≡◌, ◌≢◌, ℕ, ◌++◌, List, map, Ok, Some, None};
ghost use Rattle.gap_cert.specs.declared.field.Group.{Group};
ghost use Rattle.gap_cert.specs.declared.field.Item.{Item};
ghost use Rattle.gap_cert.specs.declared.field.Version.{Version};
ghost use Rattle.gap_cert.specs.declared.context.Phase.TheVariants.{Over};
ghost use Rattle.gap_cert.specs.Bytes.{AreBytes};
ghost use Rattle.gap_cert.specs.Certificates.{Certificate, Encodes, fields_of, group_in};
ghost use Rattle.gap_cert.specs.Contexts.{format_of};
ghost use Rattle.gap_cert.specs.Formats.{Spells};
ghost use Rattle.gap_scan.specs.Scans.{Scan, HasScanned, HasScannedMore, fed_more, next_of};

/// A scanner that gave these groups of the bytes that it was fed has given one more where it answers an item: the group
/// of that item, which begins behind the bytes of those before.
pub fn scanning_goes_on()
    ensures { (s : Scan) (fed : List ℕ) (groups : List Group) (item : Item) → AreBytes s.rest
        → HasScanned s fed groups → (next_of s).answer ≡ Ok (Some item) → HasScannedMore s fed groups item }
{}

/// An item or a fault that is answered doesn't hang on the bytes behind it: where more were fed before the call, the
/// answer is the same, and the scanner stands as if they had been fed after it. Where None is answered, no bytes to come
/// spell the next group as far as they go.
pub fn pieces_dont_matter()
    ensures fed { (s : Scan) (more : List ℕ) → (next_of s).answer ≢ Ok None
        → next_of (fed_more s more) ≡ record { answer = (next_of s).answer; stands = fed_more (next_of s).stands more } }
    ensures none { (s : Scan) (group : Group) (front behind : List ℕ) → (next_of s).answer ≡ Ok None
        → Spells (format_of s.context s.context.phase) group front → s.rest ≢ front ++ behind }
{}

/// A scanner that stands behind the end mark gave the items of the certificate that the bytes encode, all of them and in
/// order, and the bytes behind the encoding are left.
pub fn whole_certificates_are_scanned()
    ensures { (s : Scan) (fed bytes more : List ℕ) (groups : List Group) (v : Version) (c : Certificate)
        → HasScanned s fed groups → s.context.phase ≡ Over → Encodes v bytes c → fed ≡ bytes ++ more
        → (groups ≡ map (group_in v) (fields_of c)) × (s.rest ≡ more) }
{}
