// Laws of the header, of the frames of a stream, and of TLVs and ILVs.
ghost use Rattle.std.specs.Prelude.{◌≡◌, ◌+◌, ◌++◌, ◌/◌, ◌%◌, List, [], ℕ, length, slice_index, Option, None};
ghost use Rattle.std.specs.List.{flat_map, AllByRecursion};
ghost use Rattle.fc_wire.specs.Bytes.{AreBytes};
ghost use Rattle.fc_wire.specs.Tiling.{Tiling, tiling};
ghost use Rattle.fc_wire.specs.Tlvs.{TlvItem, AreTlvs, tlvs};
ghost use Rattle.fc_wire.specs.Ilvs.{IlvItem, AreIlvs, ilvs};
ghost use Rattle.fc_wire.specs.Writing.{Put, TlvFits, IlvFits, tlv_put, ilv_put, tlv_items, ilv_items, tlv_bytes, ilv_bytes, padding};
ghost use Rattle.fc_wire.specs.declared.header.WireFault.{WireFault};
ghost use Rattle.fc_wire.specs.declared.header.Header.{Header};
ghost use Rattle.fc_wire.specs.Header.{IsHeader, InRange, header_bytes};
ghost use Rattle.fc_wire.specs.Frames.{Frames};

/// What is put is read again.
pub fn header_is_read_again()
    ensures { (h : Header) → InRange h → IsHeader h (header_bytes h) }
{}

/// 24 bytes whose version is 1 have exactly one header.
pub fn header_is_unique()
    ensures one { (h k : Header) (bytes : List ℕ) → IsHeader h bytes → IsHeader k bytes → h ≡ k }
    ensures some { (bytes : List ℕ) → length bytes ≡ 24 → slice_index bytes 0 / 16 ≡ 1 → (h : Header) × IsHeader h bytes }
{}

/// A stream of bytes is cut into frames and a rest in exactly one way.
pub fn frames_are_unique()
    ensures one { (bytes : List ℕ) (frames others : List (List ℕ)) (rest last : List ℕ) →
        Frames bytes frames rest → Frames bytes others last → (frames ≡ others) × (rest ≡ last) }
    ensures some { (bytes : List ℕ) → (frames : List (List ℕ)) × (rest : List ℕ) × Frames bytes frames rest }
{}

/// Bytes are TLVs, up to their end or to the first fault, in at most one way, and in one where their number is a
/// multiple of four.
pub fn tlvs_are_unique()
    ensures one { (place : ℕ) (bytes : List ℕ) (t u : Tiling TlvItem) → AreTlvs place t bytes → AreTlvs place u bytes → t ≡ u }
    ensures some { (place : ℕ) (bytes : List ℕ) → AreBytes bytes → length bytes % 4 ≡ 0 → AreTlvs place (tlvs place bytes) bytes }
{}

/// The same of ILVs.
pub fn ilvs_are_unique()
    ensures one { (place : ℕ) (bytes : List ℕ) (t u : Tiling IlvItem) → AreIlvs place t bytes → AreIlvs place u bytes → t ≡ u }
    ensures some { (place : ℕ) (bytes : List ℕ) → AreBytes bytes → length bytes % 4 ≡ 0 → AreIlvs place (ilvs place bytes) bytes }
{}

/// The first items are all that a front of the bytes holds, and the others all that stands behind it.
pub fn items_cut_the_bytes()
    ensures tlvs { (place : ℕ) (xs ys : List TlvItem) (fault : Option WireFault) (bytes : List ℕ) → AreTlvs place (tiling (xs ++ ys) fault) bytes →
        (front : List ℕ) × (back : List ℕ) × (bytes ≡ front ++ back) × AreTlvs place (tiling xs None) front × AreTlvs (place + length front) (tiling ys fault) back }
    ensures ilvs { (place : ℕ) (xs ys : List IlvItem) (fault : Option WireFault) (bytes : List ℕ) → AreIlvs place (tiling (xs ++ ys) fault) bytes →
        (front : List ℕ) × (back : List ℕ) × (bytes ≡ front ++ back) × AreIlvs place (tiling xs None) front × AreIlvs (place + length front) (tiling ys fault) back }
{}

/// What is written is read again: TLVs and ILVs one after the other are exactly those items, and their bytes are a
/// multiple of four, so that a TLV that holds them has no padding of its own and counts theirs.
pub fn written_items_are_read()
    ensures tlvs { (place : ℕ) (puts : List Put) → AllByRecursion TlvFits puts → AreTlvs place (tiling (tlv_items place puts) None) (flat_map tlv_put puts) }
    ensures ilvs { (place : ℕ) (puts : List Put) → AllByRecursion IlvFits puts → AreIlvs place (tiling (ilv_items place puts) None) (flat_map ilv_put puts) }
    ensures whole_tlvs { (puts : List Put) → length (flat_map tlv_put puts) % 4 ≡ 0 }
    ensures whole_ilvs { (puts : List Put) → length (flat_map ilv_put puts) % 4 ≡ 0 }
    ensures unpadded { (value : List ℕ) → length value % 4 ≡ 0 → padding (length value) ≡ [] }
{}
