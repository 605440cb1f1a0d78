//! Addresses of data connections, worked out by hand.
#![tactic(auto, unfolding(unftp_control_defs::proofs::Computing::at_bytes))]

ghost use Rattle.std.specs.Prelude.{◌≡◌, [], ◌∷◌, ◌++◌, None, Ok, Err, codes};
ghost use Rattle.unftp_control_c.specs.Addresses.{IsReadBy, IsWrittenBy, form_for, form_of, found_meant, host_bytes, left_by};
ghost use Rattle.unftp_control_c.specs.declared.status.Status.TheVariants.{InvalidArgument, NoAddress, OutOfMemory, UnknownProtocol};

/// Addresses that are read, by the number of their form, and texts without one.
pub fn texts_have_addresses()
    ensures port { IsReadBy (form_of 0) (codes "1,2,3,4,0,21") (Ok (1 ∷ 2 ∷ 3 ∷ 4 ∷ [], 21)) }
    ensures not_none { ¬ (IsReadBy (form_of 0) (codes "1,2,3,4,0,21") (Err NoAddress)) }
    ensures no_port { IsReadBy (form_of 0) (codes "1,2,3,4") (Err NoAddress) }
    ensures no_value { ¬ (IsReadBy (form_of 0) (codes "(1,2,3,4,0,21)")
        (Ok (1 ∷ 2 ∷ 3 ∷ 4 ∷ [], 21))) }
    ensures reply_227 { IsReadBy (form_of 2) (codes "(1,2,3,4,0,21)")
        (Ok (1 ∷ 2 ∷ 3 ∷ 4 ∷ [], 21)) }
    ensures reply_229 { IsReadBy (form_of 3) (codes "(|||21|)") (Ok ([], 21)) }
    ensures no_form { IsReadBy (form_of 4) (codes "1,2,3,4,0,21") (Err InvalidArgument) }
    ensures other_protocol { ¬ (IsReadBy (form_of 0) (codes "1,2,3,4") (Err UnknownProtocol)) }
{}

/// An area with room for an address and a byte more, and one with a byte less.
pub fn areas_have_addresses()
    ensures room { left_by (Ok (1 ∷ 2 ∷ 3 ∷ 4 ∷ [], 21)) (codes ".....") ≡ record {
      result = 0;
      area = 1 ∷ 2 ∷ 3 ∷ 4 ∷ codes ".";
      ip_length = 4;
      port = 21;
    } }
    ensures no_room { left_by (Ok (1 ∷ 2 ∷ 3 ∷ 4 ∷ [], 21)) (codes "...")
        ≡ record { result = 107; area = codes "..."; ip_length = 4; port = 21 } }
    ensures no_address { left_by (Err NoAddress) (codes ".")
        ≡ record { result = 112; area = codes "."; ip_length = 0; port = 0 } }
    ensures no_host { found_meant (Ok (None, 21)) ≡ Ok (host_bytes None, 21) }
    ensures no_bytes { host_bytes None ≡ [] }
{}

/// Texts that are written, and addresses that have none.
pub fn addresses_have_texts()
    ensures port { IsWrittenBy (form_for 0 21) (1 ∷ 2 ∷ 3 ∷ 4 ∷ []) 21
        (Ok (codes "1,2,3,4,0,21")) }
    ensures other_text { ¬ (IsWrittenBy (form_for 0 21) (1 ∷ 2 ∷ 3 ∷ 4 ∷ []) 21
        (Ok (codes "1,2,3,4,21,0"))) }
    ensures no_bytes { IsWrittenBy (form_for 0 21) [] 21 (Err InvalidArgument) }
    ensures no_memory { ¬ (IsWrittenBy (form_for 0 21) [] 21 (Err OutOfMemory)) }
    ensures reply_229 { IsWrittenBy (form_for 3 65535) [] 65535 (Ok (codes "(|||65535|)")) }
    ensures port_too_great { IsWrittenBy (form_for 3 65536) [] 65536 (Err InvalidArgument) }
{}
