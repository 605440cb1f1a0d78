//! Examples of the definitions, worked out by hand from RFC 959 and RFC 2428, at the boundary.
#![tactic(auto, unfolding(unftp_control_defs::proofs::Computing::at_bytes))]

ghost use Rattle.std.specs.Prelude.{◌≡◌, [], ◌∷◌, None, Some, codes, false, true};
ghost use Rattle.std.specs.declared.net.socket_addr.SocketAddr.{SocketAddr as RustAddress};
ghost use Rattle.unftp_control_address.specs.Extended.{HasOtherProtocol, IsExtended, IsRefused, IsRefusedHost, extended_port, extended_port_text, fields, is_delimiter};
ghost use Rattle.unftp_control_address.specs.HostPorts.{first_host_port, host_port, host_port_text};
ghost use Rattle.unftp_control_address.specs.Numbers.{octet, short};
ghost use Rattle.unftp_control_address.specs.declared.extended.AddressError.TheVariants as AddressError;

/// Numbers of 8 and of 16 bits.
pub fn numbers_have_bounds()
    ensures octet { octet (codes "255") ≡ Some 255 }
    ensures octet_too_great { octet (codes "256") ≡ None }
    ensures leading_zeros { octet (codes "007") ≡ Some 7 }
    ensures four_digits { octet (codes "0007") ≡ None }
    ensures sign { octet (codes "+7") ≡ None }
    ensures nothing { octet [] ≡ None }
    ensures short { short (codes "65535") ≡ Some 65535 }
    ensures short_too_great { short (codes "65536") ≡ None }
    ensures six_digits { short (codes "000080") ≡ None }
{}

/// Values of PORT.
pub fn ports_have_six_numbers()
    ensures address { host_port (codes "127,0,0,1,195,80") ≡ Some (127 ∷ 0 ∷ 0 ∷ 1 ∷ [], 50000) }
    ensures five { host_port (codes "127,0,0,1,195") ≡ None }
    ensures seven { host_port (codes "127,0,0,1,195,80,1") ≡ None }
    ensures comma_after { host_port (codes "127,0,0,1,195,80,") ≡ None }
    ensures space { host_port (codes "127, 0,0,1,195,80") ≡ None }
    ensures written { host_port_text (127 ∷ 0 ∷ 0 ∷ 1 ∷ [], 50000) ≡ codes "127,0,0,1,195,80" }
{}

/// Texts of replies 227.
pub fn replies_have_an_address()
    ensures brackets { first_host_port (codes "Entering Passive Mode (127,0,0,1,195,80).")
        ≡ Some (127 ∷ 0 ∷ 0 ∷ 1 ∷ [], 50000) }
    ensures no_brackets { first_host_port (codes "=127,0,0,1,195,80")
        ≡ Some (127 ∷ 0 ∷ 0 ∷ 1 ∷ [], 50000) }
    ensures second_word { first_host_port (codes "(1,2) (127,0,0,1,0,80)")
        ≡ Some (127 ∷ 0 ∷ 0 ∷ 1 ∷ [], 80) }
    ensures seven { first_host_port (codes "(1,127,0,0,1,195,80)") ≡ None }
    ensures nothing { first_host_port [] ≡ None }
{}

/// The fields of a value of EPRT.
pub fn values_have_three_fields()
    ensures three { fields (codes "|1|10.0.0.1|80|") ≡ Some (record {
      protocol = codes "1";
      host = codes "10.0.0.1";
      port = codes "80";
    }) }
    ensures none_after { fields (codes "|1|10.0.0.1|80") ≡ None }
    ensures more_after { fields (codes "|1|10.0.0.1|80||") ≡ None }
    ensures digit { fields (codes "010100800") ≡ None }
    ensures nothing { fields [] ≡ None }
{}

/// Why values of EPRT are refused: they name a protocol that is not known here, or have another
/// form.
pub fn values_are_refused()
    ensures other_protocol { IsRefused (codes "|3|x|y|") AddressError.UnknownProtocol }
    ensures ipv4 { ¬ HasOtherProtocol (codes "|1|10.0.0.1|80|") }
    ensures ipv6 { ¬ HasOtherProtocol (codes "|2|::1|80|") }
    ensures no_number { IsRefused (codes "|x|10.0.0.1|80|") AddressError.Malformed }
    ensures port_too_great { IsRefused (codes "|1|10.0.0.1|65536|") AddressError.Malformed }
    ensures not_ended { (address : RustAddress) → ¬ IsExtended (codes "|1|10.0.0.1|80") address }
    ensures other_host { IsRefusedHost 3 (codes "::1") AddressError.UnknownProtocol }
    ensures known_host { ¬ IsRefusedHost 2 (codes "::1") AddressError.UnknownProtocol }
{}

/// Delimiters.
pub fn delimiters_are_in_no_address()
    ensures bar { is_delimiter 124 ≡ true }
    ensures space { is_delimiter 32 ≡ false }
    ensures letter_of_hex { is_delimiter 97 ≡ false }
    ensures other_letter { is_delimiter 103 ≡ true }
    ensures bracket { is_delimiter 41 ≡ false }
{}

/// Texts of replies 229.
pub fn replies_have_a_port()
    ensures port { extended_port (codes "Entering Extended Passive Mode (|||6446|)") ≡ Some 6446 }
    ensures two_delimiters { extended_port (codes "(||6446|)") ≡ None }
    ensures not_closed { extended_port (codes "(|||6446|") ≡ None }
    ensures other_bracket { extended_port (codes "(see) (|||6446|)") ≡ None }
    ensures written { extended_port_text 6446 ≡ codes "(|||6446|)" }
{}
