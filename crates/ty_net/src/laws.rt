// Laws of the definitions, for every text: what is read is what the grammars put together.
ghost use Rattle.std.specs.Prelude.{◌≡◌, ◌<◌, ℕ, List, Some, Err};
ghost use Rattle.ty_net.specs.declared.address.Ip.{Ip};
ghost use Rattle.ty_net.specs.declared.cidr.Cidr.{Cidr};
ghost use Rattle.ty_net.specs.declared.ports.PortRange.{PortRange};
ghost use Rattle.ty_net.specs.declared.fault.NetFault.TheVariants.{Reversed};
ghost use Rattle.ty_net.specs.Addresses.{ip_of};
ghost use Rattle.ty_net.specs.Cidrs.{cidr_of};
ghost use Rattle.ty_net.specs.Ports.{ports_of, ports_reading};
ghost use Rattle.ty_net.specs.Grammar.{IsIp, IsCidr, IsPorts, IsPair};

/// What reads as an address is what the grammar of dotted decimal and of RFC 4291 section 2.2 puts together,
/// and no text has two readings.
pub fn addresses_are_those_of_the_grammar()
    ensures read { (text : List ℕ) (ip : Ip) → ip_of text ≡ Some ip → IsIp text ip }
    ensures every { (text : List ℕ) (ip : Ip) → IsIp text ip → ip_of text ≡ Some ip }
    ensures one { (text : List ℕ) (a b : Ip) → IsIp text a → IsIp text b → a ≡ b }
{}

/// What reads as a network is an address, `/` and the digits of a length that fits it.
pub fn networks_are_those_of_the_grammar()
    ensures read { (text : List ℕ) (c : Cidr) → cidr_of text ≡ Some c → IsCidr text c }
    ensures every { (text : List ℕ) (c : Cidr) → IsCidr text c → cidr_of text ≡ Some c }
    ensures one { (text : List ℕ) (a b : Cidr) → IsCidr text a → IsCidr text b → a ≡ b }
{}

/// What reads as ports is the digits of one, or of two in order with `:` between them. Two that are out of order
/// are told as they stand.
pub fn ports_are_those_of_the_grammar()
    ensures read { (text : List ℕ) (r : PortRange) → ports_of text ≡ Some r → IsPorts text r }
    ensures every { (text : List ℕ) (r : PortRange) → IsPorts text r → ports_of text ≡ Some r }
    ensures one { (text : List ℕ) (a b : PortRange) → IsPorts text a → IsPorts text b → a ≡ b }
    ensures reversed_read { (text : List ℕ) (n m : ℕ) → ports_reading text ≡ Err (Reversed n m) → IsPair text n m × (m < n) }
    ensures reversed_every { (text : List ℕ) (n m : ℕ) → IsPair text n m → m < n → ports_reading text ≡ Err (Reversed n m) }
{}
